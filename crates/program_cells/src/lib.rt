// Cells as they arrive behind a chain sheet, block by block and in fixed memory.

#![tactic(auto)]

ghost use Rattle.std.specs.Prelude.{◌≡◌, Ok, Err};
ghost use Rattle.model_sheet.specs.Arriving.{new_line};
ghost use Rattle.program_cells.specs.Cells.{took, cells_taken};

use model::{CellLine, Refusal};

// Cells taken from a block, `count` of them; the line behind them, open or turned back; the place behind what was looked at.
#[derive(Clone, Copy)]
pub struct CellsTaken {
    pub line: CellLine,
    pub at: usize,
    pub count: usize,
}

// Before the first character of a line where cells are read.
pub fn new_line() -> CellLine
    ensures { result ≡ new_line }
{
    CellLine {
        verdict: Ok(()),
        frame: sheet_frames::empty_frame(),
        begun: false,
    }
}

// The cells of the block's lines from `at` on, the first of which may be open already: as many as have places, up to the
// first line that is turned back.
pub fn take_cells(l: CellLine, block: &[u8], at: usize, cells: &mut [u32]) -> CellsTaken
    ensures { took result cells.new ≡ cells_taken l block.now at cells.old }
{
    let Ok(()) = l.verdict else {
        return CellsTaken {
            line: l,
            at,
            count: 0,
        };
    };
    let mut frame = l.frame;
    let mut begun = l.begun;
    let mut p = at;
    for count in 0..cells.len() {
        let piece = sheet_frames::line(block, p);
        let end = p + piece.len();
        let open = sheet_frames::more(frame, piece);
        if block.len() <= end {
            return CellsTaken {
                line: CellLine {
                    verdict: Ok(()),
                    frame: open,
                    begun: program_intake::has_begun(begun, piece.len()),
                },
                at: end,
                count,
            };
        }
        p = end + 1;
        if let Err(x) = sheet_verdicts::cell_verdict(open) {
            return CellsTaken {
                line: CellLine {
                    verdict: Err(x),
                    ..new_line()
                },
                at: p,
                count,
            };
        }
        cells[count] = sheet_fields::word_in(open.first);
        frame = sheet_frames::empty_frame();
        begun = false;
    }
    CellsTaken {
        line: CellLine {
            verdict: Ok(()),
            frame,
            begun,
        },
        at: p,
        count: cells.len(),
    }
}
