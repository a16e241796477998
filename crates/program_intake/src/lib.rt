// A sheet as its characters arrive, block by block and in fixed memory.

#![tactic(auto)]

ghost use Rattle.std.specs.Prelude.{◌≡◌};
ghost use Rattle.model_sheet.specs.Arriving.{opened, closed, stood_first, arrive, finished};
ghost use Rattle.model_sheet.specs.Frames.{shown};
ghost use Rattle.model_sheet.specs.Reading.{step_of};
ghost use Rattle.program_intake.specs.Taken.{started, longer, numbers_taken, beside, took_line, line_taken};

use model::{Arriving, Frame, Last, LineStep, Refusal};

// A line taken from a block, or as much of it as the block has, and the place behind it.
#[derive(Clone, Copy)]
pub struct LineTaken {
    pub arriving: Arriving,
    pub at: usize,
}

// Before a sheet's first character.
pub fn open() -> Arriving
    ensures { result ≡ opened }
{
    Arriving {
        verdict: Ok(()),
        reading: sheet_reader::begin(),
        frame: sheet_frames::empty_frame(),
        begun: false,
    }
}

// Whether an open line has a character, once some were added.
pub fn has_begun(begun: bool, chars: usize) -> bool
    ensures { result ≡ started begun chars }
{
    begun || 0 < chars
}

// More of the open line.
fn lengthen(a: Arriving, frame: Frame, chars: usize) -> Arriving
    ensures { result ≡ longer a frame chars }
{
    Arriving {
        verdict: Ok(()),
        reading: a.reading,
        frame,
        begun: has_begun(a.begun, chars),
    }
}

// No line of the sheet was read yet.
#[tactic(auto, unfolding(model_sheet::specs::Arriving::stood_first))]
fn is_first(last: Last) -> bool
    ensures { result ≡ stood_first last }
{
    matches!(last, Last::Nothing)
}

// The rows' numbers in a piece of the open line: on the sheet's first line alone are any.
fn take_numbers(last: Last, f: Frame, piece: &[u8], rows: &mut [u32])
    ensures { rows.new ≡ numbers_taken last rows.old f piece.now }
{
    if is_first(last) {
        sheet_frames::more_numbers(f, piece, rows);
    }
}

// The open line at its LF.
fn close_line(chained: bool, a: Arriving, rows: &[u32], frame: Frame) -> Arriving
    ensures { result ≡ closed (step_of chained rows.now a.reading (shown frame)) }
{
    let s = sheet_reader::step(chained, rows, a.reading, frame);
    Arriving {
        verdict: s.verdict,
        reading: s.reading,
        frame: sheet_frames::empty_frame(),
        begun: false,
    }
}

// The block's characters from `at` through the first LF, or to its end. The numbers on the sheet's first line go to `rows` as
// they come, also where the line is then refused: `rows` is the reading's own memory, and no result until the sheet is read.
// What it holds after a refusal is what the equation says.
pub fn take_line(chained: bool, a: Arriving, rows: &mut [u32], block: &[u8], at: usize) -> LineTaken
    ensures { took_line result rows.new ≡ line_taken chained (beside a rows.old) block.now at }
{
    let piece = sheet_frames::line(block, at);
    let end = at + piece.len();
    let has_feed = end < block.len();
    let behind = if has_feed { end + 1 } else { end };
    let Ok(()) = a.verdict else {
        return LineTaken {
            arriving: a,
            at: behind,
        };
    };
    take_numbers(a.reading.last, a.frame, piece, rows);
    let open = sheet_frames::more(a.frame, piece);
    let arriving = if has_feed {
        close_line(chained, a, rows, open)
    } else {
        lengthen(a, open, piece.len())
    };
    LineTaken {
        arriving,
        at: behind,
    }
}

// The whole block. `rows` is the reading's own memory, and no result until the sheet is read: after a refusal it holds what the
// equation says.
pub fn take_block(chained: bool, a: Arriving, rows: &mut [u32], block: &[u8]) -> Arriving
    ensures { beside result rows.new ≡ arrive chained (beside a rows.old) block.now }
{
    let mut arriving = a;
    let mut at: usize = 0;
    // A line says where the next one begins.
    while at < block.len() {
        let t = take_line(chained, arriving, rows, block, at);
        arriving = t.arriving;
        at = t.at;
    }
    arriving
}

// At the end of the input.
#[tactic(auto, unfolding(model_sheet::specs::Arriving::finished))]
pub fn finish(a: Arriving) -> LineStep
    ensures { result ≡ finished a }
{
    let verdict = match a.verdict {
        Ok(()) if a.begun => Err(Refusal::Malformed),
        v => v,
    };
    LineStep {
        verdict,
        reading: a.reading,
    }
}
