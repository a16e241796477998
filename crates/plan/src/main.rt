// Plans the request sheet on standard input: writes its chain sheet, or `1F` and the number of the refusal.

#![tactic(auto)]

ghost use Rattle.std.specs.Prelude.{◌≡◌, replicate};
ghost use Rattle.model_sheet.specs.Frames.{row_numbers};
ghost use Rattle.program_laws.specs.Loops.{TakenIn, PlanDue};

use model::{Arriving, BLOCK_PLACES, PLAN_TEXT_PLACES, ROW_NUMBERS, Refusal};
use std::io::{Read, Stdin};

// Reads block after block, to the end of the input or to the first line that is turned back; the numbers on the sheet's first
// line go to `rows`. None where a read failed.
fn receive(input: &mut Stdin, block: &mut [u8], rows: &mut [u32]) -> Option<Arriving>
    requires { rows.old ≡ replicate row_numbers 0 }
    ensures { TakenIn result rows.new }
{
    let mut arriving = program_intake::open();
    // A loop has to end, and nothing says that the input does: no input has so many blocks.
    for _ in 0..u64::MAX {
        let Ok(len) = input.read(block) else {
            return None;
        };
        if len == 0 {
            break;
        }
        arriving = program_intake::take_block(false, arriving, rows, &block[..len]);
        match arriving.verdict {
            Ok(()) => {}
            Err(_) => break,
        }
    }
    Some(arriving)
}

// Writes the text that is due of this sheet and its rows.
fn write_due(rt: &impl Print, arriving: Arriving, rows: &[u32], text: &[u8])
    requires { PlanDue arriving rows.now text.now }
{
    let _ = rt.write_all(text);
}

// Where a read fails, the program ends without a line.
fn main(rt: HostRuntime) {
    let mut block = [0u8; BLOCK_PLACES];
    let mut rows = [0u32; ROW_NUMBERS];
    let mut text = [0u8; PLAN_TEXT_PLACES];
    let Some(arriving) = receive(&mut rt.stdin(), &mut block, &mut rows) else {
        return;
    };
    let bytes = program_answer::plan_answer(arriving, &rows, &mut text);
    write_due(&rt, arriving, &rows, &text[..bytes]);
}
