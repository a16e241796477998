// What the program `plan` writes at the end of its input.

#![tactic(auto)]

ghost use Rattle.std.specs.Prelude.{◌≡◌};
ghost use Rattle.program_writer.specs.Texts.{laid, laid_if_fits, Within};
ghost use Rattle.program_answer.specs.Answer.{planned_of, plan_answer};

use model::{Arriving, Chain, Refusal};
use values::request_of;

// The chain that is planned of the request that arrived, with the rows beside it, or the number that turns it back first.
fn planned(a: Arriving, rows: &[u32]) -> Result<Chain, Refusal>
    ensures { result ≡ planned_of a rows.now }
{
    let s = program_intake::finish(a);
    s.verdict?;
    if !sheet_reader::is_complete(s.reading) {
        return Err(Refusal::Misplaced);
    }
    planner::plan(request_of(s.reading.chain), rows)
}

// Its sheet, or its refusal, where that fits; how many characters it has.
pub fn plan_answer(a: Arriving, rows: &[u32], text: &mut [u8]) -> usize
    ensures text_after { laid result text.new ≡ laid_if_fits (plan_answer a rows.now) text.old }
    ensures within { Within result text.new }
{
    match planned(a, rows) {
        Ok(c) => sheet_calls::write_chain(c, rows, text).unwrap_or(0),
        Err(x) => program_writer::put_refusal(x, text),
    }
}
