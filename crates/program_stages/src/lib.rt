// What the program `run` does next.

#![tactic(auto)]

ghost use Rattle.std.specs.Prelude.{◌≡◌};
ghost use Rattle.program_stages.specs.Stages.{sheet_stage, cells_stage, answer_stage, wants_by, over};

use model::{Arriving, DONE_BYTE, Outcome, Refusal, STALLED_BYTE};

// What a run of the program `run` does next.
#[derive(Clone, Copy)]
pub enum Stage {
    // It reads lines of the chain sheet.
    Sheet,
    // It reads `05` lines.
    Cells,
    // Cells are at hand: the run goes on.
    Clocks,
    // The `11` line is due, with this byte.
    Ending(u8),
    // The `1F` line is due.
    Refusing(Refusal),
    // Nothing.
    Over,
}

// Where the sheet has been read to: turned back, still open, or at its `04`, where the chain is judged, with the rows beside it.
#[tactic(auto, unfolding(crate::specs::Stages::sheet_stage))]
pub fn sheet_stage(a: Arriving, rows: &[u32]) -> Stage
    ensures { result ≡ sheet_stage a rows.now }
{
    if let Err(x) = a.verdict {
        return Stage::Refusing(x);
    }
    if !sheet_reader::is_complete(a.reading) {
        return Stage::Sheet;
    }
    match judging::judge_chain(a.reading.chain, rows) {
        Ok(()) => Stage::Cells,
        Err(x) => Stage::Refusing(x),
    }
}

// Cells first; a line that was turned back only where none is left.
#[tactic(auto, unfolding(crate::specs::Stages::cells_stage))]
pub fn cells_stage(count: usize, v: Result<(), Refusal>) -> Stage
    ensures { result ≡ cells_stage count v }
{
    if 0 < count {
        return Stage::Clocks;
    }
    match v {
        Ok(()) => Stage::Cells,
        Err(x) => Stage::Refusing(x),
    }
}

// After a run call.
#[tactic(auto, unfolding(crate::specs::Stages::answer_stage, crate::specs::Stages::outcome_stage))]
pub fn answer_stage(a: Result<Outcome, Refusal>) -> Stage
    ensures { result ≡ answer_stage a }
{
    match a {
        Ok(Outcome::Done(_)) => Stage::Ending(DONE_BYTE),
        Ok(Outcome::Stalled(_)) => Stage::Ending(STALLED_BYTE),
        Ok(Outcome::Starved(_)) => Stage::Cells,
        Ok(Outcome::Full(_) | Outcome::Spent(_)) => Stage::Clocks,
        Err(x) => Stage::Refusing(x),
    }
}

// Nothing is left to do without more input, where `v` is the verdict of the line of cells that was read last.
#[tactic(auto, unfolding(crate::specs::Stages::wants_by))]
pub fn wants_input(stage: Stage, v: Result<(), Refusal>) -> bool
    ensures { result ≡ wants_by stage v }
{
    match stage {
        Stage::Sheet => true,
        Stage::Cells => v.is_ok(),
        Stage::Clocks | Stage::Ending(_) | Stage::Refusing(_) | Stage::Over => false,
    }
}

// Nothing is left to do.
#[tactic(auto, unfolding(crate::specs::Stages::over))]
pub fn is_over(stage: Stage) -> bool
    ensures { result ≡ over stage }
{
    matches!(stage, Stage::Over)
}
