// Where a run of the program `run` stands.

#![tactic(auto)]

ghost use Rattle.std.specs.Prelude.{◌≡◌};
ghost use Rattle.program_jobs.specs.Jobs.{begun, staged, closed, after_read};

use model::{Arriving, CellLine, CellsPassed, FiringsMade, Refusal, STARVED_BYTE, State};
use program_stages::Stage;

// Where a run of the program stands: the sheet as it arrives; the run's state and clocks; the line that is open where cells
// are read; and of the cells at hand those from `from` to before `count` that the run has not taken.
#[derive(Clone, Copy)]
pub struct Job {
    pub stage: Stage,
    pub arriving: Arriving,
    pub state: State,
    pub clocks: u32,
    pub line: CellLine,
    pub from: usize,
    pub count: usize,
}

// Before the first character.
pub fn begin() -> Job
    ensures { result ≡ begun }
{
    Job {
        stage: Stage::Sheet,
        arriving: program_intake::open(),
        state: State {
            passed: [CellsPassed(0); 32],
            fired: FiringsMade(0),
        },
        clocks: 0,
        line: program_cells::new_line(),
        from: 0,
        count: 0,
    }
}

// The job with another stage.
pub fn staged(j: Job, stage: Stage) -> Job
    ensures { result ≡ staged j stage }
{
    Job { stage, ..j }
}

// At the end of the input: a line that is open is turned back; so is a sheet that lacks lines; a run that wants cells is starved.
#[tactic(auto, unfolding(crate::specs::Jobs::closed, crate::specs::Jobs::closed_by))]
pub fn close_input(j: Job) -> Job
    ensures { result ≡ closed j }
{
    match j.stage {
        Stage::Sheet if j.arriving.begun => staged(j, Stage::Refusing(Refusal::Malformed)),
        Stage::Sheet => staged(j, Stage::Refusing(Refusal::Misplaced)),
        Stage::Cells if j.line.begun => staged(j, Stage::Refusing(Refusal::Malformed)),
        Stage::Cells => staged(j, Stage::Ending(STARVED_BYTE)),
        Stage::Clocks | Stage::Ending(_) | Stage::Refusing(_) | Stage::Over => j,
    }
}

// After a read that answered `got`: nothing is the end of the input; where it failed the program is over, without a last line.
// A number, since `ReadFails` speaks of each negative one.
pub fn after_read(j: Job, got: isize) -> Job
    ensures { result ≡ after_read got j }
{
    if got < 0 {
        return staged(j, Stage::Over);
    }
    if got == 0 {
        return close_input(j);
    }
    j
}
