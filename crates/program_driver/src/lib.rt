// The program `run`, step by step: what it does between reading and writing.

#![tactic(auto)]

ghost use Rattle.std.specs.Prelude.{◌≡◌, ◌+◌, ◌≤◌, length};
ghost use Rattle.model.specs.Answers.{answer_counts};
ghost use Rattle.model_run.specs.Kernels.{width};
ghost use Rattle.program_writer.specs.Texts.{Within};
ghost use Rattle.program_driver.specs.RunSteps.{left, LeavesRows, LeavesCells, part_run, part_left, KeptBehind, job_after};
ghost use Rattle.program_driver.specs.RunSteps.{ran_on, advanced};

use model::{Chain, Ran, State};
use program_jobs::Job;
use program_stages::Stage;
use values::counts_of;

// What a step leaves: the job, the place in the block behind what was looked at, and how many characters of text are to be
// written.
#[derive(Clone, Copy)]
pub struct Step {
    pub job: Job,
    pub at: usize,
    pub bytes: usize,
}

fn read_sheet(j: Job, block: &[u8], at: usize, rows: &mut [u32]) -> Step
    ensures { LeavesRows result j block.now at rows.old rows.new }
{
    let t = program_intake::take_line(true, j.arriving, rows, block, at);
    Step {
        job: Job {
            stage: program_stages::sheet_stage(t.arriving, rows),
            arriving: t.arriving,
            ..j
        },
        at: t.at,
        bytes: 0,
    }
}

fn read_cells(j: Job, block: &[u8], at: usize, cells: &mut [u32]) -> Step
    ensures { LeavesCells result j block.now at cells.old cells.new }
{
    let t = program_cells::take_cells(j.line, block, at, cells);
    Step {
        job: Job {
            stage: program_stages::cells_stage(t.count, t.line.verdict),
            line: t.line,
            from: 0,
            count: t.count,
            ..j
        },
        at: t.at,
        bytes: 0,
    }
}

// How many words a firing of the chain writes.
fn firing_size(chain: Chain) -> usize
    ensures { result ≡ width chain.kernel chain.window.count }
{
    kernel_terms::width(chain.kernel, chain.window.count as usize)
}

// A run call over the cells from `from` to before `to`, with the first `places` words as its output.
fn run_part(
    chain: Chain,
    rows: &[u32],
    state: State,
    store: &mut [u32],
    cells: &[u32],
    from: usize,
    to: usize,
    words: &mut [u32],
    places: usize,
) -> Ran
    requires { (from ≤ to) × (to ≤ length cells.now) × (places ≤ length words.old) }
    ensures places_after { part_left result store.new words.new places
        ≡ part_run chain rows.now state store.old cells.now words.old from to
        places }
    ensures kept_behind { KeptBehind places words.old words.new }
{
    runner::run(
        chain,
        rows,
        state,
        store,
        &cells[from..to],
        &mut words[..places],
        4294967295,
    )
}

// The job after a run call.
fn ran_on(j: Job, ran: Ran, from: usize, to: usize) -> Job
    requires { from + (answer_counts ran.answer).cells ≤ to }
    ensures { result ≡ job_after j ran.answer ran.state from to }
{
    let c = counts_of(ran.answer);
    Job {
        stage: program_stages::answer_stage(ran.answer),
        state: ran.state,
        clocks: std::num::wrapping_add_u32(j.clocks, c.clocks),
        from: from + (c.cells as usize),
        count: to,
        ..j
    }
}

// A run call over the cells at hand, with as many output places as there is room for their lines.
fn run_on(
    j: Job,
    at: usize,
    rows: &[u32],
    store: &mut [u32],
    cells: &[u32],
    words: &mut [u32],
    text: &mut [u8],
) -> Step
    ensures { left result rows.now store.new cells.now words.new
        text.new
        ≡ ran_on j at rows.now store.old cells.now words.old text.old }
{
    let chain = j.arriving.reading.chain;
    let size = firing_size(chain);
    let places = words.len().min(program_writer::room_for(size, text.len()));
    let to = j.count.min(cells.len());
    let from = j.from.min(to);
    let ran = run_part(chain, rows, j.state, store, cells, from, to, words, places);
    let c = counts_of(ran.answer);
    let bytes = program_writer::put_firings(size, j.state.fired.0, c.firings, words, text);
    Step {
        job: ran_on(j, ran, from, to),
        at,
        bytes,
    }
}

// One step: a line of the sheet, the cells of a block, a run call, or the last line. While the sheet's first line arrives its
// numbers go to `rows`, also where the line is then refused: `rows` is the reading's own memory, and no result until the sheet
// is read. What it holds after a refusal is what the equation says.
pub fn advance(
    j: Job,
    block: &[u8],
    at: usize,
    rows: &mut [u32],
    store: &mut [u32],
    cells: &mut [u32],
    words: &mut [u32],
    text: &mut [u8],
) -> Step
    ensures text_after { left result rows.new store.new cells.new words.new text.new
        ≡ advanced j block.now at rows.old store.old cells.old
        words.old text.old }
    ensures within { Within result.bytes text.new }
{
    match j.stage {
        Stage::Sheet => read_sheet(j, block, at, rows),
        Stage::Cells => read_cells(j, block, at, cells),
        Stage::Clocks => run_on(j, at, rows, store, cells, words, text),
        Stage::Ending(way) => {
            let bytes = program_writer::put_end(way, j.clocks, text);
            Step {
                job: program_jobs::staged(j, Stage::Over),
                at,
                bytes,
            }
        }
        Stage::Refusing(n) => {
            let bytes = program_writer::put_refusal(n, text);
            Step {
                job: program_jobs::staged(j, Stage::Over),
                at,
                bytes,
            }
        }
        Stage::Over => Step {
            job: j,
            at,
            bytes: 0,
        },
    }
}
