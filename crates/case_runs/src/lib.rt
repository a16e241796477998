// A run of a chain call by call, lent whole or in pieces.

#![tactic(auto)]

pub mod compare;

ghost use Rattle.std.specs.Prelude.{◌≡◌, ◌+◌, ◌*◌, ◌%◌, ◌^◌};
ghost use Rattle.runner.specs.Runs.{ran_of};
ghost use Rattle.case_runs.specs.CaseRuns.{fresh as fresh_state, begun, lent, firsts, first_firing, end_of, after_call};
ghost use Rattle.case_runs.specs.CaseRuns.{share_of, course, called, called_on, stopped};

use model::{CellsPassed, Chain, Counts, FiringsMade, Outcome, Ran, Refusal, State};
use values::counts_of;

// A run so far: its state, sums over its calls, how many words the last call wrote, and which outcomes were met; `broken` is
// a refusal or a stall.
#[derive(Clone, Copy)]
pub struct Run {
    pub state: State,
    pub calls: usize,
    pub cells: usize,
    pub firings: usize,
    pub clocks: usize,
    pub words: usize,
    pub done: bool,
    pub spent: bool,
    pub starved: bool,
    pub full: bool,
    pub broken: bool,
}

// What a call is lent: at most `count` cells from number `from` on, at most `places` output places, and clocks.
#[derive(Clone, Copy)]
pub struct Share {
    pub from: usize,
    pub count: usize,
    pub places: usize,
    pub clocks: u32,
}

// The counts of a run's clocks before its first firing, and of the clock after them.
#[derive(Clone, Copy)]
pub struct FirstFiring {
    pub before: Counts,
    pub next: Counts,
}

pub fn fresh() -> State
    ensures { result ≡ fresh_state }
{
    State {
        passed: [CellsPassed(0); 32],
        fired: FiringsMade(0),
    }
}

pub fn begin() -> Run
    ensures { result ≡ begun }
{
    Run {
        state: fresh(),
        calls: 0,
        cells: 0,
        firings: 0,
        clocks: 0,
        words: 0,
        done: false,
        spent: false,
        starved: false,
        full: false,
        broken: false,
    }
}

// A call with its share of the cells and of the output.
pub fn lend(
    chain: Chain,
    rows: &[u32],
    state: State,
    share: Share,
    cells: &[u32],
    store: &mut [u32],
    out: &mut [u32],
) -> Ran
    ensures { ran_of result store.new out.new
        ≡ lent chain rows.now state share cells.now store.old out.old }
{
    let from = share.from.min(cells.len());
    let count = share.count.min(cells.len() - from);
    let end = share.places.min(out.len());
    runner::run(
        chain,
        rows,
        state,
        store,
        &cells[from..from + count],
        &mut out[..end],
        share.clocks,
    )
}

// Without an output place a fresh run makes all clocks before its first firing; then it gets places and one clock more.
#[tactic(auto, unfolding(crate::specs::CaseRuns::first_firing))]
pub fn first_firing(
    chain: Chain,
    rows: &[u32],
    cells: &[u32],
    store: &mut [u32],
    out: &mut [u32],
) -> FirstFiring
    ensures { firsts result store.new out.new
        ≡ first_firing chain rows.now cells.now store.old out.old }
{
    let all = Share {
        from: 0,
        count: 1048576,
        places: 0,
        clocks: 4294967295,
    };
    let r = lend(chain, rows, fresh(), all, cells, store, out);
    let before = counts_of(r.answer);
    let one = Share {
        from: before.cells as usize,
        count: 1,
        places: 32,
        clocks: 1,
    };
    let s = lend(chain, rows, r.state, one, cells, store, out);
    FirstFiring {
        before,
        next: counts_of(s.answer),
    }
}

// How a call ended, as a number.
#[tactic(auto, unfolding(crate::specs::CaseRuns::end_of))]
fn end_of(a: Result<Outcome, Refusal>) -> u8
    ensures { result ≡ end_of a }
{
    match a {
        Ok(Outcome::Done(_)) => 0,
        Ok(Outcome::Spent(_)) => 1,
        Ok(Outcome::Starved(_)) => 2,
        Ok(Outcome::Stalled(_)) => 3,
        Ok(Outcome::Full(_)) => 4,
        Err(_) => 5,
    }
}

// How many words a call of so many firings wrote.
pub fn words_of(firings: u32, width: usize) -> usize
    ensures { result ≡ firings * (width % 4294967296) }
{
    firings as usize * (width % 4294967296)
}

fn plus(a: usize, b: u32) -> usize
    ensures { result ≡ (a + b) % 2 ^ 64 }
{
    a.wrapping_add(b as usize)
}

// The run after a call.
#[tactic(auto, unfolding(crate::specs::CaseRuns::after_call))]
fn after(r: Run, ran: Ran, width: usize) -> Run
    ensures { result ≡ after_call r ran.state ran.answer width }
{
    let c = counts_of(ran.answer);
    let end = end_of(ran.answer);
    Run {
        state: ran.state,
        calls: plus(r.calls, 1),
        cells: plus(r.cells, c.cells),
        firings: plus(r.firings, c.firings),
        clocks: plus(r.clocks, c.clocks),
        words: words_of(c.firings, width),
        done: r.done | (end == 0),
        spent: r.spent | (end == 1),
        starved: r.starved | (end == 2),
        full: r.full | (end == 4),
        broken: r.broken | (end == 3) | (end == 5),
    }
}

// What call number `call` is lent, from cell number `from` on: all that is there, or of each a number that varies from call
// to call, 0 among them.
#[tactic(auto, unfolding(crate::specs::CaseRuns::share_of))]
fn share_of(pieces: bool, call: usize, from: usize) -> Share
    ensures { result ≡ share_of pieces call from }
{
    if pieces {
        return Share {
            from,
            count: call % 211 * 37 % 211,
            places: call % 997 * 290 % 997,
            clocks: (call % 199 * 53 % 199) as u32,
        };
    }
    Share {
        from,
        count: 1048576,
        places: 1048576,
        clocks: 4294967295,
    }
}

#[tactic(auto, unfolding(crate::specs::CaseRuns::called))]
fn call(
    chain: Chain,
    rows: &[u32],
    run: Run,
    pieces: bool,
    width: usize,
    cells: &[u32],
    store: &mut [u32],
    out: &mut [u32],
) -> Run
    ensures { course result store.new out.new
        ≡ called chain rows.now pieces width cells.now
        (course run store.old out.old) }
{
    let share = share_of(pieces, run.calls, run.cells);
    let ran = lend(chain, rows, run.state, share, cells, store, out);
    after(run, ran, width)
}

fn stops(words: usize, done: bool, broken: bool) -> bool
    ensures { result ≡ stopped words done broken }
{
    (0 < words) | done | broken
}

// Calls until one has written a word, or the run has ended; at most 100,000.
pub fn more(
    chain: Chain,
    rows: &[u32],
    run: Run,
    pieces: bool,
    width: usize,
    cells: &[u32],
    store: &mut [u32],
    out: &mut [u32],
) -> Run
    ensures { course result store.new out.new
        ≡ called_on 100000 chain rows.now pieces width cells.now
        (course run store.old out.old) }
{
    let mut r = run;
    for _ in 0..100000u32 {
        r = call(chain, rows, r, pieces, width, cells, store, out);
        if stops(r.words, r.done, r.broken) {
            return r;
        }
    }
    r
}
