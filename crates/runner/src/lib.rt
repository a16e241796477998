// The run call (document 01, "One clock" and "Running").

#![tactic(auto)]

mod by_rows;

ghost use Rattle.std.specs.Prelude.{true, false, List, [], ◌≡◌, ℕ, ◌+◌, ◌-◌, ◌*◌, ◌<◌, ◌≤◌, length, get_or, take, Ok, Err};
ghost use Rattle.model_run.specs.Clock.{Layout};
ghost use Rattle.model_run.specs.Kernels.{width as width_for, terms as terms_of};
ghost use Rattle.model.specs.Values.{Trimmed, trimmed};
ghost use Rattle.model_run.specs.Running.{outcome_of, with_counters, judge_run, run_of};
ghost use Rattle.kernel_terms.specs.FilterTables.{filters_for};
ghost use Rattle.run_prepare.specs.Prepared.{number_at};
ghost use Rattle.run_prepare.specs.Ready.{Prepared, Begins, Begun};
ghost use Rattle.run_prepare.specs.RowsReady.{RowsBegun};
ghost use Rattle.runner.specs.Loops.{Advanced};
ghost use Rattle.runner.specs.Stretching.{Stretching, Stretchable, ending_of, stop_end, way_end, StretchedTo};
ghost use Rattle.runner.specs.ByRows.{RowCall};
ghost use Rattle.runner.specs.Clocks.{call_of, Ends};
ghost use Rattle.runner.specs.Runs.{ran_of};

use model::{CellsPassed, Chain, Counts, FiringsMade, Kernel, Order, Outcome, Ran, Refusal, State};
use rows::{RowCourse, RowSurvey};
use run_fill::Stop;
use run_glide::Way;
use run_prepare::Ready;

// The first n numbers, m on.
fn advance(n: usize, m: usize, ps: &mut [usize; 32])
    requires n_bound { (n ≤ 32) × (length ps.old ≡ 32) }
    requires by_index { (k : ℕ) → k < n → get_or ps.old k 0 + m < 18446744073709551616 }
    ensures { Advanced n m ps.old ps.new }
{
    for k in 0..n {
        ps[k] += m;
    }
}

// ---- a stretch of iterations, in which the filters stay aligned

// Why the clocks of a stretch ended: the stretch is done, or the call ends.
#[derive(Clone, Copy)]
enum End {
    Done,
    Spent,
    Starved,
    Stalled,
    Full,
}

// What they were: `taken` cells, `clocks` and `firings`.
#[derive(Clone, Copy)]
struct Stretched {
    end: End,
    taken: usize,
    clocks: usize,
    firings: usize,
}

// No clock was made.
fn no_clocks(end: End) -> Stretched
    ensures { result ≡ record { end = end; taken = 0; clocks = 0; firings = 0 } }
{
    Stretched {
        end,
        taken: 0,
        clocks: 0,
        firings: 0,
    }
}

fn stop_end(how: Stop) -> End
    ensures { result ≡ stop_end how }
{
    match how {
        Stop::Aligned => End::Done,
        Stop::Spent => End::Spent,
        Stop::Starved => End::Starved,
        Stop::Stalled => End::Stalled,
    }
}

fn way_end(way: Way) -> End
    ensures { result ≡ way_end way }
{
    match way {
        Way::Done => End::Done,
        Way::Spent => End::Spent,
        Way::Starved => End::Starved,
        Way::Full => End::Full,
    }
}

// The clocks of a stretch with firings left: until the filters are aligned, then with every filter moving. `iterations` and
// `fired` are counted from the stretch's first iteration on.
fn stretch_clocks(
    kernel: Kernel,
    centre: u8,
    order: Order,
    n: usize,
    dims: usize,
    at: &[usize; 32],
    wants: &[usize; 32],
    caps: &[usize; 32],
    bases: &[usize; 32],
    tops: &[usize; 32],
    spans: &[usize; 4],
    strides: &[usize; 4],
    row: usize,
    iterations: usize,
    size: usize,
    fired: usize,
    passed: &mut [usize; 32],
    store: &mut [u32],
    cells: &[u32],
    out: &mut [u32],
    allowance: usize,
) -> Stretched
    requires { Stretchable kernel (terms_of kernel centre (filters_for n order)) n row iterations size centre fired dims
        at.now wants.now caps.now bases.now tops.now spans.now strides.now passed.old store.old }
    ensures { (L : Layout) (write : List ℕ → List ℕ)
        → Stretching L write kernel (terms_of kernel centre (filters_for n order)) n row iterations size centre fired dims
        at.now wants.now caps.now bases.now tops.now
        spans.now strides.now passed.old store.old
        → StretchedTo result L write (width_for kernel n) n iterations fired passed.old passed.new
        store.old store.new out.old out.new cells.now allowance }
{
    let mut puts = [0usize; 32];
    let mut gets = [0usize; 32];
    let f = run_fill::fill(
        n, at, wants, caps, bases, tops, size, *passed, &mut puts, &mut gets, store, cells,
        allowance,
    );
    let after = f.passed;
    *passed = after;
    if let Stop::Aligned = f.how {
        let g = run_glide::glide(
            f.full,
            kernel,
            centre,
            n,
            at,
            wants,
            bases,
            tops,
            dims,
            spans,
            strides,
            row,
            iterations,
            passed,
            fired,
            puts,
            gets,
            store,
            &cells[f.taken..],
            out,
            allowance - f.clocks,
            order,
        );
        advance(n, g.clocks, passed);
        return Stretched {
            end: way_end(g.how),
            taken: f.taken + g.clocks,
            clocks: f.clocks + g.clocks,
            firings: g.firings,
        };
    }
    Stretched {
        end: stop_end(f.how),
        taken: f.taken,
        clocks: f.clocks,
        firings: 0,
    }
}

// ---- the clocks of a call

fn outcome_of(end: End, c: Counts) -> Outcome
    ensures { result ≡ outcome_of (ending_of end) c }
{
    match end {
        End::Done => Outcome::Done(c),
        End::Spent => Outcome::Spent(c),
        End::Starved => Outcome::Starved(c),
        End::Stalled => Outcome::Stalled(c),
        End::Full => Outcome::Full(c),
    }
}

// How a call ended, and the firings made since the state was fresh.
#[derive(Clone, Copy)]
struct Stopped {
    outcome: Outcome,
    fired: FiringsMade,
}

// The call ended as its clocks `s`, before which `fired` firings were made.
fn ended(fired: usize, s: Stretched) -> Stopped
    requires { (s.taken < 4294967296) × (s.clocks < 4294967296) × (fired + s.firings < 4294967296) }
    ensures { result ≡ record {
      outcome = outcome_of (ending_of s.end) (record { cells = s.taken; firings = s.firings; clocks = s.clocks });
      fired = record { 0 = fired + s.firings };
    } }
{
    let c = Counts {
        cells: s.taken as u32,
        firings: s.firings as u32,
        clocks: s.clocks as u32,
    };
    Stopped {
        outcome: outcome_of(s.end, c),
        fired: FiringsMade((fired + s.firings) as u32),
    }
}

// The clocks of a call that is not refused: all iterations are one stretch.
fn clocks(
    chain: Chain,
    order: Order,
    at: &[usize; 32],
    wants: &[usize; 32],
    caps: &[usize; 32],
    bases: &[usize; 32],
    tops: &[usize; 32],
    spans: &[usize; 4],
    strides: &[usize; 4],
    row: usize,
    iterations: usize,
    size: usize,
    centre: u8,
    fired: usize,
    passed: &mut [usize; 32],
    store: &mut [u32],
    cells: &[u32],
    out: &mut [u32],
    allowance: u32,
) -> Stopped
    requires { (chain.grid.skewed ≡ false)
        × Prepared (trimmed chain []) row iterations size centre at.now caps.now bases.now tops.now spans.now
        strides.now
        × Begins (trimmed chain []) fired wants.now passed.old store.old × (order ≡ chain.order) }
    ensures { Ends result
        (call_of (trimmed chain []) chain.window.count fired passed.old store.old
        cells.now out.old allowance) chain.window.count
        passed.old passed.new store.new out.new }
{
    if iterations <= fired {
        return ended(fired, no_clocks(End::Done));
    }
    if allowance == 0 {
        return ended(fired, no_clocks(End::Spent));
    }
    let n = chain.window.count as usize;
    let dims = chain.grid.dims as usize;
    let kernel = chain.kernel;
    let s = stretch_clocks(
        kernel,
        centre,
        order,
        n,
        dims,
        at,
        wants,
        caps,
        bases,
        tops,
        spans,
        strides,
        row,
        iterations,
        size,
        fired,
        passed,
        store,
        cells,
        out,
        allowance as usize,
    );
    ended(fired, s)
}

// The clocks of a call on rows that is not refused.
fn clocks_on_rows(
    kernel: Kernel,
    centre: u8,
    order: Order,
    n: usize,
    count: u32,
    rows: &[u32],
    above: &[u32; 513],
    iterations: &[u32; 513],
    course: RowCourse,
    caps: &[usize; 32],
    bases: &[usize; 32],
    tops: &[usize; 32],
    size: usize,
    fired: usize,
    passed: &mut [usize; 32],
    store: &mut [u32],
    cells: &[u32],
    out: &mut [u32],
    allowance: u32,
) -> Stopped
    requires { (t : Trimmed)
        × RowCall t kernel order n count size centre course rows.now above.now iterations.now caps.now bases.now
        tops.now fired passed.old store.old }
    ensures { (t : Trimmed)
        → RowCall t kernel order n count size centre course rows.now above.now iterations.now
        caps.now bases.now tops.now fired passed.old store.old
        → Ends result (call_of t n fired passed.old store.old cells.now out.old
        allowance) n passed.old passed.new store.new out.new }
{
    let s = by_rows::row_clocks(
        kernel,
        centre,
        order,
        n,
        count,
        rows,
        above,
        iterations,
        course,
        caps,
        bases,
        tops,
        size,
        fired,
        passed,
        store,
        cells,
        out,
        allowance as usize,
    );
    ended(fired, s)
}

// The state with other counters.
fn state_of(state: State, n: usize, passed: &[usize; 32], fired: u32) -> State
    requires { (n ≤ 32) × (n ≤ length passed.now) × ((k : ℕ) → k < n → number_at passed.now k < 4294967296) }
    ensures { result ≡ with_counters state (record { fired = fired; passed = take n passed.now }) }
{
    let mut to = state.passed;
    for k in 0..n {
        to[k] = CellsPassed(passed[k] as u32);
    }
    State {
        passed: to,
        fired: FiringsMade(fired),
    }
}

// The call that is not refused, its tables prepared.
fn run_ready(
    chain: Chain,
    order: Order,
    state: State,
    ready: Ready,
    at: &[usize; 32],
    wants: &[usize; 32],
    caps: &[usize; 32],
    bases: &[usize; 32],
    tops: &[usize; 32],
    spans: &[usize; 4],
    strides: &[usize; 4],
    passed: &mut [usize; 32],
    store: &mut [u32],
    cells: &[u32],
    out: &mut [u32],
    allowance: u32,
) -> Ran
    requires { (chain.grid.skewed ≡ false) × (judge_run (trimmed chain []) state store.old ≡ Ok tt)
        × Begun chain [] state ready at.now wants.now caps.now bases.now tops.now spans.now strides.now
        passed.old store.old
        × (order ≡ chain.order) }
    ensures { ran_of result store.new out.new
        ≡ run_of chain [] state store.old cells.now out.old allowance }
{
    let n = chain.window.count as usize;
    let stopped = clocks(
        chain,
        order,
        at,
        wants,
        caps,
        bases,
        tops,
        spans,
        strides,
        ready.row,
        ready.iterations,
        ready.cells,
        ready.centre,
        ready.fired,
        passed,
        store,
        cells,
        out,
        allowance,
    );
    Ran {
        answer: Ok(stopped.outcome),
        state: state_of(state, n, passed, stopped.fired.0),
    }
}

// A run call on a rectangle: the chain is looked at first, then 10, then 11; then the clocks are made. The order is taken out
// first, so that nothing else of the chain has to be kept for the clocks.
fn run_flat(
    chain: Chain,
    state: State,
    store: &mut [u32],
    cells: &[u32],
    out: &mut [u32],
    allowance: u32,
) -> Ran
    requires { chain.grid.skewed ≡ false }
    ensures { ran_of result store.new out.new
        ≡ run_of chain [] state store.old cells.now out.old allowance }
{
    let order = chain.order;
    let mut at = [0usize; 32];
    let mut wants = [0usize; 32];
    let mut caps = [0usize; 32];
    let mut bases = [0usize; 32];
    let mut tops = [0usize; 32];
    let mut spans = [0usize; 4];
    let mut strides = [0usize; 4];
    let mut passed = [0usize; 32];
    let prepared = run_prepare::prepare(
        chain,
        state,
        store,
        &mut at,
        &mut wants,
        &mut caps,
        &mut bases,
        &mut tops,
        &mut spans,
        &mut strides,
        &mut passed,
    );
    match prepared {
        Err(x) => Ran {
            answer: Err(x),
            state,
        },
        Ok(ready) => run_ready(
            chain,
            order,
            state,
            ready,
            &at,
            &wants,
            &caps,
            &bases,
            &tops,
            &spans,
            &strides,
            &mut passed,
            store,
            cells,
            out,
            allowance,
        ),
    }
}

// ---- a call on rows

// The call that is not refused, its tables prepared.
fn rows_ready(
    chain: Chain,
    rows: &[u32],
    state: State,
    found: RowSurvey,
    above: &[u32; 513],
    iterations: &[u32; 513],
    caps: &[usize; 32],
    bases: &[usize; 32],
    tops: &[usize; 32],
    passed: &mut [usize; 32],
    store: &mut [u32],
    cells: &[u32],
    out: &mut [u32],
    allowance: u32,
) -> Ran
    requires { (judge_run (trimmed chain rows.now) state store.old ≡ Ok tt)
        × RowsBegun chain rows.now state found above.now iterations.now caps.now bases.now tops.now passed.old
        store.old }
    ensures { ran_of result store.new out.new
        ≡ run_of chain rows.now state store.old cells.now out.old allowance }
{
    let n = chain.window.count as usize;
    let stopped = clocks_on_rows(
        chain.kernel,
        found.centre,
        chain.order,
        n,
        chain.grid.rows,
        rows,
        above,
        iterations,
        found.course,
        caps,
        bases,
        tops,
        found.cells as usize,
        state.fired.0 as usize,
        passed,
        store,
        cells,
        out,
        allowance,
    );
    Ran {
        answer: Ok(stopped.outcome),
        state: state_of(state, n, passed, stopped.fired.0),
    }
}

// A run call on rows, in the same order.
fn run_rows(
    chain: Chain,
    rows: &[u32],
    state: State,
    store: &mut [u32],
    cells: &[u32],
    out: &mut [u32],
    allowance: u32,
) -> Ran
    requires { chain.grid.skewed ≡ true }
    ensures { ran_of result store.new out.new
        ≡ run_of chain rows.now state store.old cells.now out.old allowance }
{
    let mut above = [0u32; 513];
    let mut iterations = [0u32; 513];
    let mut caps = [0usize; 32];
    let mut bases = [0usize; 32];
    let mut tops = [0usize; 32];
    let mut passed = [0usize; 32];
    let prepared = run_prepare::skewed::prepare_rows(
        chain,
        rows,
        state,
        store,
        &mut above,
        &mut iterations,
        &mut caps,
        &mut bases,
        &mut tops,
        &mut passed,
    );
    match prepared {
        Err(x) => Ran {
            answer: Err(x),
            state,
        },
        Ok(found) => rows_ready(
            chain,
            rows,
            state,
            found,
            &above,
            &iterations,
            &caps,
            &bases,
            &tops,
            &mut passed,
            store,
            cells,
            out,
            allowance,
        ),
    }
}

// ---- a call

// A run call; `rows` are the grid's, where it is skewed.
pub fn run(
    chain: Chain,
    rows: &[u32],
    state: State,
    store: &mut [u32],
    cells: &[u32],
    out: &mut [u32],
    allowance: u32,
) -> Ran
    ensures { ran_of result store.new out.new
        ≡ run_of chain rows.now state store.old cells.now out.old allowance }
{
    if chain.grid.skewed {
        return run_rows(chain, rows, state, store, cells, out, allowance);
    }
    run_flat(chain, state, store, cells, out, allowance)
}
