// What a run call on rows prepares before its clocks (document 02, request 5): the chain's numbers in arrays, and numbers 10
// and 11.
ghost use Rattle.std.specs.Prelude.{List, ◌≡◌, ℕ, ◌<◌, length, Ok};
ghost use Rattle.model.specs.Values.{Trimmed};
ghost use Rattle.model.specs.Iterations.{iterations_of, reads_of};
ghost use Rattle.model.specs.Judging.{judge_chain};
ghost use Rattle.model_run.specs.Running.{layout};
ghost use Rattle.run_prepare.specs.Prepared.{number_at, Filled, Counted, Capped, TakenUp};
ghost use Rattle.run_prepare.specs.Ready.{Capable, Stored};
ghost use Rattle.run_prepare.specs.RowsReady.{in_rows, RowReads, RowsFound, RowsReadied};

use super::{add_to_each, bad_state, bases_of, passed_of, short, widen};
use model::{Chain, Refusal, State};
use rows::{RowCourse, RowSurvey};

// The cells that n references read in iteration j.
fn reads_at(
    n: usize,
    count: u32,
    rows: &[u32],
    course: RowCourse,
    above: &[u32; 513],
    iterations: &[u32; 513],
    j: u32,
    to: &mut [usize; 32],
)
    requires { (length to.old ≡ 32)
        × ((t : Trimmed) × RowReads t count rows.now course n above.now iterations.now × (j < iterations_of t)) }
    ensures { (t : Trimmed)
        → RowReads t count rows.now course n above.now iterations.now → j < iterations_of t
        → Filled to.old (reads_of t j) n to.new }
{
    let v = row_courses::row_of(iterations, course.height, j);
    let mut at = [0usize; 32];
    row_courses::reads(count, rows, above, course, v, &mut at);
    let before = iterations[v as usize];
    add_to_each(n, &at, (j - before) as usize, to);
}

// The cells that the filters want in iteration j; past the last of all that are covered, the cell count.
fn wants_in(
    n: usize,
    cells: usize,
    covered: usize,
    count: u32,
    rows: &[u32],
    course: RowCourse,
    above: &[u32; 513],
    iterations: &[u32; 513],
    j: usize,
    to: &mut [usize; 32],
)
    requires { (length to.old ≡ 32)
        × ((t : Trimmed) × Counted t n cells covered × RowReads t count rows.now course n above.now iterations.now) }
    ensures { (t : Trimmed) → Counted t n cells covered
        → RowReads t count rows.now course n above.now iterations.now
        → Filled to.old (λ k. (layout t).wants j k) n to.new }
{
    if j < covered {
        reads_at(n, count, rows, course, above, iterations, j as u32, to);
    } else {
        to[..n].fill(cells);
    }
}

// Takes up a state: its input counters, and whether 11 turns it back.
fn take_up_rows(
    state: State,
    n: usize,
    cells: usize,
    covered: usize,
    count: u32,
    rows: &[u32],
    course: RowCourse,
    above: &[u32; 513],
    iterations: &[u32; 513],
    caps: &[usize; 32],
    passed: &mut [usize; 32],
) -> bool
    requires { ((k : ℕ) → number_at caps.now k < 4294967296)
        × ((t : Trimmed) × Counted t n cells covered × RowReads t count rows.now course n above.now iterations.now) }
    ensures { (t : Trimmed) → Counted t n cells covered
        → RowReads t count rows.now course n above.now iterations.now
        → Capped t n caps.now
        → ((wants : List ℕ) × TakenUp t state n result passed.new wants) }
{
    *passed = [0usize; 32];
    let mut wants = [0usize; 32];
    let mut last = [0usize; 32];
    let fired = state.fired.0 as usize;
    passed_of(state, n, passed);
    wants_in(
        n, cells, covered, count, rows, course, above, iterations, fired, &mut wants,
    );
    wants_in(
        n,
        cells,
        covered,
        count,
        rows,
        course,
        above,
        iterations,
        fired.saturating_sub(1),
        &mut last,
    );
    bad_state(n, cells, covered, fired, caps, &wants, &last, passed)
}

// An accepted chain whose capacities are in an array, and what was found of it: 11, or the tables.
fn with_store(
    chain: Chain,
    rows: &[u32],
    found: RowSurvey,
    state: State,
    caps: &[usize; 32],
    above: &mut [u32; 513],
    iterations: &mut [u32; 513],
    passed: &mut [usize; 32],
) -> Result<RowSurvey, Refusal>
    requires { RowsFound (in_rows chain) rows.now found × Capable (in_rows chain) rows.now caps.now }
    ensures { (bases tops store : List ℕ) → Stored (in_rows chain) rows.now caps.now bases tops store
        → RowsReadied (in_rows chain) rows.now state result above.new iterations.new
        caps.now bases tops passed.new store }
{
    let n = chain.window.count as usize;
    let count = chain.grid.rows;
    let course = found.course;
    row_courses::cells_above(count, rows, above);
    row_courses::iterations_above(count, rows, course, iterations);
    let cells = found.cells as usize;
    let covered = found.iterations as usize;
    if take_up_rows(
        state, n, cells, covered, count, rows, course, above, iterations, caps, passed,
    ) {
        return Err(Refusal::BadState);
    }
    Ok(found)
}

// An accepted chain, and what was found of it: 10, 11, or the tables.
fn with_chain(
    chain: Chain,
    rows: &[u32],
    found: RowSurvey,
    state: State,
    store: &[u32],
    above: &mut [u32; 513],
    iterations: &mut [u32; 513],
    caps: &mut [usize; 32],
    bases: &mut [usize; 32],
    tops: &mut [usize; 32],
    passed: &mut [usize; 32],
) -> Result<RowSurvey, Refusal>
    requires { (judge_chain (in_rows chain) rows.now ≡ Ok tt) × RowsFound (in_rows chain) rows.now found }
    ensures { RowsReadied (in_rows chain) rows.now state result above.new iterations.new
        caps.new bases.new tops.new passed.new store.now }
{
    let n = chain.window.count as usize;
    *caps = widen(&chain.capacities);
    let places = bases_of(n, caps, bases, tops);
    if short(places, store) {
        return Err(Refusal::ShortStore);
    }
    with_store(chain, rows, found, state, caps, above, iterations, passed)
}

// What a run call finds before its clocks, the chain's grid taken for rows: the chain is looked at first, then 10, then 11;
// then the tables are those of the call. After a refusal the tables hold anything.
pub fn prepare_rows(
    chain: Chain,
    rows: &[u32],
    state: State,
    store: &[u32],
    above: &mut [u32; 513],
    iterations: &mut [u32; 513],
    caps: &mut [usize; 32],
    bases: &mut [usize; 32],
    tops: &mut [usize; 32],
    passed: &mut [usize; 32],
) -> Result<RowSurvey, Refusal>
    ensures { RowsReadied (in_rows chain) rows.now state result above.new iterations.new
        caps.new bases.new tops.new passed.new store.now }
{
    let found = judging::examine_rows(chain, rows)?;
    found.verdict?;
    with_chain(
        chain,
        rows,
        found.survey,
        state,
        store,
        above,
        iterations,
        caps,
        bases,
        tops,
        passed,
    )
}
