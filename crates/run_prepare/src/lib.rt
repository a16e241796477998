// What a run call prepares before its clocks: the chain's numbers in arrays, and numbers 10 and 11 (document 01, "Running"
// and "Turned back on account of the state"). On rows: skewed.rt.

#![tactic(auto)]

pub mod skewed;

ghost use Rattle.std.specs.Prelude.{false, List, [], ◌≡◌, ℕ, suc, ◌+◌, ◌-◌, ◌≤◌, ◌<◌, ltb, length, take, Ok};
ghost use Rattle.std.proofs.Math.Seq.{slice};
ghost use Rattle.model.specs.Lists.{product};
ghost use Rattle.model_run.specs.Clock.{Layout};
ghost use Rattle.model_run.specs.Store.{first_place};
ghost use Rattle.model.specs.Values.{Trimmed};
ghost use Rattle.model.specs.Judging.{judge_chain};
ghost use Rattle.model_run.specs.Running.{layout, bad_counter, bad_fifo, bad_state};
ghost use Rattle.geometry.specs.Parts.{part, Small};
ghost use Rattle.windows.specs.Windows.{centre_in};
ghost use Rattle.shape.specs.Shapes.{chain_shape};
ghost use Rattle.run_prepare.specs.Prepared.{number_at, blank, Filled, Widened, walk_by, Walks, Shaped, Capped};
ghost use Rattle.run_prepare.specs.Prepared.{counter_at, Laid, TakenUp};
ghost use Rattle.run_prepare.specs.Ready.{flattened, Capable, Stored, Readied};

use model::{Chain, Refusal, State};
use shape::Shape;

// N numbers of 32 bits as wider ones, and 0 in the rest of the M entries.
fn widen<const N: usize, const M: usize>(from: &[u32; N]) -> [usize; M]
    requires { N ≤ M }
    ensures { Widened M from.now N result }
{
    let mut to = [0usize; M];
    for k in 0..N {
        to[k] = from[k] as usize;
    }
    to
}

// How many cells iteration j lies behind the first.
fn walk(dims: usize, extents: &[usize; 4], strides: &[usize; 4], j: usize) -> usize
    requires { Walks dims extents.now strides.now j }
    ensures { result ≡ walk_by (number_at extents.now) (number_at strides.now) dims j }
{
    let mut cells: usize = 0;
    let mut rest = j;
    for d in (0..dims).rev() {
        let extent = extents[d];
        cells += rest % extent * strides[d];
        rest /= extent;
    }
    cells
}

// How many iterations one index is, in each dimension: the product of the extents behind it.
fn spans_of(dims: usize, extents: &[usize; 4], spans: &mut [usize; 4])
    requires { (dims ≤ 4) × Small extents.now dims }
    ensures { (d : ℕ) → d < dims
        → number_at spans.new d ≡ product (part (number_at extents.now) (d + 1) dims) }
{
    *spans = [0usize; 4];
    let mut behind: usize = 1;
    for d in (0..dims).rev() {
        spans[d] = behind;
        behind *= extents[d];
    }
}

// The first n entries of `from`, x added to each.
fn add_to_each(n: usize, from: &[usize; 32], x: usize, to: &mut [usize; 32])
    requires { (n ≤ 32) × (length to.old ≡ 32) × ((k : ℕ) → k < n → number_at from.now k + x < 18446744073709551616) }
    ensures { Filled to.old (λ k. number_at from.now k + x) n to.new }
{
    for k in 0..n {
        to[k] = from[k] + x;
    }
}

// The cells that the filters want in iteration j; past the last iteration, the cell count.
fn wants_of(
    n: usize,
    dims: usize,
    cells: usize,
    iterations: usize,
    extents: &[usize; 4],
    strides: &[usize; 4],
    at: &[usize; 32],
    j: usize,
    to: &mut [usize; 32],
)
    requires { (length to.old ≡ 32)
        × ((t : Trimmed) × Shaped t dims n cells iterations extents.now strides.now at.now) }
    ensures { (t : Trimmed)
        → Shaped t dims n cells iterations extents.now strides.now at.now
        → Filled to.old (λ k. (layout t).wants j k) n to.new }
{
    if j < iterations {
        let way = walk(dims, extents, strides, j);
        add_to_each(n, at, way, to);
    } else {
        to[..n].fill(cells);
    }
}

// Where each FIFO's places begin and end in the store, and how many places there are.
fn bases_of(n: usize, caps: &[usize; 32], bases: &mut [usize; 32], tops: &mut [usize; 32]) -> usize
    requires { (n ≤ 32) × ((k : ℕ) → number_at caps.now k < 4294967296) }
    ensures { (result ≡ first_place (number_at caps.now) (n - 1))
        × Filled blank (first_place (number_at caps.now)) (n - 1) bases.new
        × Filled blank (λ k. first_place (number_at caps.now) k + number_at caps.now k) (n - 1)
        tops.new }
{
    *bases = [0usize; 32];
    *tops = [0usize; 32];
    let mut places: usize = 0;
    for k in 0..n.saturating_sub(1) {
        bases[k] = places;
        places += caps[k];
        tops[k] = places;
    }
    places
}

// 10: the store has fewer words than there are places.
fn short(places: usize, store: &[u32]) -> bool
    ensures { result ≡ ltb (length store.now) places }
{
    store.len() < places
}

// The input counters of a state.
fn passed_of(state: State, n: usize, to: &mut [usize; 32])
    requires { (n ≤ 32) × (length to.old ≡ 32) }
    ensures { Filled to.old (counter_at state.passed) n to.new
        × ((k : ℕ) → k < n → number_at to.new k < 4294967296) }
{
    for k in 0..n {
        to[k] = state.passed[k].0 as usize;
    }
}

// 11, of an input counter: past its next wanted cell, not past its last fired one, or above the cell count.
fn bad_counter(cells: usize, fired: usize, wanted: usize, last: usize, passed: usize) -> bool
    ensures { (L : Layout) (k : ℕ) → L.cells ≡ cells → L.wants fired k ≡ wanted
        → ((f : ℕ) → fired ≡ suc f → L.wants f k ≡ last) → result ≡ bad_counter L fired k passed }
{
    if wanted < passed {
        return true;
    }
    if 0 < fired && passed <= last {
        return true;
    }
    cells < passed
}

// 11, of the FIFO behind filter k: its counter below the next filter's, or the FIFO over its capacity.
fn bad_fifo(n: usize, k: usize, caps: &[usize; 32], passed: &[usize; 32]) -> bool
    requires { (k < n) × (n ≤ 32) × (n ≤ length passed.now) × ((i : ℕ) → number_at caps.now i < 4294967296)
        × ((i : ℕ) → i < n → number_at passed.now i < 4294967296) }
    ensures { (L : Layout) → (suc k < n → L.capacity k ≡ number_at caps.now k)
        → result ≡ bad_fifo L k (number_at passed.now k) (slice (suc k) n passed.now) }
{
    if n <= k + 1 {
        return false;
    }
    let here = passed[k];
    let next = passed[k + 1];
    here < next || next + caps[k] < here
}

// 11, by the cells wanted next and those that were fired last.
fn bad_state(
    n: usize,
    cells: usize,
    iterations: usize,
    fired: usize,
    caps: &[usize; 32],
    wants: &[usize; 32],
    last: &[usize; 32],
    passed: &[usize; 32],
) -> bool
    requires { (n ≤ 32) × (n ≤ length passed.now) × ((i : ℕ) → number_at caps.now i < 4294967296)
        × ((i : ℕ) → i < n → number_at passed.now i < 4294967296) }
    ensures { (L : Layout) → Laid L n cells iterations fired caps.now wants.now last.now
        → result ≡ bad_state L (record { fired = fired; passed = take n passed.now }) }
{
    if iterations < fired {
        return true;
    }
    for k in 0..n {
        if bad_counter(cells, fired, wants[k], last[k], passed[k]) {
            return true;
        }
        if bad_fifo(n, k, caps, passed) {
            return true;
        }
    }
    false
}

// Takes up a state: its input counters, the cells that its filters want next, and whether 11 turns it back.
fn take_up(
    state: State,
    n: usize,
    dims: usize,
    cells: usize,
    iterations: usize,
    extents: &[usize; 4],
    strides: &[usize; 4],
    at: &[usize; 32],
    caps: &[usize; 32],
    passed: &mut [usize; 32],
    wants: &mut [usize; 32],
) -> bool
    requires { ((k : ℕ) → number_at caps.now k < 4294967296)
        × ((t : Trimmed) × Shaped t dims n cells iterations extents.now strides.now at.now) }
    ensures { (t : Trimmed)
        → Shaped t dims n cells iterations extents.now strides.now at.now
        → Capped t n caps.now
        → TakenUp t state n result passed.new wants.new }
{
    *passed = [0usize; 32];
    *wants = [0usize; 32];
    let fired = state.fired.0 as usize;
    passed_of(state, n, passed);
    wants_of(
        n, dims, cells, iterations, extents, strides, at, fired, wants,
    );
    let mut last = [0usize; 32];
    wants_of(
        n,
        dims,
        cells,
        iterations,
        extents,
        strides,
        at,
        fired.saturating_sub(1),
        &mut last,
    );
    bad_state(n, cells, iterations, fired, caps, wants, &last, passed)
}

// ---- the whole

// The numbers that the clocks of a call go by.
#[derive(Clone, Copy)]
pub struct Ready {
    pub row: usize,
    pub iterations: usize,
    pub cells: usize,
    pub centre: u8,
    pub fired: usize,
}

// The state and the shape of an accepted chain on a rectangle whose capacities are in an array: 11, or the tables.
fn with_store(
    chain: Chain,
    shape: Shape,
    centre: u8,
    state: State,
    caps: &[usize; 32],
    at: &mut [usize; 32],
    wants: &mut [usize; 32],
    spans: &mut [usize; 4],
    strides: &mut [usize; 4],
    passed: &mut [usize; 32],
) -> Result<Ready, Refusal>
    requires shape_value { (shape ≡ chain_shape (flattened chain)) × (centre ≡ centre_in chain.grid.dims chain.window) }
    requires capable { Capable (flattened chain) [] caps.now }
    ensures { (bases tops store : List ℕ) → Stored (flattened chain) [] caps.now bases tops store
        → Readied (flattened chain) [] state result at.new wants.new caps.now bases tops
        spans.new strides.new passed.new store }
{
    let n = chain.window.count as usize;
    let dims = chain.grid.dims as usize;
    let extents: [usize; 4] = widen(&shape.extents);
    *strides = widen(&shape.strides);
    *at = widen(&shape.at);
    let cells = shape.cells as usize;
    let iterations = shape.iterations as usize;
    if take_up(
        state, n, dims, cells, iterations, &extents, strides, at, caps, passed, wants,
    ) {
        return Err(Refusal::BadState);
    }
    spans_of(dims, &extents, spans);
    Ok(Ready {
        row: extents[dims - 1],
        iterations,
        cells,
        centre,
        fired: state.fired.0 as usize,
    })
}

// A chain on a rectangle that no number from 3 to 9, 14 and 15 turns back: 10, 11, or the tables.
fn with_chain(
    chain: Chain,
    shape: Shape,
    centre: u8,
    state: State,
    store: &[u32],
    at: &mut [usize; 32],
    wants: &mut [usize; 32],
    caps: &mut [usize; 32],
    bases: &mut [usize; 32],
    tops: &mut [usize; 32],
    spans: &mut [usize; 4],
    strides: &mut [usize; 4],
    passed: &mut [usize; 32],
) -> Result<Ready, Refusal>
    requires chain_value { judge_chain (flattened chain) [] ≡ Ok tt }
    requires shape_value { (shape ≡ chain_shape (flattened chain)) × (centre ≡ centre_in chain.grid.dims chain.window) }
    ensures { Readied (flattened chain) [] state result at.new wants.new caps.new
        bases.new tops.new spans.new strides.new passed.new
        store.now }
{
    let n = chain.window.count as usize;
    *caps = widen(&chain.capacities);
    let places = bases_of(n, caps, bases, tops);
    if short(places, store) {
        return Err(Refusal::ShortStore);
    }
    with_store(
        chain, shape, centre, state, caps, at, wants, spans, strides, passed,
    )
}

// What a run call finds before its clocks, the chain's grid taken for a rectangle: the chain is looked at first, then 10,
// then 11; then the tables are those of the call. After a refusal the tables hold anything.
pub fn prepare(
    chain: Chain,
    state: State,
    store: &[u32],
    at: &mut [usize; 32],
    wants: &mut [usize; 32],
    caps: &mut [usize; 32],
    bases: &mut [usize; 32],
    tops: &mut [usize; 32],
    spans: &mut [usize; 4],
    strides: &mut [usize; 4],
    passed: &mut [usize; 32],
) -> Result<Ready, Refusal>
    ensures { Readied (flattened chain) [] state result at.new wants.new caps.new
        bases.new tops.new spans.new strides.new passed.new
        store.now }
{
    let found = judging::examine(chain)?;
    found.verdict?;
    with_chain(
        chain,
        found.survey.shape,
        found.survey.centre,
        state,
        store,
        at,
        wants,
        caps,
        bases,
        tops,
        spans,
        strides,
        passed,
    )
}
