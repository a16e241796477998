// Judging a chain with two windows and their kernels (document 02, request 6): the verdict on the raw chain, that on the
// windows and kernels, and which of them comes first in the order of the checks.

#![tactic(auto)]

ghost use Rattle.std.specs.Prelude.{◌||◌, [], ◌∷◌, ◌≡◌, length};
ghost use Rattle.model.specs.Lists.{any};
ghost use Rattle.model.specs.Values.{trimmed, dims_of};
ghost use Rattle.model.specs.Answers.{first_of};
ghost use Rattle.model.specs.Judging.{bad_count, lacks_centre, bad_factor};
ghost use Rattle.model.specs.Pairs.{own_of, raw_chain, pair_checks};
ghost use Rattle.windows.specs.Windows.{repeats_in, has_centre};
ghost use Rattle.pair_windows.specs.Unions.{union_in};
ghost use Rattle.pair_judging.specs.Verdicts.{place_in, place_of, earlier_of, side_checks};

use limits::bad_count;
use model::{Chain, Kernel, Order, Refusal, Side, Window};

// Where a number stands in the order of a value's checks; behind all where it is none of these.
fn place(x: Refusal) -> u8
    ensures { result ≡ place_in x }
{
    match x {
        Refusal::Malformed => 9,
        Refusal::Misplaced => 9,
        Refusal::BadGrid => 0,
        Refusal::BadCount => 1,
        Refusal::EqualOffsets => 2,
        Refusal::NoIteration => 3,
        Refusal::NoCentre => 5,
        Refusal::BadFactor => 6,
        Refusal::TooLarge => 7,
        Refusal::ShortStore => 9,
        Refusal::BadState => 9,
        Refusal::ShortOutput => 9,
        Refusal::BadName => 9,
        Refusal::BadOrder => 8,
        Refusal::BadBox => 4,
        Refusal::BadRows => 0,
    }
}

// Where judging stopped; behind all where it let pass.
fn place_of(v: Result<(), Refusal>) -> u8
    ensures { result ≡ place_of v }
{
    match v {
        Ok(()) => 9,
        Err(x) => place(x),
    }
}

// The verdict that comes first in the order of the checks.
pub fn earlier(v: Result<(), Refusal>, w: Result<(), Refusal>) -> Result<(), Refusal>
    ensures { result ≡ earlier_of v w }
{
    if place_of(w) < place_of(v) { w } else { v }
}

// 4 of a chain's count, of each window and of the union.
#[tactic(auto, unfolding(model::specs::Lists::any))]
fn bad_counts(dims: u8, count: u8, first: Window, second: Window) -> bool
    ensures { result
        ≡ any bad_count (count ∷ first.count ∷ second.count ∷ length (union_in dims first second) ∷ []) }
{
    bad_count(count)
        || bad_count(first.count)
        || bad_count(second.count)
        || bad_count(pair_windows::union_count(dims, first, second))
}

// 5 of each window.
#[tactic(auto, unfolding(model::specs::Lists::any))]
fn repeat(dims: u8, first: Window, second: Window) -> bool
    ensures { result ≡ any (repeats_in dims) (first ∷ second ∷ []) }
{
    windows::repeats(dims, first) || windows::repeats(dims, second)
}

// 7 of a window.
#[tactic(auto, unfolding(model::specs::Judging::lacks_centre))]
fn lacks_centre(dims: u8, side: Side) -> bool
    ensures { result ≡ lacks_centre side.kernel (has_centre dims side.window) }
{
    kernel_checks::needs_centre(side.kernel) && !windows::has_centre(dims, side.window)
}

// 7 of each window.
fn lack_centre(dims: u8, first: Side, second: Side) -> bool
    ensures { result
        ≡ lacks_centre first.kernel (has_centre dims first.window)
        || lacks_centre second.kernel (has_centre dims second.window) }
{
    lacks_centre(dims, first) || lacks_centre(dims, second)
}

// 8 of each kernel.
fn bad_factors(first: Kernel, second: Kernel) -> bool
    ensures { result ≡ bad_factor first || bad_factor second }
{
    kernel_checks::bad_factor(first) || kernel_checks::bad_factor(second)
}

// The first of 4, 5, 7, 8 and 14 that turns two windows and their kernels back, on a chain with this window.
#[tactic(auto, unfolding(crate::specs::Verdicts::side_checks, model::specs::Answers::first_of))]
pub fn judge_sides(dims: u8, chain: Window, first: Side, second: Side) -> Result<(), Refusal>
    ensures { result ≡ first_of (side_checks dims chain first second) }
{
    let one = first.window;
    let two = second.window;
    if bad_counts(dims, chain.count, one, two) {
        return Err(Refusal::BadCount);
    }
    if repeat(dims, one, two) {
        return Err(Refusal::EqualOffsets);
    }
    if lack_centre(dims, first, second) {
        return Err(Refusal::NoCentre);
    }
    if bad_factors(first.kernel, second.kernel) {
        return Err(Refusal::BadFactor);
    }
    if pair_windows::not_union(dims, chain, one, two) {
        return Err(Refusal::BadOrder);
    }
    Ok(())
}

// The chain without its own kernel and order: raw.
pub fn raw_of(chain: Chain) -> Chain
    ensures { result ≡ raw_chain chain }
{
    let order = Order {
        stood: false,
        filters: [0u8; 32],
    };
    values::set_kernel(values::set_order(chain, order), Kernel::Raw)
}

// The first number that turns a chain with two windows and their kernels back.
pub fn judge_pair(chain: Chain, rows: &[u32], first: Side, second: Side) -> Result<(), Refusal>
    ensures { result
        ≡ first_of
        (pair_checks (trimmed chain rows.now) (own_of (dims_of chain.grid) first)
        (own_of (dims_of chain.grid) second)) }
{
    let found = judging::judge_chain(raw_of(chain), rows);
    let added = judge_sides(values::dims_of(chain.grid), chain.window, first, second);
    earlier(found, added)
}
