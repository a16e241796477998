// A smaller box among the iterations of a window on a grid (document 02, request 4).
ghost use Rattle.std.specs.Prelude.{◌≡◌, ℕ, ◌+◌, ◌-◌, ◌*◌, ◌≤◌, ◌<◌, MatchOption};
ghost use Rattle.model.specs.Lists.{tabulate, sum};
ghost use Rattle.model.specs.Judging.{most_cells};
ghost use Rattle.geometry.specs.Parts.{number_at, Filled};
ghost use Rattle.shape.specs.Boxing.{Outside, PlacedIn};

use model::Bounds;
use windows::lows::index_in;

// Where a box lies among the iterations: in each dimension its first index, counted from the first iteration, and how many it
// has.
#[derive(Clone, Copy)]
pub(crate) struct Placed {
    pub(crate) firsts: [u32; 4],
    pub(crate) widths: [u32; 4],
}

// How many indices there are from the first to the last, which is below the extent.
fn width(first: u32, last: u32, extent: u32) -> u32
    requires { (first ≤ last) × (last < extent) }
    ensures { result ≡ last - first + 1 }
{
    last - first + 1
}

// 15 the other way round: where the box lies, if it lies among the iterations in each dimension.
pub(crate) fn place_box(
    bounds: Bounds,
    lows: &[i16; 4],
    extents: &[u32; 4],
    dims: usize,
) -> Option<Placed>
    requires { dims ≤ 4 }
    ensures { MatchOption result (Outside bounds.lowest bounds.highest lows.now extents.now dims)
        (PlacedIn bounds.lowest bounds.highest lows.now extents.now dims) }
{
    let lowest = bounds.lowest;
    let highest = bounds.highest;
    let mut firsts = [0u32; 4];
    let mut widths = [0u32; 4];
    for d in 0..dims {
        let low = lows[d];
        let extent = extents[d];
        let first = index_in(lowest[d], low, extent);
        let last = index_in(highest[d], low, extent);
        if extent <= first {
            return None;
        }
        if extent <= last {
            return None;
        }
        if last < first {
            return None;
        }
        firsts[d] = first;
        widths[d] = width(first, last, extent);
    }
    Some(Placed { firsts, widths })
}

// How many cells the box's first iteration lies behind the first of all.
pub(crate) fn cells_behind(firsts: &[u32; 4], strides: &[u32; 4], dims: usize) -> u32
    requires { (dims ≤ 4) × (sum (tabulate dims (λ d. number_at firsts.now d * number_at strides.now d)) ≤ most_cells) }
    ensures { result ≡ sum (tabulate dims (λ d. number_at firsts.now d * number_at strides.now d)) }
{
    let mut cells: u32 = 0;
    for d in 0..dims {
        cells += firsts[d] * strides[d];
    }
    cells
}

// Positions, each so many cells further on.
pub(crate) fn further(at: &[u32; 32], cells: u32, count: usize) -> [u32; 32]
    requires { (count ≤ 32) × ((k : ℕ) → k < count → number_at at.now k + cells ≤ most_cells) }
    ensures { Filled 32 0 (λ k. number_at at.now k + cells) count result }
{
    let mut r = [0u32; 32];
    for k in 0..count {
        r[k] = at[k] + cells;
    }
    r
}
