// A smaller box among the iterations of a window on rows (document 02, request 4): in each of the two dimensions where it
// begins and how many indices it has, and 15 by the box's rows.
ghost use Rattle.std.specs.Prelude.{◌≡◌, true, false, ◌+◌, ◌-◌, ◌*◌, ◌≤◌, ◌<◌};
ghost use Rattle.model.specs.Values.{rows_of};
ghost use Rattle.windows.specs.Lows.{index_in};
ghost use Rattle.rows.specs.Boxing.{span_in, Spans, placed_in, BoxFits};

use super::common;
use model::Bounds;
use windows::lows::index_in;

// In one dimension: the first index, counted from the first iteration, and how many there are; none where not all of them lie
// among those below the extent.
#[derive(Clone, Copy)]
pub(crate) struct Span {
    pub(crate) first: u32,
    pub(crate) size: u32,
}

fn span_of(first: u32, last: u32, extent: u32) -> Span
    ensures { result ≡ span_in first last extent }
{
    if extent <= last {
        return Span { first: 0, size: 0 };
    }
    if last < first {
        return Span { first: 0, size: 0 };
    }
    Span {
        first,
        size: last - first + 1,
    }
}

pub(crate) fn span_between(lowest: i32, highest: i32, low: i16, extent: u32) -> Span
    ensures { result ≡ span_in (index_in lowest low extent) (index_in highest low extent) extent }
{
    span_of(
        index_in(lowest, low, extent),
        index_in(highest, low, extent),
        extent,
    )
}

// Whether each of the rows from `from` up to before `to` has the columns from left to right.
fn rows_hold(
    count: u32,
    rows: &[u32],
    down: &[u32; 32],
    on: &[u32; 32],
    n: usize,
    from: usize,
    to: usize,
    left: usize,
    right: usize,
) -> bool
    requires { n ≤ 32 }
    ensures { (result ≡ true
        → Spans (rows_of count rows.now) down.now on.now n from to left right)
        × (result ≡ false → Spans (rows_of count rows.now) down.now on.now n from to left right
        → ⊥) }
{
    for u in from..to {
        let c = common::columns_in(count, rows, down, on, n, u);
        if left < c.start {
            return false;
        }
        if c.end <= right {
            return false;
        }
    }
    true
}

// A box: its first row and how many it has, its first column and how many it has; none where they do not all lie among the
// indices of iterations.
#[derive(Clone, Copy)]
pub(crate) struct Placed {
    pub(crate) top: u32,
    pub(crate) height: u32,
    pub(crate) left: u32,
    pub(crate) width: u32,
}

// No iteration has as many as 8,192 columns before it.
pub(crate) fn placed_at(count: u32, bounds: Bounds, low0: i16, low1: i16) -> Placed
    ensures { result ≡ placed_in count bounds.lowest bounds.highest low0 low1 }
{
    let lowest = bounds.lowest;
    let highest = bounds.highest;
    let tall = span_between(lowest[0], highest[0], low0, count);
    let broad = span_between(lowest[1], highest[1], low1, 8192);
    Placed {
        top: tall.first,
        height: tall.size,
        left: broad.first,
        width: broad.size,
    }
}

// 15 the other way round: each of the box's rows lies in the row of all iterations.
pub(crate) fn fits(
    count: u32,
    rows: &[u32],
    down: &[u32; 32],
    on: &[u32; 32],
    n: usize,
    at: Placed,
) -> bool
    requires { n ≤ 32 }
    ensures { (result ≡ true → BoxFits (rows_of count rows.now) down.now on.now n at)
        × (result ≡ false → BoxFits (rows_of count rows.now) down.now on.now n at → ⊥) }
{
    let height = at.height;
    let width = at.width;
    if height == 0 {
        return false;
    }
    if width == 0 {
        return false;
    }
    let top = at.top as usize;
    let bottom = top + height as usize;
    let left = at.left as usize;
    let right = left + width as usize - 1;
    rows_hold(count, rows, down, on, n, top, bottom, left, right)
}

// How many iterations a box has.
pub(crate) fn iterations(height: u32, width: u32) -> u32
    requires { (height ≤ 512) × (width ≤ 8192) }
    ensures { result ≡ height * width }
{
    height * width
}
