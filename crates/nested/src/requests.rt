// The requests for the cases, as values.
ghost use Rattle.std.specs.Prelude.{◌≡◌};
ghost use Rattle.nested.specs.Nested.{size_of, grid_of, entry_of, placed, listed as listed_in, index_of, last_before};
ghost use Rattle.nested.specs.Nested.{along_dims, lowest_of, highest_of, bounds_of, request_of, on_rows};

use crate::windows::Loops;
use model::{Bounds, Grid, Kernel, Request, Window};

fn size(x: usize) -> u32
    ensures { result ≡ size_of x }
{
    (x % 4294967296) as u32
}

#[tactic(auto, unfolding(crate::specs::Nested::grid_of))]
fn grid(l: Loops) -> Grid
    ensures { result ≡ grid_of l }
{
    if l.dims == 2 {
        return Grid {
            skewed: false,
            rows: 0,
            dims: 2,
            sizes: [size(l.rows), size(l.columns), 0, 0],
        };
    }
    Grid {
        skewed: false,
        rows: 0,
        dims: 3,
        sizes: [size(l.planes), size(l.rows), size(l.columns), 0],
    }
}

#[tactic(auto, unfolding(crate::specs::Nested::entry_of))]
fn entry(c: u8) -> i16
    ensures { result ≡ entry_of c }
{
    match c {
        b'+' => 1,
        b'-' => -1,
        _ => 0,
    }
}

// The entries of reference k.
#[tactic(auto, unfolding(crate::specs::Nested::placed))]
fn place(dims: u8, k: usize, z: u8, y: u8, x: u8, entries: &mut [i16; 128])
    ensures { entries.new ≡ placed dims k z y x entries.old }
{
    if 32 <= k {
        return;
    }
    if dims == 2 {
        entries[4 * k] = entry(y);
        entries[4 * k + 1] = entry(x);
        return;
    }
    entries[4 * k] = entry(z);
    entries[4 * k + 1] = entry(y);
    entries[4 * k + 2] = entry(x);
}

// The references in the order in which they are written.
fn listed(dims: u8, window: &[u8]) -> Window
    ensures { result ≡ listed_in dims window.now }
{
    let mut entries = [0i16; 128];
    let count = crate::windows::references(window);
    for k in 0..count {
        let at = 4 * k;
        if at + 2 < window.len() {
            place(
                dims,
                k,
                window[at],
                window[at + 1],
                window[at + 2],
                &mut entries,
            );
        }
    }
    Window {
        count: (count % 256) as u8,
        offsets: entries,
    }
}

fn index(x: usize) -> i32
    ensures { result ≡ index_of x }
{
    (x % 2147483648) as i32
}

// The last index before the end of a loop.
#[tactic(auto, unfolding(crate::specs::Nested::last_before))]
fn last_before(end: usize) -> i32
    ensures { result ≡ last_before end }
{
    if end == 0 {
        return -1;
    }
    index(end - 1)
}

// An index for each dimension of the grid.
#[tactic(auto, unfolding(crate::specs::Nested::along_dims))]
fn along_dims(dims: u8, z: i32, y: i32, x: i32) -> [i32; 4]
    ensures { result ≡ along_dims dims z y x }
{
    if dims == 2 {
        return [y, x, 0, 0];
    }
    [z, y, x, 0]
}

#[tactic(auto, unfolding(crate::specs::Nested::lowest_of))]
fn lowest(l: Loops) -> [i32; 4]
    ensures { result ≡ lowest_of l }
{
    along_dims(l.dims, index(l.z_first), index(l.y_first), index(l.x_first))
}

#[tactic(auto, unfolding(crate::specs::Nested::highest_of))]
fn highest(l: Loops) -> [i32; 4]
    ensures { result ≡ highest_of l }
{
    along_dims(
        l.dims,
        last_before(l.z_end),
        last_before(l.y_end),
        last_before(l.x_end),
    )
}

// The box that the loops go over; none where they go over all iterations.
#[tactic(auto, unfolding(crate::specs::Nested::bounds_of, crate::specs::Nested::lowest_of, crate::specs::Nested::highest_of))]
fn bounds(l: Loops) -> Bounds
    ensures { result ≡ bounds_of l }
{
    if l.boxed {
        return Bounds {
            stood: true,
            lowest: lowest(l),
            highest: highest(l),
        };
    }
    Bounds {
        stood: false,
        lowest: [0i32; 4],
        highest: [0i32; 4],
    }
}

#[tactic(auto, unfolding(crate::specs::Nested::request_of))]
pub fn request(l: Loops, window: &[u8], kernel: Kernel) -> Request
    ensures { result ≡ request_of l window.now kernel }
{
    Request {
        grid: grid(l),
        window: listed(l.dims, window),
        bounds: bounds(l),
        kernel,
    }
}

// The same on a skewed grid of so many rows, which are lent beside it.
pub fn on_rows(r: Request, rows: u32) -> Request
    ensures { result ≡ on_rows r rows }
{
    let grid = Grid {
        skewed: true,
        rows,
        dims: 2,
        sizes: [0u32; 4],
    };
    Request { grid, ..r }
}
