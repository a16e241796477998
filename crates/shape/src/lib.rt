// A window on a grid as numbers (document 01, "Grid, window, distances"): extents, strides, positions. What a public function
// answers on any value is fixed in specs/Shapes.antt.

#![tactic(auto)]

mod boxed;

ghost use Rattle.std.specs.Prelude.{◌≡◌, true, false, ℕ, ◌+◌, ◌-◌, ◌≤◌, ◌<◌};
ghost use Rattle.model.specs.Lists.{product as product_of};
ghost use Rattle.model.specs.Geometry.{extent};
ghost use Rattle.model.specs.Values.{sizes_of};
ghost use Rattle.model.specs.Judging.{most_cells, bad_grid, bad_count};
ghost use Rattle.geometry.specs.Parts.{part, number_at, entries_in, Filled, Lows, place_by, Small, Falls};
ghost use Rattle.windows.specs.Windows.{repeats_in};
ghost use Rattle.shape.specs.Shapes.{blank_shape, shape_of, survey_of, Whole};

use model::{Bounds, Grid, Refusal, Window};
use windows::lows::{height, lows_of, span_in};

// A window on a grid as numbers. All are 0 where 3, 4 or 6 turns the two back.
#[derive(Clone, Copy)]
pub struct Shape {
    pub cells: u32,
    pub iterations: u32,
    // In each dimension: how many indices the iterations have, and how many cells lie between two neighbours.
    pub extents: [u32; 4],
    pub strides: [u32; 4],
    // The position that each reference reads in the first iteration.
    pub at: [u32; 32],
}

// How many indices the iterations have in each dimension.
fn extents_of(
    sizes: &[u32; 4],
    offsets: &[i16; 128],
    lows: &[i16; 4],
    count: usize,
    dims: usize,
) -> [u32; 4]
    requires { (count ≤ 32) × (dims ≤ 4) × Lows dims count offsets.now lows.now }
    ensures { Filled 4 0 (λ d. extent (number_at sizes.now d) (entries_in count offsets.now d))
        dims result }
{
    let mut extents = [0u32; 4];
    for d in 0..dims {
        let low = lows[d];
        let span = span_in(offsets, count, d, low);
        extents[d] = sizes[d].saturating_sub(span);
    }
    extents
}

// The product of the numbers at the places from `from` up to before `to`.
fn product(xs: &[u32; 4], from: usize, to: usize) -> u32
    requires { (from ≤ to) × (to ≤ 4) × Small xs.now to }
    ensures { result ≡ product_of (part (number_at xs.now) from to) }
{
    let mut p: u32 = 1;
    for d in (from..to).rev() {
        p *= xs[d];
    }
    p
}

// How many cells lie between two neighbours in each dimension: the product of the sizes behind it.
fn strides_of(sizes: &[u32; 4], dims: usize) -> [u32; 4]
    requires { (dims ≤ 4) × Small sizes.now dims }
    ensures { Filled 4 0 (λ d. product_of (part (number_at sizes.now) (d + 1) dims)) dims result }
{
    let mut strides = [0u32; 4];
    for d in 0..dims {
        strides[d] = product(sizes, d + 1, dims);
    }
    strides
}

// The position that reference k reads in the first iteration.
fn place_of(offsets: &[i16; 128], lows: &[i16; 4], strides: &[u32; 4], k: usize, dims: usize) -> u32
    requires { (k < 32) × (dims ≤ 4) × (place_by dims lows.now strides.now offsets.now k ≤ most_cells) }
    ensures { result ≡ place_by dims lows.now strides.now offsets.now k }
{
    let mut at: u32 = 0;
    for d in 0..dims {
        let x = offsets[4 * k + d];
        let low = lows[d];
        at += height(x, low) * strides[d];
    }
    at
}

// The positions that the references read in the first iteration.
fn places_of(
    offsets: &[i16; 128],
    lows: &[i16; 4],
    strides: &[u32; 4],
    count: usize,
    dims: usize,
) -> [u32; 32]
    requires { (count ≤ 32) × (dims ≤ 4)
        × ((k : ℕ) → k < count → place_by dims lows.now strides.now offsets.now k ≤ most_cells) }
    ensures { Filled 32 0 (place_by dims lows.now strides.now offsets.now) count result }
{
    let mut at = [0u32; 32];
    for k in 0..count {
        at[k] = place_of(offsets, lows, strides, k, dims);
    }
    at
}

fn blank() -> Shape
    ensures { result ≡ blank_shape }
{
    Shape {
        cells: 0,
        iterations: 0,
        extents: [0u32; 4],
        strides: [0u32; 4],
        at: [0u32; 32],
    }
}

// The shape of a window that neither 3 nor 4 turns back.
fn shape_in(grid: Grid, count: u8, offsets: &[i16; 128]) -> Shape
    requires { (bad_grid grid.dims (sizes_of grid) ≡ false) × (bad_count count ≡ false) }
    ensures { result ≡ shape_of grid (record { count = count; offsets = offsets.now }) }
{
    let dims = grid.dims as usize;
    let n = count as usize;
    let sizes = grid.sizes;
    let lows = lows_of(offsets, n, dims);
    let extents = extents_of(&sizes, offsets, &lows, n, dims);
    let iterations = product(&extents, 0, dims);
    if iterations == 0 {
        return blank();
    }
    let cells = product(&sizes, 0, dims);
    let strides = strides_of(&sizes, dims);
    let at = places_of(offsets, &lows, &strides, n, dims);
    Shape {
        cells,
        iterations,
        extents,
        strides,
        at,
    }
}

// Whether each position is above the next.
fn falls(at: &[u32; 32], count: usize) -> bool
    requires { count ≤ 32 }
    ensures { result ≡ true → Falls (number_at at.now) count }
{
    for k in 1..count {
        if at[k - 1] <= at[k] {
            return false;
        }
    }
    true
}

// 5, of references whose positions are known: offsets whose positions fall differ.
fn repeats_at(dims: u8, window: Window, at: &[u32; 32]) -> bool
    requires { (window.count ≤ 32) × (Falls (number_at at.now) window.count → repeats_in dims window ≡ false) }
    ensures { result ≡ repeats_in dims window }
{
    if falls(at, window.count as usize) {
        return false;
    }
    windows::repeats(dims, window)
}

// What judging and running ask of a window on a grid that 3 to 6 and 15 let pass: the centre and the shape of the iterations
// that a run covers.
#[derive(Clone, Copy)]
pub struct Survey {
    pub centre: u8,
    pub shape: Shape,
}

// 15, and the shape of a box, of a grid and a window that 3 to 6 let pass and whose own shape is known.
fn survey_box(
    grid: Grid,
    window: Window,
    bounds: Bounds,
    centre: u8,
    whole: Shape,
) -> Result<Survey, Refusal>
    requires { (bounds.stood ≡ true) × Whole grid window centre whole }
    ensures { result ≡ survey_of grid window bounds }
{
    let dims = grid.dims as usize;
    let n = window.count as usize;
    let lows = lows_of(&window.offsets, n, dims);
    let Some(place) = boxed::place_box(bounds, &lows, &whole.extents, dims) else {
        return Err(Refusal::BadBox);
    };
    let cells = boxed::cells_behind(&place.firsts, &whole.strides, dims);
    let at = boxed::further(&whole.at, cells, n);
    let iterations = product(&place.widths, 0, dims);
    Ok(Survey {
        centre,
        shape: Shape {
            iterations,
            extents: place.widths,
            at,
            ..whole
        },
    })
}

// The survey, or the first of 3 to 6 and 15 that turns grid, window and box back.
pub fn survey_of(grid: Grid, window: Window, bounds: Bounds) -> Result<Survey, Refusal>
    ensures { result ≡ survey_of grid window bounds }
{
    if limits::bad_grid(grid) {
        return Err(Refusal::BadGrid);
    }
    if limits::bad_count(window.count) {
        return Err(Refusal::BadCount);
    }
    let shape = shape_in(grid, window.count, &window.offsets);
    if repeats_at(grid.dims, window, &shape.at) {
        return Err(Refusal::EqualOffsets);
    }
    if shape.iterations == 0 {
        return Err(Refusal::NoIteration);
    }
    let centre = windows::centre(grid.dims, window);
    if bounds.stood {
        return survey_box(grid, window, bounds, centre, shape);
    }
    Ok(Survey { centre, shape })
}
