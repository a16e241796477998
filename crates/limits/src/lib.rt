// The limits of a grid, a window, rows and capacities: each test once, for values, sheets and plans.

#![tactic(auto)]

ghost use Rattle.std.specs.Prelude.{◌≡◌, leb, ltb, take};
ghost use Rattle.model.specs.Values.{sizes_of, rows_of};
ghost use Rattle.model.specs.Judging.{most_places, bad_dims, bad_sizes, bad_grid, bad_count, bad_row, bad_row_count, bad_rows};

use model::{Grid, MOST_CELLS, MOST_PLACES, MOST_REFERENCES, MOST_ROWS};
use numbers::number_at;

// 3, of the dimension count: outside 1 to 4.
#[tactic(auto, unfolding(model::specs::Judging::bad_dims))]
pub fn bad_dims(dims: u8) -> bool
    ensures { result ≡ bad_dims dims }
{
    dims == 0 || 4 < dims
}

// 3, of the first `dims` sizes: one is 0, or they make too many cells. They are multiplied only until there are too many.
pub fn bad_sizes(dims: u8, sizes: [u32; 4]) -> bool
    ensures { result ≡ bad_sizes (take dims sizes) }
{
    let n = (dims as usize).min(4);
    let mut cells: usize = 1;
    for d in 0..n {
        let size = sizes[d] as usize;
        if size == 0 {
            return true;
        }
        cells *= size;
        if MOST_CELLS < cells {
            return true;
        }
    }
    false
}

// 3, of a grid.
pub fn bad_grid(grid: Grid) -> bool
    ensures { result ≡ bad_grid grid.dims (sizes_of grid) }
{
    bad_dims(grid.dims) || bad_sizes(grid.dims, grid.sizes)
}

// 4: a count of references outside 1 to 32.
#[tactic(auto, unfolding(model::specs::Judging::bad_count))]
pub fn bad_count(count: u8) -> bool
    ensures { result ≡ bad_count count }
{
    count == 0 || MOST_REFERENCES < count
}

// 4, where so many references stand: there is no room for one more.
pub fn too_many(count: u8) -> bool
    ensures { result ≡ leb 32 count }
{
    MOST_REFERENCES <= count
}

// 16, of the row count: outside 1 to 512.
#[tactic(auto, unfolding(model::specs::Judging::bad_row_count))]
pub fn bad_row_count(count: u32) -> bool
    ensures { result ≡ bad_row_count count }
{
    count == 0 || MOST_ROWS < count
}

// 16, of one row.
#[tactic(auto, unfolding(model::specs::Judging::bad_row))]
pub fn bad_row(start: u32, length: u32) -> bool
    ensures { result ≡ bad_row (record { start = start; length = length }) }
{
    4095 < start || length == 0 || 1024 < length
}

// 16: a row count, start or length outside its range.
pub fn bad_rows(count: u32, rows: &[u32]) -> bool
    ensures { result ≡ bad_rows (rows_of count rows.now) }
{
    if bad_row_count(count) {
        return true;
    }
    for i in 0..count as usize {
        let start = number_at(rows, 2 * i);
        let length = number_at(rows, 2 * i + 1);
        if bad_row(start, length) {
            return true;
        }
    }
    false
}

// 9, of capacities that sum to `total`.
pub fn too_large(total: u64) -> bool
    ensures { result ≡ ltb most_places total }
{
    (MOST_PLACES as u64) < total
}
