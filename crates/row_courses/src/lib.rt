// A run on rows, row by row (document 02, request 5): the tables of what lies above each row, the row of an iteration, what
// is read there, and the reuse distances. What a public function answers on any value is fixed in specs/CourseTables.antt.

#![tactic(auto)]

ghost use Rattle.std.specs.Prelude.{◌≡◌, ℕ, ◌+◌, ◌-◌, ◌≤◌, ◌<◌, min, max};
ghost use Rattle.model.specs.Grounds.{row, cells_above};
ghost use Rattle.model.specs.Lists.{tabulate, greatest};
ghost use Rattle.model.specs.Values.{rows_of, on_rows};
ghost use Rattle.model.specs.Iterations.{distance_of};
ghost use Rattle.model.specs.Judging.{most_cells};
ghost use Rattle.geometry.specs.Parts.{number_at, Filled};
ghost use Rattle.rows.specs.Courses.{looked, row_length};
ghost use Rattle.row_courses.specs.CourseTables.{above_count, lengths_above, entry_of, read_at, RowOf, distance_at, Near};
ghost use Rattle.row_courses.specs.CourseTables.{AllNear, distance_count};

use model::{Bounds, MOST_ROWS, Window};
use rows::RowCourse;

// How many cells lie above each row, and in all of them.
pub fn cells_above(count: u32, rows: &[u32], to: &mut [u32; 513])
    ensures { Filled 513 0 (cells_above (rows_of count rows.now)) (above_count count rows.now)
        to.new }
{
    *to = [0u32; 513];
    if limits::bad_rows(count, rows) {
        return;
    }
    let mut cells: u32 = 0;
    for i in 0..count {
        cells += rows::length_of(count, rows, i);
        to[i as usize + 1] = cells;
    }
}

// How many iterations lie above each row of the course, and in all of them.
pub fn iterations_above(count: u32, rows: &[u32], course: RowCourse, to: &mut [u32; 513])
    ensures { Filled 513 0 (lengths_above (row_length (rows_of count rows.now) course))
        (min course.height 512 + 1) to.new }
{
    *to = [0u32; 513];
    let n = course.height.min(MOST_ROWS);
    let mut iterations: u32 = 0;
    for v in 0..n {
        iterations += rows::row_length(count, rows, course, v);
        to[v as usize + 1] = iterations;
    }
}

// The course's row that iteration j lies in, by the table of the iterations above, where it lies in one.
pub fn row_of(above: &[u32; 513], height: u32, j: u32) -> u32
    ensures { RowOf above.now height j result }
{
    let mut from: usize = 0;
    let mut to = height.min(MOST_ROWS) as usize;
    // Halving by hand: what is answered holds on a table that does not rise too, of which `partition_point` says nothing.
    while from + 1 < to {
        let middle = from + (to - from) / 2;
        if above[middle] <= j {
            from = middle;
        } else {
            to = middle;
        }
    }
    from as u32
}

// Entry i of a table; 0 past its last.
fn entry(above: &[u32; 513], i: usize) -> usize
    ensures { (result ≡ entry_of above.now i) × (result < 4294967296) }
{
    if i < 513 {
        return above[i] as usize;
    }
    0
}

// The position that a reference reads in the first iteration of row u, which stands in this column.
fn read_at(
    count: u32,
    rows: &[u32],
    above: &[u32; 513],
    down: u32,
    on: u32,
    u: usize,
    column: usize,
) -> usize
    requires { (u < 8589934592) × (column ≤ 8192) }
    ensures { result
        ≡ entry_of above.now (down + u) + ((on + column) - (row (rows_of count rows.now) (down + u)).start) }
{
    let cells = entry(above, down as usize + u);
    let start = rows::start_of(count, rows, down, u);
    cells + (on as usize + column).saturating_sub(start)
}

// The positions that the references read in the first iteration of the course's row v.
pub fn reads(
    count: u32,
    rows: &[u32],
    above: &[u32; 513],
    course: RowCourse,
    v: u32,
    to: &mut [usize; 32],
)
    ensures { Filled 32 0 (read_at (rows_of count rows.now) above.now course v) (looked course)
        to.new }
{
    *to = [0usize; 32];
    let n = (course.references as usize).min(32);
    let u = course.top as usize + v as usize;
    let column = rows::row_start(count, rows, course, v).min(8192);
    for k in 0..n {
        to[k] = read_at(count, rows, above, course.down[k], course.on[k], u, column);
    }
}

// How far position x lies behind y.
fn distance(x: usize, y: usize) -> u32
    requires { x ≤ most_cells }
    ensures { result ≡ x - y }
{
    x.saturating_sub(y) as u32
}

// The greater of each number and the distance of two neighbours, of n positions.
fn farther(at: &[usize; 32], r: &[u32; 31], n: usize) -> [u32; 31]
    requires { (n ≤ 32) × ((k : ℕ) → k < n → number_at at.now k ≤ most_cells) }
    ensures { Filled 31 0
        (λ k. max (number_at at.now k - number_at at.now (k + 1)) (number_at r.now k)) (n - 1) result }
{
    let mut to = [0u32; 31];
    for k in 0..n.saturating_sub(1) {
        to[k] = distance(at[k], at[k + 1]).max(r[k]);
    }
    to
}

// The greater of each number and the distance in the first iteration of the course's row v.
fn widened(
    count: u32,
    rows: &[u32],
    above: &[u32; 513],
    course: RowCourse,
    v: u32,
    r: &[u32; 31],
) -> [u32; 31]
    requires { Near (rows_of count rows.now) above.now course v
        × Filled 31 0 (number_at r.now) (looked course - 1) r.now }
    ensures { Filled 31 0
        (λ k. max (distance_at (rows_of count rows.now) above.now course k v)
        (number_at r.now k)) (looked course - 1) result }
{
    if rows::row_length(count, rows, course, v) == 0 {
        return *r;
    }
    let mut at = [0usize; 32];
    reads(count, rows, above, course, v, &mut at);
    let n = (course.references as usize).min(32);
    farther(&at, r, n)
}

// The largest distances over the first iterations of the course's rows that have any.
fn distances_in(count: u32, rows: &[u32], above: &[u32; 513], course: RowCourse) -> [u32; 31]
    requires { AllNear (rows_of count rows.now) above.now course }
    ensures { Filled 31 0
        (λ k. greatest
        (tabulate course.height (distance_at (rows_of count rows.now) above.now course k)))
        (looked course - 1) result }
{
    let mut r = [0u32; 31];
    for v in (0..course.height).rev() {
        r = widened(count, rows, above, course, v, &r);
    }
    r
}

// The reuse distances of neighbours, the largest over the iterations that a run covers; none where the survey refuses.
pub fn distances(count: u32, rows: &[u32], window: Window, bounds: Bounds) -> [u32; 31]
    ensures { Filled 31 0 (distance_of (on_rows count rows.now window bounds))
        (distance_count count rows.now window bounds) result }
{
    let Ok(survey) = rows::survey(count, rows, window, bounds) else {
        return [0u32; 31];
    };
    let mut above = [0u32; 513];
    cells_above(count, rows, &mut above);
    distances_in(count, rows, &above, survey.course)
}
