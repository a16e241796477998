// Rows of cells that are lent beside a value (document 02, request 5): row i's start is number 2 i, its length number 2 i +
// 1. What a public function answers on any value is fixed in specs/.

#![tactic(auto)]

mod boxed;
mod common;

ghost use Rattle.std.specs.Prelude.{◌≡◌, true, false, ◌+◌, ◌*◌, ◌≤◌, ◌<◌, min};
ghost use Rattle.model.specs.Grounds.{row};
ghost use Rattle.model.specs.Lists.{tabulate, sum};
ghost use Rattle.model.specs.Values.{rows_of, offsets_of};
ghost use Rattle.model.specs.Judging.{bad_rows, bad_count, repeats as repeats_of};
ghost use Rattle.geometry.specs.Parts.{number_at};
ghost use Rattle.rows.specs.Courses.{whole_course, column_in, row_length as row_length_in, length_in};
ghost use Rattle.rows.specs.Surveys.{row_survey_of, Known};

use model::{Bounds, Refusal, Window};
use numbers::number_at;
use windows::lows::{heights_in, low_in};

// The iterations that a run on rows covers, row by row. Rows and columns of iterations are counted from the window's lows.
#[derive(Clone, Copy)]
pub struct RowCourse {
    // The first row, and how many there are.
    pub top: u32,
    pub height: u32,
    // Whether a box stood; where it did, its first column and how many it has.
    pub boxed: bool,
    pub left: u32,
    pub width: u32,
    // How far each reference lies above the lows, 0 past the last: rows down, and columns on.
    pub references: u8,
    pub down: [u32; 32],
    pub on: [u32; 32],
}

// What judging and running ask of a window on rows that 16, 4, 5, 6 and 15 let pass: the centre, the cells, and the
// iterations that a run covers.
#[derive(Clone, Copy)]
pub struct RowSurvey {
    pub centre: u8,
    pub cells: u32,
    pub iterations: u32,
    pub course: RowCourse,
}

// How many cells the rows have, of which none has more than 1,024.
fn cells_in(count: u32, rows: &[u32]) -> u32
    requires { count ≤ 512 }
    ensures { result ≡ sum (tabulate count (λ i. min (number_at rows.now (2 * i + 1)) 1024)) }
{
    let mut cells: u32 = 0;
    for i in 0..count as usize {
        cells += number_at(rows, 2 * i + 1).min(1024);
    }
    cells
}

// How many iterations there are in the rows from 0.
fn iterations_in(count: u32, rows: &[u32], down: &[u32; 32], on: &[u32; 32], n: usize) -> u32
    requires { (count ≤ 512) × (n ≤ 32) }
    ensures { result
        ≡ sum (tabulate count (length_in (rows_of count rows.now) down.now on.now n)) }
{
    let mut iterations: u32 = 0;
    for u in 0..count as usize {
        iterations += common::length_in(count, rows, down, on, n, u);
    }
    iterations
}

// The course of all iterations, of a window that 4 lets pass.
fn whole_course(count: u32, window: Window) -> RowCourse
    requires { bad_count window.count ≡ false }
    ensures { result ≡ whole_course count (offsets_of 2 window) }
{
    let n = window.count as usize;
    let low_row = low_in(&window.offsets, n, 0);
    let down = heights_in(&window.offsets, n, 0, low_row);
    let low_column = low_in(&window.offsets, n, 1);
    let on = heights_in(&window.offsets, n, 1, low_column);
    RowCourse {
        top: 0,
        height: count,
        boxed: false,
        left: 0,
        width: 0,
        references: window.count,
        down,
        on,
    }
}

// 15, and the course of a box, of rows and a window that 16 and 4 to 6 let pass and of which the rest is known.
fn survey_box(
    count: u32,
    rows: &[u32],
    window: Window,
    bounds: Bounds,
    known: RowSurvey,
) -> Result<RowSurvey, Refusal>
    requires { (bounds.stood ≡ true) × Known count rows.now window known }
    ensures { result ≡ row_survey_of count rows.now window bounds }
{
    let n = window.count as usize;
    let low_row = low_in(&window.offsets, n, 0);
    let low_column = low_in(&window.offsets, n, 1);
    let at = boxed::placed_at(count, bounds, low_row, low_column);
    if !boxed::fits(count, rows, &known.course.down, &known.course.on, n, at) {
        return Err(Refusal::BadBox);
    }
    let iterations = boxed::iterations(at.height, at.width);
    Ok(RowSurvey {
        iterations,
        course: RowCourse {
            top: at.top,
            height: at.height,
            boxed: true,
            left: at.left,
            width: at.width,
            ..known.course
        },
        ..known
    })
}

// 6 and 15, the centre, the cells and the course, of rows and a window that 16, 4 and 5 let pass.
fn survey_in(count: u32, rows: &[u32], window: Window, bounds: Bounds) -> Result<RowSurvey, Refusal>
    requires { (bad_rows (rows_of count rows.now) ≡ false) × (bad_count window.count ≡ false)
        × (repeats_of (offsets_of 2 window) ≡ false) }
    ensures { result ≡ row_survey_of count rows.now window bounds }
{
    let course = whole_course(count, window);
    // Lists of their own: read inside the course they take a seventh more time.
    let down = course.down;
    let on = course.on;
    let iterations = iterations_in(count, rows, &down, &on, window.count as usize);
    if iterations == 0 {
        return Err(Refusal::NoIteration);
    }
    let cells = cells_in(count, rows);
    let centre = windows::centre(2, window);
    let whole = RowSurvey {
        centre,
        cells,
        iterations,
        course,
    };
    if bounds.stood {
        return survey_box(count, rows, window, bounds, whole);
    }
    Ok(whole)
}

// The survey, or the first of 16, 4, 5, 6 and 15 that turns rows, window and box back.
pub fn survey(
    count: u32,
    rows: &[u32],
    window: Window,
    bounds: Bounds,
) -> Result<RowSurvey, Refusal>
    ensures { result ≡ row_survey_of count rows.now window bounds }
{
    if limits::bad_rows(count, rows) {
        return Err(Refusal::BadRows);
    }
    if limits::bad_count(window.count) {
        return Err(Refusal::BadCount);
    }
    if windows::repeats(2, window) {
        return Err(Refusal::EqualOffsets);
    }
    survey_in(count, rows, window, bounds)
}

// The first column of the course's row v.
pub fn row_start(count: u32, rows: &[u32], course: RowCourse, v: u32) -> usize
    ensures { result ≡ column_in (rows_of count rows.now) course v }
{
    if course.boxed {
        return course.left as usize;
    }
    let n = (course.references as usize).min(32);
    let u = course.top as usize + v as usize;
    let down = course.down;
    let on = course.on;
    let c = common::columns_in(count, rows, &down, &on, n, u);
    c.start
}

// How many iterations it has.
pub fn row_length(count: u32, rows: &[u32], course: RowCourse, v: u32) -> u32
    ensures { result ≡ row_length_in (rows_of count rows.now) course v }
{
    if course.boxed {
        return course.width.min(1024);
    }
    let n = (course.references as usize).min(32);
    let u = course.top as usize + v as usize;
    let down = course.down;
    let on = course.on;
    common::length_in(count, rows, &down, &on, n, u)
}

// The first column of the row of cells that lies so far below row u; 0 past the last row.
pub fn start_of(count: u32, rows: &[u32], down: u32, u: usize) -> usize
    ensures { result ≡ (row (rows_of count rows.now) (down + u)).start }
{
    common::row_below(count, rows, down, u).start
}

// How many cells row i has; none past the last row.
pub fn length_of(count: u32, rows: &[u32], i: u32) -> u32
    ensures { result ≡ (row (rows_of count rows.now) i).length }
{
    if count <= i {
        return 0;
    }
    number_at(rows, 2 * i as usize + 1)
}
