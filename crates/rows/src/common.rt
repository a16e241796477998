// Rows of cells, and rows of iterations: the columns that keep each reference inside the row that it reads.
ghost use Rattle.std.specs.Prelude.{◌≡◌, ◌+◌, ◌-◌, ◌≤◌};
ghost use Rattle.model.specs.Grounds.{Row, row, end as end_of};
ghost use Rattle.model.specs.Values.{rows_of};
ghost use Rattle.rows.specs.Courses.{start_in, end_in, length_in};

use numbers::number_at;

// Columns: the first, and the first behind the last.
#[derive(Clone, Copy)]
pub(crate) struct Columns {
    pub(crate) start: usize,
    pub(crate) end: usize,
}

// The row of cells that lies so far below row u; none past the last row.
pub(crate) fn row_below(count: u32, rows: &[u32], down: u32, u: usize) -> Columns
    ensures { (result.start ≡ (row (rows_of count rows.now) (down + u)).start)
        × (result.end ≡ end_of (row (rows_of count rows.now) (down + u))) }
{
    let i = (down as usize).saturating_add(u);
    if count as usize <= i {
        return Columns { start: 0, end: 0 };
    }
    let start = number_at(rows, 2 * i) as usize;
    let length = number_at(rows, 2 * i + 1) as usize;
    Columns {
        start,
        end: start + length,
    }
}

// The columns of row u of all iterations that keep a reference inside its row.
fn columns_of(count: u32, rows: &[u32], down: u32, on: u32, u: usize) -> Columns
    ensures { (result.start ≡ (row (rows_of count rows.now) (down + u)).start - on)
        × (result.end ≡ end_of (row (rows_of count rows.now) (down + u)) - on) }
{
    let cells = row_below(count, rows, down, u);
    let left = on as usize;
    Columns {
        start: cells.start.saturating_sub(left),
        end: cells.end.saturating_sub(left),
    }
}

// Row u of all iterations,
pub(crate) fn columns_in(
    count: u32,
    rows: &[u32],
    down: &[u32; 32],
    on: &[u32; 32],
    n: usize,
    u: usize,
) -> Columns
    requires { n ≤ 32 }
    ensures { (result.start ≡ start_in (rows_of count rows.now) down.now on.now n u)
        × (result.end ≡ end_in (rows_of count rows.now) down.now on.now n u) }
{
    if n == 0 {
        return Columns { start: 0, end: 0 };
    }
    let last = columns_of(count, rows, down[n - 1], on[n - 1], u);
    let mut start = last.start;
    let mut end = last.end;
    for k in (0..n - 1).rev() {
        let here = columns_of(count, rows, down[k], on[k], u);
        start = here.start.max(start);
        end = here.end.min(end);
    }
    Columns { start, end }
}

// and how many iterations it has.
pub(crate) fn length_in(
    count: u32,
    rows: &[u32],
    down: &[u32; 32],
    on: &[u32; 32],
    n: usize,
    u: usize,
) -> u32
    requires { n ≤ 32 }
    ensures { result ≡ length_in (rows_of count rows.now) down.now on.now n u }
{
    let c = columns_in(count, rows, down, on, n, u);
    c.end.saturating_sub(c.start).min(1024) as u32
}
