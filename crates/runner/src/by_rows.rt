// A call on rows, whose iterations go row by row: each row is a stretch.
ghost use Rattle.std.specs.Prelude.{◌≡◌, ◌<◌, get_or};
ghost use Rattle.model.specs.Values.{Trimmed};
ghost use Rattle.model.specs.Iterations.{iterations_of};
ghost use Rattle.model_run.specs.Kernels.{width as width_for};
ghost use Rattle.model_run.specs.Running.{layout, written_by, width_of};
ghost use Rattle.row_courses.specs.CourseTables.{LiesIn};
ghost use Rattle.runner.specs.Stretching.{StretchedTo};
ghost use Rattle.runner.specs.ByRows.{RowTables, AtRow, RowCall, row_of};

use crate::{End, Stretched, advance, no_clocks, stretch_clocks};
use model::{Kernel, Order};
use rows::RowCourse;

// Entry i of a table.
fn entry(table: &[u32; 513], i: u32) -> usize
    requires { i < 513 }
    ensures { result ≡ get_or table.now i 0 }
{
    table[i as usize] as usize
}

// The clocks of the course's row v, which has `length` iterations, `fired` of them made.
fn of_row(
    kernel: Kernel,
    centre: u8,
    order: Order,
    n: usize,
    count: u32,
    rows: &[u32],
    above: &[u32; 513],
    course: RowCourse,
    v: u32,
    caps: &[usize; 32],
    bases: &[usize; 32],
    tops: &[usize; 32],
    length: usize,
    size: usize,
    fired: usize,
    passed: &mut [usize; 32],
    store: &mut [u32],
    cells: &[u32],
    out: &mut [u32],
    allowance: usize,
) -> Stretched
    requires { (t : Trimmed)
        × RowTables t kernel order n count size centre course rows.now above.now caps.now bases.now tops.now
        × AtRow t n count rows.now course v length fired passed.old store.old }
    ensures { (t : Trimmed)
        → RowTables t kernel order n count size centre course rows.now above.now caps.now
        bases.now tops.now
        → AtRow t n count rows.now course v length fired passed.old store.old
        → StretchedTo result (row_of t count rows.now course v) (written_by t) (width_for kernel n) n length fired
        passed.old passed.new store.old store.new out.old
        out.new cells.now allowance }
{
    if length <= fired {
        return no_clocks(End::Done);
    }
    let ones = [1usize; 4];
    let mut at = [0usize; 32];
    row_courses::reads(count, rows, above, course, v, &mut at);
    let mut wants = at;
    advance(n, fired, &mut wants);
    stretch_clocks(
        kernel, centre, order, n, 1, &at, &wants, caps, bases, tops, &ones, &ones, length, length,
        size, fired, passed, store, cells, out, allowance,
    )
}

// The clocks from row v0 on, in which iteration `fired0` lies.
fn rows_from(
    kernel: Kernel,
    centre: u8,
    order: Order,
    n: usize,
    count: u32,
    rows: &[u32],
    above: &[u32; 513],
    iterations: &[u32; 513],
    course: RowCourse,
    v0: u32,
    caps: &[usize; 32],
    bases: &[usize; 32],
    tops: &[usize; 32],
    size: usize,
    fired0: usize,
    passed: &mut [usize; 32],
    store: &mut [u32],
    cells: &[u32],
    out: &mut [u32],
    allowance: usize,
) -> Stretched
    requires lies_in { LiesIn iterations.now course.height fired0 v0 }
    requires row_call { (t : Trimmed)
        × RowCall t kernel order n count size centre course rows.now above.now iterations.now caps.now bases.now
        tops.now fired0 passed.old store.old }
    ensures { (t : Trimmed)
        → RowCall t kernel order n count size centre course rows.now above.now iterations.now
        caps.now bases.now tops.now fired0 passed.old store.old
        → StretchedTo result (layout t) (written_by t) (width_of t) n (iterations_of t) fired0 passed.old
        passed.new store.old store.new out.old out.new
        cells.now allowance }
{
    let width = kernel_terms::width(kernel, n);
    let mut taken: usize = 0;
    let mut made: usize = 0;
    let mut firings: usize = 0;
    for v in v0..course.height {
        let from = entry(iterations, v);
        let upto = entry(iterations, v + 1);
        let o = firings * width;
        let s = of_row(
            kernel,
            centre,
            order,
            n,
            count,
            rows,
            above,
            course,
            v,
            caps,
            bases,
            tops,
            upto - from,
            size,
            fired0 + firings - from,
            passed,
            store,
            &cells[taken..],
            &mut out[o..],
            allowance - made,
        );
        taken += s.taken;
        made += s.clocks;
        firings += s.firings;
        if fired0 + firings < upto {
            return Stretched {
                end: s.end,
                taken,
                clocks: made,
                firings,
            };
        }
    }
    Stretched {
        end: End::Done,
        taken,
        clocks: made,
        firings,
    }
}

// The clocks of a call on rows that is not refused.
pub(crate) fn row_clocks(
    kernel: Kernel,
    centre: u8,
    order: Order,
    n: usize,
    count: u32,
    rows: &[u32],
    above: &[u32; 513],
    iterations: &[u32; 513],
    course: RowCourse,
    caps: &[usize; 32],
    bases: &[usize; 32],
    tops: &[usize; 32],
    size: usize,
    fired0: usize,
    passed: &mut [usize; 32],
    store: &mut [u32],
    cells: &[u32],
    out: &mut [u32],
    allowance: usize,
) -> Stretched
    requires { (t : Trimmed)
        × RowCall t kernel order n count size centre course rows.now above.now iterations.now caps.now bases.now
        tops.now fired0 passed.old store.old }
    ensures { (t : Trimmed)
        → RowCall t kernel order n count size centre course rows.now above.now iterations.now
        caps.now bases.now tops.now fired0 passed.old store.old
        → StretchedTo result (layout t) (written_by t) (width_of t) n (iterations_of t) fired0 passed.old
        passed.new store.old store.new out.old out.new
        cells.now allowance }
{
    if entry(iterations, course.height) <= fired0 {
        return no_clocks(End::Done);
    }
    let v = row_courses::row_of(iterations, course.height, fired0 as u32);
    rows_from(
        kernel, centre, order, n, count, rows, above, iterations, course, v, caps, bases, tops,
        size, fired0, passed, store, cells, out, allowance,
    )
}
