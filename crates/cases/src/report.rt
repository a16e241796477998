// What is written of each case.
use crate::maps::{COLUMNS, lay, slanted, torn};
use case_runs::compare::{Compared, compare};
use model::{Chain, Counts, Factors, Kernel, Refusal, Request};
use nested::requests::{on_rows, request};
use nested::windows::{Loops, around, flat, over_box, small, solid};
use std::io;

// Writes the first `fifos` capacities; their sum.
fn capacities(rt: &impl Print, places: &[u32; 31], fifos: usize) -> io::Result<usize> {
    let mut sum: usize = 0;
    for k in 0..fifos.min(31) {
        let c = places[k] as usize;
        print!(rt; " {c}")?;
        sum = sum.wrapping_add(c);
    }
    Ok(sum)
}

// The planned capacities; how many and their sum.
fn fifos(rt: &impl Print, chain: Chain) -> io::Result<()> {
    let count = chain.window.count.saturating_sub(1);
    print!(rt; "capacities")?;
    let sum = capacities(rt, &chain.capacities, count as usize)?;
    println!(rt; "\n{count} FIFOs, sum {sum}")
}

// The clocks before the first firing number its clock, if no firing was made in them and the next clock makes one.
fn first_clock(rt: &impl Print, before: Counts, next: Counts) -> io::Result<()> {
    if before.firings == 0 && next.firings == 1 {
        let clock = before.clocks;
        println!(rt; "first firing in clock {clock}")?;
    }
    Ok(())
}

fn first_firing(rt: &impl Print, chain: Chain, rows: &[u32], cells: &[u32]) -> io::Result<()> {
    let mut store = [0u32; 16384];
    let mut out = [0u32; 32];
    let f = case_runs::first_firing(chain, rows, cells, &mut store, &mut out);
    first_clock(rt, f.before, f.next)
}

fn text_if(rt: &impl Print, holds: bool, text: &str) -> io::Result<()> {
    if holds {
        print!(rt; "{text}")?;
    }
    Ok(())
}

fn end(rt: &impl Print, done: bool, firings: usize, clocks: usize) -> io::Result<()> {
    text_if(rt, !done, "not ")?;
    print!(rt; "done, {firings} firings, {clocks} clocks, ")
}

// Which outcomes were met on the way.
fn met(rt: &impl Print, spent: bool, starved: bool, full: bool) -> io::Result<()> {
    print!(rt; "; met")?;
    text_if(rt, spent, " Spent")?;
    text_if(rt, spent & (starved | full), ",")?;
    text_if(rt, starved, " Starved")?;
    text_if(rt, starved & full, ",")?;
    text_if(rt, full, " Full")
}

// How a run ended, and how many words were compared up to the first that differs.
fn comparison(rt: &impl Print, c: Compared, pieces: bool) -> io::Result<()> {
    let r = c.run;
    let words = c.words;
    text_if(rt, !pieces, "  whole: ")?;
    text_if(rt, pieces, "  pieces: ")?;
    end(rt, r.done, r.firings, r.clocks)?;
    print!(rt; "{words}")?;
    text_if(rt, c.same, " words, all the same")?;
    text_if(rt, !c.same, " words the same, the next differs")?;
    if pieces {
        met(rt, r.spent, r.starved, r.full)?;
    }
    println!(rt)
}

fn compared(
    rt: &impl Print,
    l: Loops,
    kernel: Kernel,
    chain: Chain,
    rows: &[u32],
    pieces: bool,
    window: &[u8],
    cells: &[u32],
    field: &[u32],
    inside: &[u32],
    out: &mut [u32],
) -> io::Result<()> {
    let mut store = [0u32; 16384];
    let c = compare(
        l, kernel, chain, rows, pieces, window, cells, field, inside, &mut store, out,
    );
    comparison(rt, c, pieces)
}

fn refused(rt: &impl Print, r: Refusal) -> io::Result<()> {
    let number = u8::from(r);
    println!(rt; "  refusal {number}")
}

fn name(rt: &impl Print, kernel: Kernel) -> io::Result<()> {
    match kernel {
        Kernel::Raw => println!(rt; "raw"),
        Kernel::Difference => println!(rt; "difference"),
        Kernel::Scaled(_) => println!(rt; "scaled"),
        Kernel::Blend(_) => println!(rt; "blend"),
    }
}

// The request of a case: on so many rows, on a rectangle where there are none.
fn asked(l: Loops, author: &[u8], kernel: Kernel, count: u32) -> Request {
    let r = request(l, author, kernel);
    if count == 0 {
        return r;
    }
    on_rows(r, count)
}

// Lent whole, and lent in pieces. `author`: the window as its author wrote it; `window`: in the order in which the nested
// loop goes.
fn with_kernel(
    rt: &impl Print,
    l: Loops,
    kernel: Kernel,
    author: &[u8],
    window: &[u8],
    count: u32,
    rows: &[u32],
    cells: &[u32],
    field: &[u32],
    inside: &[u32],
    out: &mut [u32],
) -> io::Result<()> {
    name(rt, kernel)?;
    let chain = match planner::plan(asked(l, author, kernel, count), rows) {
        Ok(chain) => chain,
        Err(r) => return refused(rt, r),
    };
    compared(
        rt, l, kernel, chain, rows, false, window, cells, field, inside, out,
    )?;
    compared(
        rt, l, kernel, chain, rows, true, window, cells, field, inside, out,
    )
}

// Kernels add in the author's order; raw keeps chain order, in which offsets fall.
fn with_kernels(
    rt: &impl Print,
    l: Loops,
    author: &[u8],
    falling: &[u8],
    count: u32,
    rows: &[u32],
    cells: &[u32],
    field: &[u32],
    inside: &[u32],
    out: &mut [u32],
) -> io::Result<()> {
    with_kernel(
        rt,
        l,
        Kernel::Raw,
        author,
        falling,
        count,
        rows,
        cells,
        field,
        inside,
        out,
    )?;
    let sums = [
        Kernel::Difference,
        Kernel::Scaled(0.2),
        Kernel::Blend(Factors { a: 0.6, b: 0.1 }),
    ];
    for kernel in sums {
        with_kernel(
            rt, l, kernel, author, author, count, rows, cells, field, inside, out,
        )?;
    }
    Ok(())
}

fn case_on(
    rt: &impl Print,
    name: &str,
    l: Loops,
    author: &[u8],
    falling: &[u8],
    count: u32,
    rows: &[u32],
    cells: &[u32],
    field: &[u32],
    inside: &[u32],
    out: &mut [u32],
) -> io::Result<()> {
    println!(rt; "{name}")?;
    let chain = match planner::plan(asked(l, author, Kernel::Raw, count), rows) {
        Ok(chain) => chain,
        Err(r) => return refused(rt, r),
    };
    fifos(rt, chain)?;
    first_firing(rt, chain, rows, cells)?;
    with_kernels(
        rt, l, author, falling, count, rows, cells, field, inside, out,
    )
}

// On a rectangle, whose stream the nested loop reads as it is.
fn case(
    rt: &impl Print,
    name: &str,
    l: Loops,
    author: &[u8],
    falling: &[u8],
    cells: &[u32],
    out: &mut [u32],
) -> io::Result<()> {
    case_on(rt, name, l, author, falling, 0, &[], cells, cells, &[], out)
}

// Case 1 is Listing 1 of document 003: centre, left, right, up, down.
fn flat_cases(rt: &impl Print, cells: &[u32], out: &mut [u32]) -> io::Result<()> {
    let l = flat(0);
    case(
        rt,
        "case 1, DENOISE",
        l,
        b"000 00- 00+ 0-0 0+0",
        b"0+0 00+ 000 00- 0-0",
        cells,
        out,
    )?;
    let l = flat(4);
    case(
        rt,
        "case 2, RICIAN",
        l,
        b"00- 00+ 0-0 0+0",
        b"0+0 00+ 00- 0-0",
        cells,
        out,
    )?;
    case(
        rt,
        "case 3, SOBEL",
        l,
        b"0-- 0-0 0-+ 00- 000 00+ 0+- 0+0 0++",
        b"0++ 0+0 0+- 00+ 000 00- 0-+ 0-0 0--",
        cells,
        out,
    )
}

fn solid_cases(rt: &impl Print, cells: &[u32], out: &mut [u32]) -> io::Result<()> {
    let l = solid(6);
    case(
        rt,
        "case 4, DENOISE_3D",
        l,
        b"00- 00+ 0-0 0+0 -00 +00 000",
        b"+00 0+0 00+ 000 00- 0-0 -00",
        cells,
        out,
    )?;
    let l = solid(0);
    case(
        rt,
        "case 5, SEGMENTATION",
        l,
        b"000 00- 00+ 0-0 0+0 -00 +00 0-- 0-+ 0+- 0++ -0- -0+ +0- +0+ --0 -+0 +-0 ++0",
        b"++0 +0+ +00 +0- +-0 0++ 0+0 0+- 00+ 000 00- 0-+ 0-0 0-- -+0 -0+ -00 -0- --0",
        cells,
        out,
    )
}

// Case 1 between two rows: all columns of rows 383 to 385.
fn flat_box(rt: &impl Print, cells: &[u32], out: &mut [u32]) -> io::Result<()> {
    let l = over_box(flat(0), 0, 1, 383, 386, 1, 1023);
    case(
        rt,
        "case 1 in a box: rows 383 to 385",
        l,
        b"000 00- 00+ 0-0 0+0",
        b"0+0 00+ 000 00- 0-0",
        cells,
        out,
    )
}

fn solid_box(rt: &impl Print, cells: &[u32], out: &mut [u32]) -> io::Result<()> {
    let l = over_box(solid(6), 19, 21, 5, 9, 2, 30);
    case(
        rt,
        "case 4 in a box: planes 19 and 20, rows 5 to 8, columns 2 to 29",
        l,
        b"00- 00+ 0-0 0+0 -00 +00 000",
        b"+00 0+0 00+ 000 00- 0-0 -00",
        cells,
        out,
    )
}

fn small_boxes(rt: &impl Print, cells: &[u32], out: &mut [u32]) -> io::Result<()> {
    let l = over_box(small(0), 0, 1, 1, 2, 2, 4);
    case(
        rt,
        "4 by 5 in a box: row 1, columns 2 and 3",
        l,
        b"000 00- 00+ 0-0 0+0",
        b"0+0 00+ 000 00- 0-0",
        cells,
        out,
    )?;
    let l = over_box(small(0), 0, 1, 1, 3, 3, 4);
    case(
        rt,
        "4 by 5 in a box: rows 1 and 2, column 3",
        l,
        b"000 00- 00+ 0-0 0+0",
        b"0+0 00+ 000 00- 0-0",
        cells,
        out,
    )
}

// Five points on rows that slant,
fn on_slanted(
    rt: &impl Print,
    rows: &[u32; 400],
    cells: &[u32],
    field: &[u32; 60000],
    inside: &[u32; 60000],
    out: &mut [u32],
) -> io::Result<()> {
    case_on(
        rt,
        "200 rows of 100, each a column further on",
        around(200, COLUMNS, 0),
        b"000 00- 00+ 0-0 0+0",
        b"0+0 00+ 000 00- 0-0",
        200,
        rows,
        cells,
        field,
        inside,
        out,
    )
}

// and in a box of them.
fn in_slanted(
    rt: &impl Print,
    rows: &[u32; 400],
    cells: &[u32],
    field: &[u32; 60000],
    inside: &[u32; 60000],
    out: &mut [u32],
) -> io::Result<()> {
    case_on(
        rt,
        "200 rows of 100, each a column further on, in a box: rows 100 to 102, columns 103 to 198",
        over_box(around(200, COLUMNS, 0), 0, 1, 100, 103, 103, 199),
        b"000 00- 00+ 0-0 0+0",
        b"0+0 00+ 000 00- 0-0",
        200,
        rows,
        cells,
        field,
        inside,
        out,
    )
}

// Nine points on rows that vary; what is lent behind the last of them plays no part.
fn on_torn(
    rt: &impl Print,
    rows: &[u32; 400],
    cells: &[u32],
    field: &[u32; 60000],
    inside: &[u32; 60000],
    out: &mut [u32],
) -> io::Result<()> {
    case_on(
        rt,
        "40 rows of many starts and lengths",
        around(40, COLUMNS, 4),
        b"0-- 0-0 0-+ 00- 000 00+ 0+- 0+0 0++",
        b"0++ 0+0 0+- 00+ 000 00- 0-+ 0-0 0--",
        40,
        rows,
        cells,
        field,
        inside,
        out,
    )
}

fn slanted_cases(rt: &impl Print, cells: &[u32], out: &mut [u32]) -> io::Result<()> {
    let mut field = [0u32; 60000];
    let mut inside = [0u32; 60000];
    let mut rows = [0u32; 400];
    slanted(&mut rows);
    lay(&rows, cells, &mut field, &mut inside);
    on_slanted(rt, &rows, cells, &field, &inside, out)?;
    in_slanted(rt, &rows, cells, &field, &inside, out)
}

fn torn_case(rt: &impl Print, cells: &[u32], out: &mut [u32]) -> io::Result<()> {
    let mut field = [0u32; 60000];
    let mut inside = [0u32; 60000];
    let mut rows = [0u32; 400];
    torn(&mut rows);
    lay(&rows, cells, &mut field, &mut inside);
    on_torn(rt, &rows, cells, &field, &inside, out)
}

// The smaller grid takes the first `count` cells.
fn on_front(rt: &impl Print, count: usize, cells: &[u32], out: &mut [u32]) -> io::Result<()> {
    if cells.len() < count {
        return Ok(());
    }
    solid_cases(rt, &cells[..count], out)
}

// Here too smaller grids take the first cells.
fn maps(rt: &impl Print, cells: &[u32], out: &mut [u32]) -> io::Result<()> {
    if cells.len() < 20000 {
        return Ok(());
    }
    slanted_cases(rt, &cells[..20000], out)?;
    torn_case(rt, &cells[..1000], out)
}

// Runs of a box. Here too smaller grids take the first cells.
fn boxes(rt: &impl Print, cells: &[u32], out: &mut [u32]) -> io::Result<()> {
    if cells.len() < 40960 {
        return Ok(());
    }
    flat_box(rt, cells, out)?;
    solid_box(rt, &cells[..40960], out)?;
    small_boxes(rt, &cells[..20], out)
}

// Cases 1 to 5, boxes and skewed grids.
pub(crate) fn cases(
    rt: &impl Print,
    cells: &[u32; 786432],
    out: &mut [u32; 786432],
) -> io::Result<()> {
    flat_cases(rt, cells, out)?;
    on_front(rt, 40960, cells, out)?;
    boxes(rt, cells, out)?;
    maps(rt, cells, out)
}
