// Two kernels on one chain: over 48 rows of 64 cells, fuel takes the cell and its neighbours in the row, timing the cells above
// and below; the library's plan and runs, and every word of both outputs beside two plain nested loops.

#![tactic(auto)]

ghost use Rattle.std.specs.Prelude.{◌≡◌, length};

use case_runs::{fresh, words_of};
use model::{Chain, Factors, Kernel, Outcome, Ran, Refusal, Side, State};
use nested::requests::request;
use nested::windows::{Loops, references};
use nested::{agreeing, apply, gather, width};
use std::io;
use values::counts_of;

// The grid, and the iterations of the union, which leave its rim out; `centre` is the reference of a window that is the centre.
fn loops(centre: usize) -> Loops {
    Loops {
        dims: 2,
        planes: 1,
        rows: 48,
        columns: 64,
        z_first: 0,
        z_end: 1,
        y_first: 1,
        y_end: 47,
        x_first: 1,
        x_end: 63,
        boxed: false,
        centre,
    }
}

// Floats of either sign that vary with the position, and among them words that are special as floats.
fn cell(p: u32) -> u32 {
    if p % 101 < 2 {
        return 0x7F7FFFFF + p % 4;
    }
    let h = (p as u64 * 2654435761 % 4294967296) as u32;
    h / 0x80000000 * 0x80000000 + (120 + h / 0x8000000 % 16) * 0x800000 + h / 16 % 0x800000
}

fn fill(cells: &mut [u32; 3072])
    ensures { length cells.new ≡ length cells.old }
{
    for p in 0..3072u32 {
        cells[p as usize] = cell(p);
    }
}

// One of the pair: its window, as its author wrote it.
fn side(author: &[u8], kernel: Kernel) -> Side {
    let r = request(loops(0), author, kernel);
    Side {
        window: r.window,
        kernel,
    }
}

// A call with at most `count` cells from number `from` on, and at most `places` places of each output from its place on.
fn lend(
    chain: Chain,
    fuel: Side,
    timing: Side,
    state: State,
    from: usize,
    count: usize,
    at: usize,
    other_at: usize,
    places: usize,
    cells: &[u32],
    store: &mut [u32],
    out: &mut [u32],
    other: &mut [u32],
) -> Ran {
    let a = from.min(cells.len());
    let b = count.min(cells.len() - a);
    let c = at.min(out.len());
    let d = places.min(out.len() - c);
    let e = other_at.min(other.len());
    let f = places.min(other.len() - e);
    pair_run::run_pair(
        chain,
        &[],
        fuel,
        timing,
        state,
        store,
        &cells[a..a + b],
        &mut out[c..c + d],
        &mut other[e..e + f],
        4294967295,
    )
}

fn is_done(a: Result<Outcome, Refusal>) -> bool {
    matches!(a, Ok(Outcome::Done(_)))
}

// How a run went.
#[derive(Drop)]
struct Summary {
    done: bool,
    firings: usize,
    clocks: usize,
}

// Calls until all firings are made, at most 10,000; each lends so many cells and places.
fn trip(
    chain: Chain,
    fuel: Side,
    timing: Side,
    words: usize,
    other_words: usize,
    piece: usize,
    cells: &[u32],
    out: &mut [u32],
    other: &mut [u32],
) -> Summary {
    let mut store = [0u32; 128];
    let mut state = fresh();
    let mut taken: usize = 0;
    let mut firings: usize = 0;
    let mut clocks: usize = 0;
    let mut at: usize = 0;
    let mut other_at: usize = 0;
    for _ in 0..10000 {
        let ran = lend(
            chain, fuel, timing, state, taken, piece, at, other_at, piece, cells, &mut store, out,
            other,
        );
        state = ran.state;
        let c = counts_of(ran.answer);
        taken = taken.wrapping_add(c.cells as usize);
        clocks = clocks.wrapping_add(c.clocks as usize);
        firings = firings.wrapping_add(c.firings as usize);
        at = at.wrapping_add(words_of(c.firings, words));
        other_at = other_at.wrapping_add(words_of(c.firings, other_words));
        if is_done(ran.answer) {
            return Summary {
                done: true,
                firings,
                clocks,
            };
        }
    }
    Summary {
        done: false,
        firings,
        clocks,
    }
}

// In how many iterations, up to the first that differs, the words are the nested loop's.
fn same(l: Loops, kernel: Kernel, window: &[u8], cells: &[u32], out: &[u32]) -> usize {
    let n = references(window);
    let size = width(kernel, n);
    let mut at: usize = 0;
    let mut seen: usize = 0;
    for y in 1..47 {
        for x in 1..63 {
            let read = gather(l, window, cells, 0, y, x, [0; 32]);
            let words = apply(kernel, n, l.centre, read);
            if agreeing(&words, size, out, at, out.len()) != size {
                return seen;
            }
            at = at.wrapping_add(size);
            seen = seen.saturating_add(1);
        }
    }
    seen
}

fn text_if(rt: &impl Print, holds: bool, text: &str) -> io::Result<()> {
    if holds {
        print!(rt; "{text}")?;
    }
    Ok(())
}

fn written(rt: &impl Print, t: Summary, whole: bool, fuel: usize, timing: usize) -> io::Result<()> {
    let firings = t.firings;
    let clocks = t.clocks;
    text_if(rt, whole, "  whole: ")?;
    text_if(rt, !whole, "  pieces: ")?;
    text_if(rt, !t.done, "not ")?;
    print!(rt; "done, {firings} firings, {clocks} clocks; ")?;
    println!(rt; "the same as the loops: fuel {fuel}, timing {timing}")
}

// Lent whole, or in pieces. The windows are in the order in which the loops go: the author's, for raw the chain's.
fn run(
    rt: &impl Print,
    chain: Chain,
    fuel: Side,
    timing: Side,
    window: &[u8],
    other_window: &[u8],
    piece: usize,
    cells: &[u32],
) -> io::Result<()> {
    let words = width(fuel.kernel, references(window));
    let other_words = width(timing.kernel, references(other_window));
    let mut out = [0u32; 9000];
    let mut other = [0u32; 9000];
    let t = trip(
        chain,
        fuel,
        timing,
        words,
        other_words,
        piece,
        cells,
        &mut out,
        &mut other,
    );
    let one = same(loops(0), fuel.kernel, window, cells, &out);
    let two = same(loops(2), timing.kernel, other_window, cells, &other);
    written(rt, t, piece == 9000, one, two)
}

// A pair planned, and run lent whole and in pieces.
fn pair(
    rt: &impl Print,
    name: &str,
    k: Kernel,
    m: Kernel,
    window: &[u8],
    other_window: &[u8],
    cells: &[u32],
) -> io::Result<()> {
    let fuel = side(b"000 00- 00+", k);
    let timing = side(b"0-0 0+0", m);
    let r = request(loops(0), window, Kernel::Raw);
    println!(rt; "{name}")?;
    let chain = match pair_plan::plan_pair(r.grid, &[], r.bounds, fuel, timing) {
        Ok(chain) => chain,
        Err(x) => {
            let number = u8::from(x);
            return println!(rt; "  refusal {number}");
        }
    };
    run(rt, chain, fuel, timing, window, other_window, 9000, cells)?;
    run(rt, chain, fuel, timing, window, other_window, 37, cells)
}

fn pairs(rt: &impl Print, cells: &[u32]) -> io::Result<()> {
    pair(
        rt,
        "fuel difference, timing raw",
        Kernel::Difference,
        Kernel::Raw,
        b"000 00- 00+",
        b"0+0 0-0",
        cells,
    )?;
    pair(
        rt,
        "fuel blend, timing scaled",
        Kernel::Blend(Factors { a: 0.6, b: 0.1 }),
        Kernel::Scaled(0.5),
        b"000 00- 00+",
        b"0-0 0+0",
        cells,
    )?;
    pair(
        rt,
        "fuel raw, timing difference",
        Kernel::Raw,
        Kernel::Difference,
        b"00+ 000 00-",
        b"0-0 0+0",
        cells,
    )
}

fn main(rt: HostRuntime) -> io::Result<()> {
    let mut cells = [0u32; 3072];
    fill(&mut cells);
    pairs(&rt, &cells)
}
