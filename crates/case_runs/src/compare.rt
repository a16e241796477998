// The plain nested loop over a grid's iterations, beside a run of the library.
ghost use Rattle.std.specs.Prelude.{◌≡◌};
ghost use Rattle.nested.specs.Nested.{agreed};
ghost use Rattle.case_runs.specs.Comparing.{beside, loop_words, cells_read, is_iteration, compared};

use crate::{Run, begin, more};
use model::{Chain, Kernel};
use nested::windows::{Loops, references};
use nested::{agreeing, apply, gather, width};

// A run beside the nested loop: how many of its words are the loop's, the place of the next in the last call's output, and
// whether all are.
#[derive(Clone, Copy)]
pub struct Compared {
    pub run: Run,
    pub words: usize,
    pub at: usize,
    pub same: bool,
}

// How many of an iteration's words stand in `out` from place `at` to before `end`, up to the first that does not.
#[tactic(auto, unfolding(crate::specs::Comparing::loop_words))]
fn agreeing_at(
    l: Loops,
    kernel: Kernel,
    window: &[u8],
    cells: &[u32],
    z: usize,
    y: usize,
    x: usize,
    width: usize,
    out: &[u32],
    at: usize,
    end: usize,
) -> usize
    ensures { result
        ≡ agreed (loop_words l kernel window.now cells.now z y x) out.now width at end }
{
    let read = gather(l, window, cells, z, y, x, [0; 32]);
    let words = apply(kernel, references(window), l.centre, read);
    agreeing(&words, width, out, at, end)
}

// How many of an iteration's references read a cell: `inside` is 1 at each cell.
#[tactic(auto, unfolding(crate::specs::Comparing::cells_read))]
fn reads_cells(l: Loops, window: &[u8], inside: &[u32], z: usize, y: usize, x: usize) -> usize
    ensures { result ≡ cells_read l window.now inside.now z y x }
{
    let cells = gather(l, window, inside, z, y, x, [0; 32]);
    agreeing(&cells, references(window), &[1u32; 32], 0, 32)
}

// On a skewed grid the loops go over the rectangle around it, and what reads outside is no iteration.
#[tactic(auto, unfolding(crate::specs::Comparing::is_iteration))]
fn is_iteration(l: Loops, window: &[u8], inside: &[u32], z: usize, y: usize, x: usize) -> bool
    ensures { result ≡ is_iteration l window.now inside.now z y x }
{
    inside.is_empty() || reads_cells(l, window, inside, z, y, x) == references(window)
}

// The words of a run, in order, beside the nested loop's, up to the first that differs. The loop reads `field`, which is the
// stream of a rectangle, or that of a skewed grid laid into the rectangle around it, where `inside` says which places are cells
// (empty: all).
pub fn compare(
    l: Loops,
    kernel: Kernel,
    chain: Chain,
    rows: &[u32],
    pieces: bool,
    window: &[u8],
    cells: &[u32],
    field: &[u32],
    inside: &[u32],
    store: &mut [u32],
    out: &mut [u32],
) -> Compared
    ensures { beside result store.new out.new
        ≡ compared l kernel chain rows.now pieces window.now cells.now field.now
        inside.now store.old out.old }
{
    let width = width(kernel, references(window));
    let mut run = begin();
    let mut at: usize = 0;
    let mut seen: usize = 0;
    for z in l.z_first..l.z_end {
        for y in l.y_first..l.y_end {
            for x in l.x_first..l.x_end {
                if !is_iteration(l, window, inside, z, y, x) {
                    continue;
                }
                if at == run.words {
                    run = more(chain, rows, run, pieces, width, cells, store, out);
                    at = 0;
                }
                let same = agreeing_at(
                    l, kernel, window, field, z, y, x, width, out, at, run.words,
                );
                seen = seen.wrapping_add(same);
                if same != width {
                    return Compared {
                        run,
                        words: seen,
                        at,
                        same: false,
                    };
                }
                at = at.wrapping_add(width);
            }
        }
    }
    Compared {
        run,
        words: seen,
        at,
        same: at == run.words,
    }
}
