// What each firing must write, straight from the cells: no function of the library has a part in it.

#![tactic(auto)]

pub mod requests;
pub mod windows;

ghost use Rattle.std.specs.Prelude.{◌≡◌};
ghost use Rattle.model_run.specs.Kernels.{float, word as word_of, width as width_of};
ghost use Rattle.nested.specs.Nested.{added, word_in, values, squares, fired, moved_by, index_in, cell_of};
ghost use Rattle.nested.specs.Nested.{gathered, agreed};

use crate::windows::Loops;
use model::Kernel;

// The value of a word.
#[tactic(auto, using(kernel_words::proofs::FloatLaws::nan_word, kernel_words::proofs::FloatLaws::number_word))]
fn value(w: u32) -> f32
    ensures { result ≡ float w }
{
    if 0x7F800000 < w % 0x80000000 {
        let zero = 0.0f32;
        return zero / zero;
    }
    f32::from_bits(w)
}

// The word of a result.
#[tactic(auto, using(kernel_words::proofs::FloatLaws::nan_bits_lem, kernel_words::proofs::FloatLaws::no_nan))]
fn result(x: f32) -> u32
    ensures { result ≡ word_of x }
{
    if x != x {
        return 0x7FC00000;
    }
    f32::to_bits(x)
}

// A sum so far, which begins with its first term, and a term more.
fn add(sum: Option<f32>, term: f32) -> Option<f32>
    ensures { result ≡ added sum term }
{
    match sum {
        Some(total) => Some(total + term),
        None => Some(term),
    }
}

#[tactic(auto, unfolding(crate::specs::Nested::word_in))]
fn word(words: &[u32; 32], k: usize) -> u32
    ensures { result ≡ word_in words.now k }
{
    if k < 32 {
        return words[k];
    }
    0
}

fn differences(words: &[u32; 32], n: usize, centre: usize) -> f32
    ensures { result ≡ squares words.now n centre }
{
    let c = value(word(words, centre));
    let mut sum = None;
    for k in 0..n {
        if k != centre {
            let d = c - value(word(words, k));
            sum = add(sum, d * d);
        }
    }
    sum.unwrap_or(0.0)
}

// The sum of all references but the one numbered `but`.
fn sum_but(words: &[u32; 32], n: usize, but: usize) -> f32
    ensures { result ≡ values words.now n but }
{
    let mut sum = None;
    for k in 0..n {
        if k != but {
            sum = add(sum, value(word(words, k)));
        }
    }
    sum.unwrap_or(0.0)
}

// How many words a firing of n references writes.
#[tactic(auto, unfolding(model_run::specs::Kernels::width))]
pub fn width(kernel: Kernel, n: usize) -> usize
    ensures { result ≡ width_of kernel n }
{
    match kernel {
        Kernel::Raw => n,
        Kernel::Difference => 1,
        Kernel::Scaled(_) => 1,
        Kernel::Blend(_) => 1,
    }
}

// The words that a firing writes, from the n cells of its iteration: raw writes these, the others one word at the first place.
#[tactic(auto, unfolding(crate::specs::Nested::fired))]
pub fn apply(kernel: Kernel, n: usize, centre: usize, words: [u32; 32]) -> [u32; 32]
    ensures { result ≡ fired kernel n centre words }
{
    let first = match kernel {
        Kernel::Raw => return words,
        Kernel::Difference => differences(&words, n, centre),
        Kernel::Scaled(f) => sum_but(&words, n, n) * f,
        Kernel::Blend(g) => g.a * value(word(&words, centre)) + g.b * sum_but(&words, n, centre),
    };
    let mut words = words;
    words[0] = result(first);
    words
}

// An index moved by an entry of an offset; outside of every grid where that cannot be.
#[tactic(auto, unfolding(crate::specs::Nested::moved_by))]
fn moved(i: usize, entry: u8) -> usize
    ensures { result ≡ moved_by i entry }
{
    match entry {
        b'0' => i,
        b'+' if i < 1048576 => i + 1,
        b'-' if 0 < i => i - 1,
        _ => 1048576,
    }
}

// Index b of row a, where rows have `size` entries.
#[tactic(auto, unfolding(crate::specs::Nested::index_in))]
fn index(a: usize, size: usize, b: usize) -> usize
    ensures { result ≡ index_in a size b }
{
    if a < 1048576 && size < 1048576 && b < 1048576 {
        a * size + b
    } else {
        1099511627776
    }
}

// The cell at [z][y][x].
#[tactic(auto, unfolding(crate::specs::Nested::cell_of))]
fn cell_at(l: Loops, cells: &[u32], z: usize, y: usize, x: usize) -> u32
    ensures { result ≡ cell_of l cells.now z y x }
{
    if z < l.planes && y < l.rows && x < l.columns {
        let p = index(index(z, l.rows, y), l.columns, x);
        if p < cells.len() {
            return cells[p];
        }
    }
    0x0BAD0BAD
}

// The cells that iteration [z][y][x] reads, in the window's order. Words past the window's references stay as they were.
pub fn gather(
    l: Loops,
    window: &[u8],
    cells: &[u32],
    z: usize,
    y: usize,
    x: usize,
    before: [u32; 32],
) -> [u32; 32]
    ensures { result ≡ gathered l window.now cells.now z y x 0 32 before }
{
    let mut words = before;
    for k in 0..32 {
        let at = 4 * k;
        if window.len() <= at + 2 {
            return words;
        }
        words[k] = cell_at(
            l,
            cells,
            moved(z, window[at]),
            moved(y, window[at + 1]),
            moved(x, window[at + 2]),
        );
    }
    words
}

// How many of the first `count` words stand in `out` from place `at` to before `end`, up to the first that does not.
pub fn agreeing(words: &[u32; 32], count: usize, out: &[u32], at: usize, end: usize) -> usize
    ensures { result ≡ agreed words.now out.now count at end }
{
    if out.len() < end || end < at {
        return 0;
    }
    let n = count.min(32).min(end - at);
    for i in 0..n {
        if out[at + i] != words[i] {
            return i;
        }
    }
    n
}
