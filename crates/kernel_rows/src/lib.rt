// A kernel over the rows of many firings (document 02, request 6).

#![tactic(auto)]

ghost use Rattle.std.specs.Prelude.{◌≡◌, ℕ, Float, map, ◌+◌, ◌≤◌, length, get_or};
ghost use Rattle.std.proofs.lemmas.List.Edits.{sets};
ghost use Rattle.model_run.specs.Kernels.{sum_of, words_at, written, width as width_of};
ghost use Rattle.model_run.specs.Kernels.{difference as difference_of, scaled as scaled_of, blend as blend_of};
ghost use Rattle.model_run.specs.PairRuns.{by_rows};
ghost use Rattle.kernel_words.specs.Sums.{sum_of_terms, sum_of_squares};
ghost use Rattle.kernel_rows.specs.Given.{fits, given_to, Room};

use kernel_terms::width;
use kernel_words::{float_of, squared, word_of};
use model::{Factors, Kernel};
use numbers::number_at;

// Filter k's word; 0 where the row has none.
fn word_at(row: &[u32], k: u8) -> u32
    ensures { result ≡ get_or row.now k 0 }
{
    number_at(row, k as usize)
}

// The terms added in their order, starting from the first, where `term` makes them of the filters' words.
fn sum_of<F: Fn(u32) -> f32>(term: F, terms: &[u8], row: &[u32]) -> f32
    requires { F.IsAlwaysCallable term }
    ensures { (t : ℕ → Float) → ((w : ℕ) (x : Float) → F.post term w x → x ≡ t w)
        → result ≡ sum_of (map t (words_at terms.now row.now)) }
{
    let Some((first, rest)) = terms.split_first() else {
        return 0.0;
    };
    let mut sum = term(word_at(row, *first));
    for k in rest {
        sum += term(word_at(row, *k));
    }
    sum
}

// The sum of the terms.
fn sum_of_terms(terms: &[u8], row: &[u32]) -> f32
    ensures { result ≡ sum_of_terms terms.now row.now }
{
    sum_of(float_of, terms, row)
}

// The sum of the squares of the centre less each term.
fn sum_of_squares(centre: u8, terms: &[u8], row: &[u32]) -> f32
    ensures { result ≡ sum_of_squares centre terms.now row.now }
{
    let c = word_at(row, centre);
    sum_of(|w| squared(c, w), terms, row)
}

fn difference(centre: u8, terms: &[u8], row: &[u32]) -> u32
    ensures { result ≡ difference_of centre terms.now row.now }
{
    word_of(sum_of_squares(centre, terms, row))
}

fn scaled(factor: f32, terms: &[u8], row: &[u32]) -> u32
    ensures { result ≡ scaled_of factor terms.now row.now }
{
    let all = sum_of_terms(terms, row);
    word_of(all * factor)
}

fn blend(g: Factors, centre: u8, terms: &[u8], row: &[u32]) -> u32
    ensures { result ≡ blend_of g centre terms.now row.now }
{
    let c = float_of(word_at(row, centre));
    let others = sum_of_terms(terms, row);
    word_of(g.a * c + g.b * others)
}

// The words of these filters, from place `at` on.
fn copy(filters: &[u8], row: &[u32], out: &mut [u32], at: usize)
    requires { at + length filters.now ≤ length out.old }
    ensures { out.new ≡ sets out.old at (words_at filters.now row.now) }
{
    for (i, &k) in filters.iter().enumerate() {
        out[at + i] = word_at(row, k);
    }
}

// One firing, whose words are the row.
fn apply(
    k: Kernel,
    centre: u8,
    terms: &[u8],
    writes: &[u8],
    row: &[u32],
    out: &mut [u32],
    at: usize,
)
    requires { at + width_of k (length writes.now) ≤ length out.old }
    ensures { out.new
        ≡ sets out.old at (written k centre terms.now writes.now row.now) }
{
    match k {
        Kernel::Raw => copy(writes, row, out, at),
        Kernel::Difference => {
            out[at] = difference(centre, terms, row);
        }
        Kernel::Scaled(f) => {
            out[at] = scaled(f, terms, row);
        }
        Kernel::Blend(g) => {
            out[at] = blend(g, centre, terms, row);
        }
    }
}

// All firings; each writes `wide` words.
fn apply_all(
    k: Kernel,
    centre: u8,
    terms: &[u8],
    writes: &[u8],
    n: usize,
    batch: &[u32],
    count: usize,
    wide: usize,
    out: &mut [u32],
    at: usize,
)
    requires { Room k writes.now n count wide (length batch.now) at (length out.old) }
    ensures { out.new
        ≡ sets out.old at
        (by_rows n (written k centre terms.now writes.now) count batch.now) }
{
    for i in 0..count {
        let row = &batch[i * n..(i + 1) * n];
        apply(k, centre, terms, writes, row, out, at + i * wide);
    }
}

// Whether there are `count` rows of n words, and behind place `at` of `places` as many times `wide`.
fn room(n: usize, wide: usize, count: usize, words: usize, at: usize, places: usize) -> bool
    ensures { result ≡ fits n wide count words at places }
{
    0 < n && 0 < wide && count <= words / n && at <= places && count <= (places - at) / wide
}

// `count` firings, each of which has n words in `batch`: reference `centre` is the centre, `terms` are the filters that the
// kernel adds, in their order, `writes` those that raw writes. What they write goes to `out` from place `at` on, if it fits.
pub fn give(
    k: Kernel,
    centre: u8,
    terms: &[u8],
    writes: &[u8],
    n: usize,
    batch: &[u32],
    count: usize,
    out: &mut [u32],
    at: usize,
)
    ensures { out.new
        ≡ given_to k centre terms.now writes.now n count batch.now at out.old }
{
    let wide = width(k, writes.len());
    if room(n, wide, count, batch.len(), at, out.len()) {
        apply_all(k, centre, terms, writes, n, batch, count, wide, out, at);
    }
}
