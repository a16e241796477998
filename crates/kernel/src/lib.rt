// A firing of the four kernels (document 01, "Kernels").

#![tactic(auto)]

ghost use Rattle.std.specs.Prelude.{◌≡◌, ◌+◌, ◌≤◌, length};
ghost use Rattle.std.proofs.lemmas.List.Edits.{sets};
ghost use Rattle.model_run.specs.Kernels.{words_at};
ghost use Rattle.kernel.specs.Applied.{applied};

use kernel_terms::width;
use kernel_words::{blend, difference, scaled};
use model::Kernel;

// The words of these filters, from place `at` on.
fn copy(filters: &[u8], words: &[u32; 256], out: &mut [u32], at: usize)
    requires { at + length filters.now ≤ length out.old }
    ensures { out.new ≡ sets out.old at (words_at filters.now words.now) }
{
    for (i, k) in filters.iter().enumerate() {
        out[at + i] = words[*k as usize];
    }
}

// A firing: `words` are its cells in chain order, reference `centre` is the centre; `terms` are the filters that the kernel adds,
// in their order, `writes` those that raw writes. What it writes goes to `out` from place `at` on, if it fits.
pub fn apply(
    k: Kernel,
    centre: u8,
    terms: &[u8],
    writes: &[u8],
    words: &[u32; 256],
    out: &mut [u32],
    at: usize,
)
    ensures { out.new
        ≡ applied k centre terms.now writes.now words.now at out.old }
{
    if out.len() < at {
        return;
    }
    if out.len() - at < width(k, writes.len()) {
        return;
    }
    match k {
        Kernel::Raw => copy(writes, words, out, at),
        Kernel::Difference => {
            out[at] = difference(centre, terms, words);
        }
        Kernel::Scaled(f) => {
            out[at] = scaled(f, terms, words);
        }
        Kernel::Blend(g) => {
            out[at] = blend(g, centre, terms, words);
        }
    }
}
