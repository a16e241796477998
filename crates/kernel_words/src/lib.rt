// f32 words, their sums, and the words of difference, scaled and blend (document 01, "Kernels").

#![tactic(auto)]

ghost use Rattle.std.specs.Prelude.{◌≡◌, ℕ, Float, map, get_or};
ghost use Rattle.model_run.specs.Kernels.{float, word, sum_of, words_at, squared as squared_of};
ghost use Rattle.model_run.specs.Kernels.{difference as difference_of, scaled as scaled_of, blend as blend_of};
ghost use Rattle.kernel_words.specs.Sums.{sum_of_terms, sum_of_squares};

use model::Factors;

// The value of a word.
pub fn float_of(w: u32) -> f32
    ensures { result ≡ float w }
{
    if 0x7F800000 < w % 0x80000000 {
        let zero = 0.0f32;
        return zero / zero;
    }
    f32::from_bits(w)
}

// The word of a value. "A result that is not a number is written as 7FC00000"
pub fn word_of(x: f32) -> u32
    ensures { result ≡ word x }
{
    if x != x {
        return 0x7FC00000;
    }
    f32::to_bits(x)
}

// Filter k's word.
fn word_at(words: &[u32; 256], k: u8) -> u32
    ensures { result ≡ get_or words.now k 0 }
{
    words[k as usize]
}

// "terms added .. starting from the first term; a sum of no terms is +0", where `term` makes them of the filters' words.
fn sum_of<F: Fn(u32) -> f32>(term: F, terms: &[u8], words: &[u32; 256]) -> f32
    requires { F.IsAlwaysCallable term }
    ensures { (t : ℕ → Float) → ((w : ℕ) (x : Float) → F.post term w x → x ≡ t w)
        → result ≡ sum_of (map t (words_at terms.now words.now)) }
{
    let Some((first, rest)) = terms.split_first() else {
        return 0.0;
    };
    let mut sum = term(word_at(words, *first));
    for k in rest {
        sum += term(word_at(words, *k));
    }
    sum
}

// The sum of the terms.
fn sum_of_terms(terms: &[u8], words: &[u32; 256]) -> f32
    ensures { result ≡ sum_of_terms terms.now words.now }
{
    sum_of(float_of, terms, words)
}

// The square of the centre less another reference.
pub fn squared(centre: u32, other: u32) -> f32
    ensures { result ≡ squared_of centre other }
{
    let d = float_of(centre) - float_of(other);
    d * d
}

// The sum of the squares of the centre less each term.
fn sum_of_squares(centre: u8, terms: &[u8], words: &[u32; 256]) -> f32
    ensures { result ≡ sum_of_squares centre terms.now words.now }
{
    let c = word_at(words, centre);
    sum_of(|w| squared(c, w), terms, words)
}

// "sums the squares of centre less each other reference"
pub fn difference(centre: u8, terms: &[u8], words: &[u32; 256]) -> u32
    ensures { result ≡ difference_of centre terms.now words.now }
{
    word_of(sum_of_squares(centre, terms, words))
}

// The sum of the terms first, one multiplication last.
pub fn scaled(factor: f32, terms: &[u8], words: &[u32; 256]) -> u32
    ensures { result ≡ scaled_of factor terms.now words.now }
{
    let all = sum_of_terms(terms, words);
    word_of(all * factor)
}

// "a times the centre plus b times the sum of the others"
pub fn blend(g: Factors, centre: u8, terms: &[u8], words: &[u32; 256]) -> u32
    ensures { result ≡ blend_of g centre terms.now words.now }
{
    let c = float_of(word_at(words, centre));
    let others = sum_of_terms(terms, words);
    word_of(g.a * c + g.b * others)
}
