// Window arithmetic, on any value: offsets taken out of a window, compared and added; check 5, and the centre. Lows, and heights
// above them, are in lows.rt. What a public function answers of what an array does not hold is fixed in specs/.

#![tactic(auto)]

pub mod lows;

ghost use Rattle.std.specs.Prelude.{◌≡◌, ◌+◌, ◌≤◌, ◌<◌};
ghost use Rattle.model.specs.Lists.{tabulate, any};
ghost use Rattle.model.specs.Vectors.{equal, before};
ghost use Rattle.model.specs.Judging.{repeats as repeats_of};
ghost use Rattle.model.specs.Windows.{centre_of};
ghost use Rattle.geometry.specs.Parts.{part, offset_at};
ghost use Rattle.windows.specs.Offsets.{offset_in, front, added_of};
ghost use Rattle.windows.specs.Windows.{repeats_in, centre_in, has_centre};

use model::{MOST_REFERENCES, Window};

// Reference k's offset; 0 past the last reference.
pub fn offset_of(offsets: &[i16; 128], k: usize) -> [i16; 4]
    ensures { result ≡ offset_in offsets.now k }
{
    if 32 <= k {
        return [0i16; 4];
    }
    let i = 4 * k;
    [offsets[i], offsets[i + 1], offsets[i + 2], offsets[i + 3]]
}

// Whether two offsets are equal, in so many dimensions.
pub fn same_offset(a: [i16; 4], b: [i16; 4], dims: usize) -> bool
    ensures { result ≡ equal (front dims a) (front dims b) }
{
    // Not by slices: these call for the entries behind the first two, in a loop over all pairs of references.
    for d in 0..dims.min(4) {
        if a[d] != b[d] {
            return false;
        }
    }
    true
}

// Whether the one comes before the other, in lexicographic order.
pub fn comes_before(a: [i16; 4], b: [i16; 4], dims: usize) -> bool
    ensures { result ≡ before (front dims a) (front dims b) }
{
    let n = dims.min(4);
    a[..n] < b[..n]
}

// The sum of two offsets: whether 16 bits hold each of its entries, and the entries, 0 where they do not. No Option: the
// other entries are promised, too.
#[derive(Clone, Copy)]
pub struct Added {
    pub fits: bool,
    pub entries: [i16; 4],
}

// Two offsets added entry by entry, in so many dimensions; 0 past these.
pub fn add_offsets(a: [i16; 4], b: [i16; 4], dims: usize) -> Added
    ensures { result ≡ added_of dims a b }
{
    let n = dims.min(4);
    let mut fits = true;
    let mut entries = [0i16; 4];
    for d in 0..n {
        match a[d].checked_add(b[d]) {
            Some(entry) => entries[d] = entry,
            None => fits = false,
        }
    }
    Added { fits, entries }
}

// Whether a later reference has the offset of reference k.
fn occurs_later(offsets: &[i16; 128], k: usize, count: usize, dims: usize) -> bool
    requires { (k < count) × (count ≤ 32) × (dims ≤ 4) }
    ensures { result
        ≡ any (λ p. equal (offset_at dims offsets.now k) p)
        (part (λ i. offset_at dims offsets.now i) (k + 1) count) }
{
    let o = offset_of(offsets, k);
    for j in k + 1..count {
        let p = offset_of(offsets, j);
        if same_offset(o, p, dims) {
            return true;
        }
    }
    false
}

// 5, of `count` references.
fn repeats_in(offsets: &[i16; 128], count: usize, dims: usize) -> bool
    requires { (count ≤ 32) × (dims ≤ 4) }
    ensures { result ≡ repeats_of (tabulate count (offset_at dims offsets.now)) }
{
    for k in 0..count {
        if occurs_later(offsets, k, count, dims) {
            return true;
        }
    }
    false
}

// 5: two equal offsets.
pub fn repeats(dims: u8, window: Window) -> bool
    ensures { result ≡ repeats_in dims window }
{
    let count = window.count;
    if 4 < dims {
        return false;
    }
    if MOST_REFERENCES < count {
        return false;
    }
    repeats_in(&window.offsets, count as usize, dims as usize)
}

// Which of `count` references is the centre; the count where none is.
fn centre_in(offsets: &[i16; 128], count: u8, dims: usize) -> u8
    requires { (count ≤ 32) × (dims ≤ 4) }
    ensures { result ≡ centre_of (tabulate count (offset_at dims offsets.now)) }
{
    for k in 0..count {
        let o = offset_of(offsets, k as usize);
        if same_offset(o, [0i16; 4], dims) {
            return k;
        }
    }
    count
}

// Which reference is the centre; the count where there is none, as `centre_of` of the definitions.
pub fn centre(dims: u8, window: Window) -> u8
    ensures { result ≡ centre_in dims window }
{
    let n = window.count;
    if 4 < dims {
        return n;
    }
    if MOST_REFERENCES < n {
        return n;
    }
    centre_in(&window.offsets, n, dims as usize)
}

// Whether a reference is the centre.
pub fn has_centre(dims: u8, window: Window) -> bool
    ensures { result ≡ has_centre dims window }
{
    let n = window.count;
    centre(dims, window) < n
}
