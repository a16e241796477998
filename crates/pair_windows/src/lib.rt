// Two windows against each other and against a chain's (document 02, request 6), on any value. What a public function answers
// of what an array does not hold is fixed in specs/.

#![tactic(auto)]

ghost use Rattle.std.specs.Prelude.{not, ◌≡◌, ◌≤◌, length};
ghost use Rattle.model.specs.Lists.{any};
ghost use Rattle.model.specs.Pairs.{member, distinct};
ghost use Rattle.windows.specs.Offsets.{offset_in, front};
ghost use Rattle.pair_windows.specs.Unions.{both_held, joined, from_on, both_from_on, Appended, gathered_of, union_in, union_window};
ghost use Rattle.pair_windows.specs.Unions.{not_union_in};

use model::{MOST_REFERENCES, Window};
use windows::{offset_of, same_offset};

// Whether arrays hold so many dimensions, and the references of two windows.
#[tactic(auto, unfolding(crate::specs::Unions::both_held))]
pub fn both_held(dims: u8, n: u8, m: u8) -> bool
    ensures { result ≡ both_held dims n m }
{
    dims <= 4 && n <= MOST_REFERENCES && m <= MOST_REFERENCES
}

// Whether a reference of a window has this offset, from reference `from` on.
fn occurs(o: [i16; 4], window: &Window, from: usize, dims: usize) -> bool
    requires { (window.now.count ≤ 32) × (dims ≤ 4) }
    ensures { result ≡ member (from_on dims window.now from) (front dims o) }
{
    for j in from..window.count as usize {
        let p = offset_of(&window.offsets, j);
        if same_offset(o, p, dims) {
            return true;
        }
    }
    false
}

// Reference i's offset, where the second window's references follow the first's.
fn offset_in(first: &Window, second: &Window, i: usize) -> [i16; 4]
    ensures { result
        ≡ joined first.now.count (offset_in first.now.offsets) (offset_in second.now.offsets) i }
{
    let n = first.count as usize;
    if i < n {
        return offset_of(&first.offsets, i);
    }
    offset_of(&second.offsets, i - n)
}

// Whether one of these references has this offset, from reference `from` on.
#[tactic(auto, using(crate::proofs::UnionLaws::either))]
fn occurs_in_either(o: [i16; 4], first: &Window, second: &Window, from: usize, dims: usize) -> bool
    requires { (first.now.count ≤ 32) × (second.now.count ≤ 32) × (dims ≤ 4) }
    ensures { result ≡ member (both_from_on dims first.now second.now from) (front dims o) }
{
    let behind = from.saturating_sub(first.count as usize);
    occurs(o, first, from, dims) || occurs(o, second, behind, dims)
}

// One more offset behind k others, in so many dimensions; past the thirty-second there is no room.
fn append(to: &mut [i16; 128], k: usize, o: [i16; 4], dims: usize)
    requires { dims ≤ 4 }
    ensures { Appended to.new to.old k (front dims o) }
{
    if 32 <= k {
        return;
    }
    to[4 * k..4 * k + dims].copy_from_slice(&o[..dims]);
}

// Each offset of two windows once, the last of those that are equal: how many there are, and the first 32 of them.
fn gather(first: &Window, second: &Window, dims: usize) -> Window
    requires { (first.now.count ≤ 32) × (second.now.count ≤ 32) × (dims ≤ 4) }
    ensures { result ≡ gathered_of (distinct (both_from_on dims first.now second.now 0)) }
{
    let mut count: u8 = 0;
    let mut offsets = [0i16; 128];
    for i in 0..first.count as usize + second.count as usize {
        let o = offset_in(first, second, i);
        if occurs_in_either(o, first, second, i + 1, dims) {
            continue;
        }
        append(&mut offsets, count as usize, o, dims);
        count += 1;
    }
    Window { count, offsets }
}

// The union of two windows: how many references it has, and the first 32 of them.
#[tactic(auto, using(crate::proofs::UnionLaws::answers))]
fn union_of(dims: u8, first: Window, second: Window) -> Window
    ensures { result ≡ gathered_of (union_in dims first second) }
{
    if !both_held(dims, first.count, second.count) {
        return Window {
            count: 0,
            offsets: [0i16; 128],
        };
    }
    gather(&first, &second, dims as usize)
}

// How many references it has.
pub fn union_count(dims: u8, first: Window, second: Window) -> u8
    ensures { result ≡ length (union_in dims first second) }
{
    union_of(dims, first, second).count
}

// The union as a window; where it has more than 32 references, the blank one.
#[tactic(auto, unfolding(crate::specs::Unions::union_window))]
pub fn union_window(dims: u8, first: Window, second: Window) -> Window
    ensures { result ≡ union_window (union_in dims first second) }
{
    let union = union_of(dims, first, second);
    if MOST_REFERENCES < union.count {
        return Window {
            count: 0,
            offsets: [0i16; 128],
        };
    }
    union
}

// Whether a reference of either window is none of the chain's.
fn lacks(chain: &Window, first: &Window, second: &Window, dims: usize) -> bool
    requires { (chain.now.count ≤ 32) × (first.now.count ≤ 32) × (second.now.count ≤ 32)
        × (dims ≤ 4) }
    ensures { result
        ≡ any (λ o. not (member (from_on dims chain.now 0) o))
        (both_from_on dims first.now second.now 0) }
{
    for i in 0..first.count as usize + second.count as usize {
        let o = offset_in(first, second, i);
        if !occurs(o, chain, 0, dims) {
            return true;
        }
    }
    false
}

// Whether a reference of the chain's is of neither window.
fn exceeds(chain: &Window, first: &Window, second: &Window, dims: usize) -> bool
    requires { (chain.now.count ≤ 32) × (first.now.count ≤ 32) × (second.now.count ≤ 32)
        × (dims ≤ 4) }
    ensures { result
        ≡ any
        (λ o. not
        (member
        (both_from_on dims first.now second.now 0)
        o))
        (from_on dims chain.now 0) }
{
    for k in 0..chain.count as usize {
        let o = offset_of(&chain.offsets, k);
        if !occurs_in_either(o, first, second, 0, dims) {
            return true;
        }
    }
    false
}

// 14: a chain's references are not the union of the windows.
#[tactic(auto, using(crate::proofs::UnionLaws::answers))]
pub fn not_union(dims: u8, chain: Window, first: Window, second: Window) -> bool
    ensures { result ≡ not_union_in dims chain first second }
{
    chain.count <= MOST_REFERENCES
        && both_held(dims, first.count, second.count)
        && (lacks(&chain, &first, &second, dims as usize)
            || exceeds(&chain, &first, &second, dims as usize))
}
