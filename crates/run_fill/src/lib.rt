// The clocks of a call before its filters are aligned (document 01, "One clock" and "Running"): none of them fires.

#![tactic(auto)]

ghost use Rattle.std.specs.Prelude.{List, ◌≡◌, true, false, ℕ, suc, ◌+◌, ◌-◌, ◌*◌, ◌%◌, ◌<◌, ◌≤◌, length, get_or};
ghost use Rattle.model_run.specs.Clock.{Layout, turn as turn_of};
ghost use Rattle.loop_laws.specs.Passes.{of, step, FullFifos};
ghost use Rattle.loop_laws.specs.Sweeps.{source, Lined, Ringed, word_at, gets_on, PutOn, Turns, room_for, room_at, room_goes};
ghost use Rattle.loop_laws.specs.Sweeps.{Goes, Again, Movers, Keeps, InPlace, Going, Gone};
ghost use Rattle.loop_laws.specs.LoopTables.{Fills};
ghost use Rattle.run_fill.specs.declared.Stop.TheVariants.{Stalled};
ghost use Rattle.run_fill.specs.Fills.{Placing, Fillable, FillsTo, GoodCounter, GoodRing, Counted, Housed, Sound};
ghost use Rattle.run_fill.specs.Fills.{Handed, Left, once, ByTest};

use model::{MOST_CELLS, MOST_PLACES};

// The place after u in a ring from base up to below top.
fn next_place(u: usize, base: usize, top: usize) -> usize
    requires { u < 18446744073709551615 }
    ensures { result ≡ step base top u }
{
    if u + 1 == top {
        return base;
    }
    u + 1
}

// ---- who moves in a clock without firing

// How far a filter is after its turn.
#[tactic(auto, using(loop_laws::proofs::SweepLaws::turn_absent, loop_laws::proofs::SweepLaws::turn_wanted, loop_laws::proofs::SweepLaws::turn_full, loop_laws::proofs::SweepLaws::turn_goes))]
fn turn(src: usize, w: usize, b: usize, p: usize) -> usize
    requires { p ≤ 1048576 }
    ensures { result ≡ turn_of src w b p }
{
    if src <= p {
        return p;
    }
    if p == w {
        return p;
    }
    if b <= p {
        return p;
    }
    p + 1
}

// The source of filter k.
fn source_of(ps: &[usize; 32], k: usize, size: usize) -> usize
    requires { k < 32 }
    ensures { result ≡ source size ps.now k }
{
    if k == 0 {
        return size;
    }
    ps[k - 1]
}

// The first position that filter k, at p, could not pass on for want of a place; the filter behind it is at q after its turn.
fn room_for(n: usize, k: usize, cap: usize, p: usize, q: usize) -> usize
    requires { (k < 32) × (p ≤ 1048576) × (k + 1 < n → q + cap < 18446744073709551616) }
    ensures { result ≡ room_for n k cap p q }
{
    if k + 1 < n {
        return q + cap;
    }
    p + 1
}

// Which filters move in a clock without firing, looked at from the last to the first: `goes` has 1 for those that do, and 0
// for the others. Tells how many they are.
fn movers(
    n: usize,
    wants: &[usize; 32],
    caps: &[usize; 32],
    size: usize,
    ps: &[usize; 32],
    goes: &mut [usize; 32],
) -> usize
    requires n_bound { (n ≤ 32) × (length goes.old ≡ 32) }
    requires by_index { (k : ℕ) → k < n → get_or ps.now k 0 ≤ 1048576 }
    requires by_index_2 { (k : ℕ) → suc k < n → get_or caps.now k 0 ≤ 16384 }
    ensures { (length goes.new ≡ 32)
        × Goes n size (of wants.now) (of caps.now) (of goes.new) (of ps.now)
        × Movers n goes.new result }
{
    let mut count = 0;
    let mut behind = 0;
    for k in (0..n).rev() {
        let p = ps[k];
        let src = source_of(ps, k, size);
        let b = room_for(n, k, caps[k], p, behind);
        let next = turn(src, wants[k], b, p);
        let g = next - p;
        goes[k] = g;
        count += g;
        behind = next;
    }
    count
}

// ---- how long they do

// No more than t, and where g is 0 no more than d.
fn bounded(t: usize, g: usize, d: usize) -> usize
    ensures { (result ≤ t) × (g ≡ 0 → result ≤ d) × (0 < t → (g ≡ 0 → 0 < d) → 0 < result) }
{
    if g == 0 {
        return t.min(d);
    }
    t
}

// For how many clocks, at most `most`, a filter at p keeps to what it does: it goes g cells on in a clock. It wants cell w;
// its source is at s and goes sg on, the first position without a place is b before the clock and goes bg on.
fn keeps(
    g: usize,
    p: usize,
    w: usize,
    s: usize,
    sg: usize,
    b: usize,
    bg: usize,
    most: usize,
) -> usize
    requires { (p ≤ w) × (p ≤ s) × (p ≤ b) }
    ensures { sg ≤ 1 → bg ≤ 1 → p + g ≡ turn_of s w (b + bg) p → 0 < most
        → (0 < result) × (result ≤ most) × Keeps g p w s sg b bg result }
{
    if g == 0 {
        if p == w {
            return most;
        }
        if sg == 0 {
            return most;
        }
        if p < s {
            return most;
        }
        return 1;
    }
    let t = most.min(w - p);
    let u = bounded(t, sg, s - p);
    bounded(u, bg, b - p)
}

// The first position that filter k could not pass on before the clock; the last filter's is its own.
fn room_at(ps: &[usize; 32], caps: &[usize; 32], n: usize, k: usize) -> usize
    requires k_lt_n { (k < n) × (n ≤ 32) }
    requires by_index { (i : ℕ) → i < n → get_or ps.now i 0 ≤ 1048576 }
    requires by_index_2 { (i : ℕ) → suc i < n → get_or caps.now i 0 ≤ 16384 }
    ensures { result
        ≡ room_at n k (get_or caps.now k 0) (get_or ps.now k 0) (get_or ps.now (suc k) 0) }
{
    if k + 1 < n {
        return ps[k + 1] + caps[k];
    }
    ps[k]
}

// How far it goes on.
fn room_goes(goes: &[usize; 32], n: usize, k: usize) -> usize
    requires { (k < n) × (n ≤ 32) }
    ensures { result ≡ room_goes n k (get_or goes.now (suc k) 0) }
{
    if k + 1 < n {
        return goes[k + 1];
    }
    1
}

// For how many clocks, at most `most`, the same filters move.
fn span(
    n: usize,
    wants: &[usize; 32],
    caps: &[usize; 32],
    size: usize,
    ps: &[usize; 32],
    goes: &[usize; 32],
    most: usize,
) -> usize
    requires n_bound { (n ≤ 32) × InPlace n size (of wants.now) (of caps.now) (of ps.now) }
    requires by_index { (k : ℕ) → k < n → get_or ps.now k 0 ≤ 1048576 }
    requires by_index_2 { (k : ℕ) → suc k < n → get_or caps.now k 0 ≤ 16384 }
    ensures { Goes n size (of wants.now) (of caps.now) (of goes.now)
        (of ps.now) → 0 < most
        → (0 < result) × (result ≤ most)
        × Again n size (of wants.now) (of caps.now) (of goes.now) (of ps.now) result }
{
    let mut t = most;
    let mut s = size;
    let mut sg = 0;
    for k in 0..n {
        let p = ps[k];
        let g = goes[k];
        let b = room_at(ps, caps, n, k);
        let bg = room_goes(goes, n, k);
        t = keeps(g, p, wants[k], s, sg, b, bg, t);
        s = p;
        sg = g;
    }
    t
}

// ---- a clock without firing

// The word that filter k is presented; the head of the FIFO before it is then its next cell.
fn word_for(
    k: usize,
    word: u32,
    bases: &[usize; 32],
    tops: &[usize; 32],
    gets: &mut [usize; 32],
    store: &[u32],
) -> u32
    requires { (k < 32) × (length gets.old ≡ 32) × ((k ≡ 0 → ⊥) → get_or gets.old (k - 1) 0 < length store.now) }
    ensures { (result ≡ word_at k word gets.old store.now)
        × (gets.new ≡ gets_on k bases.now tops.now gets.old) }
{
    if k == 0 {
        return word;
    }
    let i = k - 1;
    let g = gets[i];
    gets[i] = next_place(g, bases[i], tops[i]);
    store[g]
}

// Filter k puts its word into the FIFO behind it.
fn put_on(
    n: usize,
    k: usize,
    word: u32,
    bases: &[usize; 32],
    tops: &[usize; 32],
    puts: &mut [usize; 32],
    store: &mut [u32],
)
    requires { (k < n) × (n ≤ 32) × (length puts.old ≡ 32) × (k + 1 < n → get_or puts.old k 0 < length store.old) }
    ensures { PutOn n k word bases.now tops.now puts.old puts.new
        store.old store.new }
{
    if n <= k + 1 {
        return;
    }
    let u = puts[k];
    store[u] = word;
    puts[k] = next_place(u, bases[k], tops[k]);
}

// A clock without firing: the filters of `goes` move, from the last to the first; `word` is the cell that filter 0 is presented.
fn go(
    n: usize,
    goes: &[usize; 32],
    bases: &[usize; 32],
    tops: &[usize; 32],
    word: u32,
    ps: &mut [usize; 32],
    puts: &mut [usize; 32],
    gets: &mut [usize; 32],
    store: &mut [u32],
)
    requires { Going n goes.now bases.now tops.now ps.old puts.old gets.old store.old }
    ensures { (c : ℕ → ℕ) (cells : ℕ) (wants caps : List ℕ)
        → Turns c n bases.now tops.now caps ps.old puts.old gets.old
        store.old
        → Goes n cells (of wants) (of caps) (of goes.now) (of ps.old)
        → Gone c n cells word wants bases.now caps goes.now ps.old ps.new
        puts.new gets.new store.old store.new }
{
    for k in (0..n).rev() {
        if goes[k] == 0 {
            continue;
        }
        let x = word_for(k, word, bases, tops, gets, store);
        put_on(n, k, x, bases, tops, puts, store);
        ps[k] += 1;
    }
}

// ---- the clocks before the filters are aligned

// Whether each FIFO holds as many cells as its two references are apart, and one at least.
fn lined(n: usize, at: &[usize; 32], ps: &[usize; 32]) -> bool
    requires n_bound { n ≤ 32 }
    requires by_index { (k : ℕ) → k < n → get_or ps.now k 0 ≤ 1048576 }
    requires by_index_2 { (k : ℕ) → k < n → get_or at.now k 0 ≤ 1048576 }
    ensures { (result ≡ true → Lined n at.now ps.now)
        × (result ≡ false → Lined n at.now ps.now → ⊥) }
{
    for k in 0..n.saturating_sub(1) {
        let p = ps[k];
        let q = ps[k + 1];
        if p <= q || p + at[k + 1] != q + at[k] {
            return false;
        }
    }
    true
}

// Why the clocks stopped.
#[derive(Clone, Copy)]
pub enum Stop {
    Aligned,
    Spent,
    Starved,
    Stalled,
}

#[derive(Clone, Copy)]
struct Stopped {
    how: Stop,
    taken: usize,
    clocks: usize,
}

// How many clocks can be made, where filter 0 takes `first` cells in each.
fn reach(first: usize, cells: usize, allowance: usize) -> usize
    ensures { (0 < cells → 0 < allowance → 0 < result) × (result ≤ allowance) × ((first ≡ 0 → ⊥) → result ≤ cells) }
{
    if first == 0 {
        return allowance;
    }
    cells.min(allowance)
}

// The clocks of a call until its filters are found aligned. None of them fires: in each a filter moves that is not where it
// is wanted.
fn until_aligned(
    n: usize,
    at: &[usize; 32],
    wants: &[usize; 32],
    caps: &[usize; 32],
    bases: &[usize; 32],
    tops: &[usize; 32],
    size: usize,
    passed: &mut [usize; 32],
    puts: &mut [usize; 32],
    gets: &mut [usize; 32],
    store: &mut [u32],
    cells: &[u32],
    allowance: usize,
) -> Stopped
    requires { Fillable n size at.now wants.now caps.now bases.now tops.now passed.old puts.old gets.old
        store.old }
    ensures { (L : Layout) (walk : ℕ → ℕ) (iterations fired : ℕ)
        → Fills L walk n size iterations fired at.now wants.now caps.now bases.now
        tops.now passed.old puts.old gets.old store.old
        → FillsTo result.how result.taken result.clocks L n fired at.now caps.now bases.now
        passed.old passed.new puts.new gets.new store.old
        store.new cells.now allowance }
{
    let mut taken = 0;
    let mut clocks = 0;
    // Each time round makes the t clocks in which the same filters move, and t is found on the way.
    while clocks < allowance {
        if cells.len() <= taken {
            return Stopped {
                how: Stop::Starved,
                taken,
                clocks,
            };
        }
        if lined(n, at, passed) {
            return Stopped {
                how: Stop::Aligned,
                taken,
                clocks,
            };
        }
        let mut goes = [0usize; 32];
        if movers(n, wants, caps, size, passed, &mut goes) == 0 {
            return Stopped {
                how: Stop::Stalled,
                taken,
                clocks,
            };
        }
        let first = goes[0];
        let most = reach(first, cells.len() - taken, allowance - clocks);
        let t = span(n, wants, caps, size, passed, &goes, most);
        for _ in 0..t {
            go(
                n,
                &goes,
                bases,
                tops,
                cells[taken],
                passed,
                puts,
                gets,
                store,
            );
            taken += first;
        }
        clocks += t;
    }
    Stopped {
        how: Stop::Spent,
        taken,
        clocks,
    }
}

// ---- the places

// The place of position q in a FIFO. One of a single place, or of none, needs no remainder.
fn place(base: usize, cap: usize, q: usize) -> usize
    requires { base + cap < 18446744073709551616 }
    ensures { (0 < cap → result ≡ base + q % cap) × (result ≤ base + cap) }
{
    if cap <= 1 {
        return base;
    }
    base + q % cap
}

// The place `held` cells behind u in a ring of `cap` places up to below top.
fn place_behind(u: usize, held: usize, cap: usize, top: usize) -> usize
    requires { (u ≤ top) × (held ≤ cap) × (cap ≤ top) × (top + cap < 18446744073709551616) }
    ensures { (base q : ℕ) → 0 < cap → top ≡ base + cap → u ≡ base + q % cap → result ≡ base + (q + held) % cap }
{
    let v = u + held;
    if v < top {
        return v;
    }
    v - cap
}

// The ring places of each FIFO: where its head lies, and where its next cell goes.
fn places(
    n: usize,
    bases: &[usize; 32],
    tops: &[usize; 32],
    caps: &[usize; 32],
    ps: &[usize; 32],
    puts: &mut [usize; 32],
    gets: &mut [usize; 32],
)
    requires { Placing n bases.now tops.now caps.now ps.now puts.old gets.old }
    ensures { (length puts.new ≡ 32) × (length gets.new ≡ 32)
        × Ringed n bases.now caps.now ps.now puts.new gets.new }
{
    for k in 0..n.saturating_sub(1) {
        let q = ps[k + 1];
        let held = ps[k] - q;
        let cap = caps[k];
        let g = place(bases[k], cap, q);
        puts[k] = place_behind(g, held, cap, tops[k]);
        gets[k] = g;
    }
}

// ---- what is found after the clocks

// Whether each FIFO is full.
fn full_fifos(n: usize, caps: &[usize; 32], passed: &[usize; 32]) -> bool
    ensures { (result ≡ true → FullFifos n caps.now passed.now)
        × (n ≤ 32 → result ≡ false → FullFifos n caps.now passed.now → ⊥) }
{
    if 32 < n {
        return false;
    }
    for k in 0..n.saturating_sub(1) {
        let p = passed[k];
        let q = passed[k + 1];
        if p < q || p - q != caps[k] {
            return false;
        }
    }
    true
}

// ---- what is handed in

// Whether a filter at p is out of place: it is to want cell x, a cell of the stream, which lies w behind cell a; and it is
// past neither that nor its source.
fn bad_counter(source: usize, size: usize, w: usize, a: usize, x: usize, p: usize) -> bool
    ensures { (result ≡ false → GoodCounter source size w a x p) × (result ≡ true → GoodCounter source size w a x p → ⊥) }
{
    size <= x || x < a || x - a != w || x < p || source < p
}

// Whether a FIFO of c places is out of place: it is to begin at `from` and to end at `top`, within `room` places; and the
// filters p and q beside it have no more than c cells between them.
fn bad_ring(from: usize, room: usize, c: usize, base: usize, top: usize, p: usize, q: usize) -> bool
    ensures { (result ≡ false → GoodRing from room c base top p q) × (result ≡ true → GoodRing from room c base top p q → ⊥) }
{
    MOST_PLACES < c
        || base != from
        || top < base
        || top - base != c
        || room < top
        || c < p.saturating_sub(q)
}

// Whether the counters or the wanted cells are out of place.
fn bad_counters(
    n: usize,
    at: &[usize; 32],
    wants: &[usize; 32],
    size: usize,
    ps: &[usize; 32],
) -> bool
    ensures { (result ≡ false → Counted n size at.now wants.now ps.now)
        × (result ≡ true → Counted n size at.now wants.now ps.now → ⊥) }
{
    if n == 0 || 32 < n || MOST_CELLS < size {
        return true;
    }
    let a = at[0];
    let x = wants[0];
    if x < a {
        return true;
    }
    let w = x - a;
    let mut source = size;
    for k in 0..n {
        let p = ps[k];
        if bad_counter(source, size, w, at[k], wants[k], p) {
            return true;
        }
        source = p;
    }
    false
}

// Whether the places of the FIFOs are.
fn bad_rings(
    n: usize,
    caps: &[usize; 32],
    bases: &[usize; 32],
    tops: &[usize; 32],
    ps: &[usize; 32],
    room: usize,
) -> bool
    requires { n ≤ 32 }
    ensures { (result ≡ false
        → Housed n room caps.now bases.now tops.now ps.now)
        × (result ≡ true → Housed n room caps.now bases.now tops.now ps.now → ⊥) }
{
    let mut from = 0;
    for k in 0..n.saturating_sub(1) {
        let top = tops[k];
        if bad_ring(from, room, caps[k], bases[k], top, ps[k], ps[k + 1]) {
            return true;
        }
        from = top;
    }
    false
}

// What the clocks leave: how they stopped, the cells that they took, how many they were, the counters, and whether each FIFO
// is full.
#[derive(Clone, Copy)]
pub struct Filled {
    pub how: Stop,
    pub taken: usize,
    pub clocks: usize,
    pub passed: [usize; 32],
    pub full: bool,
}

// No clock is made. No `None`: `fill` answers whatever it is handed (`Left`).
fn unmoved(counters: [usize; 32]) -> Filled
    ensures { result ≡ record { how = Stalled; taken = 0; clocks = 0; passed = counters; full = false } }
{
    Filled {
        how: Stop::Stalled,
        taken: 0,
        clocks: 0,
        passed: counters,
        full: false,
    }
}

// The clocks of a call until its filters are found aligned. Tables that are out of place make no clock, and nothing changes;
// all others are those of a layout of one iteration (`once`). Open are: in which of the clocks with aligned filters it stops,
// and the entries of `puts` and `gets` past the n - 1 FIFOs, or of one without a place.
pub fn fill(
    n: usize,
    at: &[usize; 32],
    wants: &[usize; 32],
    caps: &[usize; 32],
    bases: &[usize; 32],
    tops: &[usize; 32],
    size: usize,
    counters: [usize; 32],
    puts: &mut [usize; 32],
    gets: &mut [usize; 32],
    store: &mut [u32],
    cells: &[u32],
    allowance: usize,
) -> Filled
    ensures { ((L : Layout) (walk : ℕ → ℕ) (iterations fired : ℕ)
        → Handed L walk n size iterations fired at.now wants.now caps.now
        bases.now tops.now counters store.old
        → FillsTo result.how result.taken result.clocks L n fired at.now caps.now bases.now
        counters result.passed puts.new gets.new store.old store.new
        cells.now allowance)
        × ByTest
        (Sound n size (length store.old) at.now wants.now caps.now
        bases.now tops.now counters)
        (Left result counters puts.old puts.new gets.old gets.new store.old
        store.new)
        (FillsTo result.how result.taken result.clocks (once n size wants.now caps.now) n 0
        at.now caps.now bases.now counters result.passed puts.new
        gets.new store.old store.new cells.now allowance
        × (result.full ≡ false → FullFifos n caps.now result.passed → ⊥))
        × (result.full ≡ true → FullFifos n caps.now result.passed) }
{
    let mut passed = counters;
    if bad_counters(n, at, wants, size, &passed) {
        return unmoved(counters);
    }
    if bad_rings(n, caps, bases, tops, &passed, store.len()) {
        return unmoved(counters);
    }
    *puts = [0usize; 32];
    *gets = [0usize; 32];
    places(n, bases, tops, caps, &passed, puts, gets);
    let s = until_aligned(
        n,
        at,
        wants,
        caps,
        bases,
        tops,
        size,
        &mut passed,
        puts,
        gets,
        store,
        cells,
        allowance,
    );
    let full = full_fifos(n, caps, &passed);
    Filled {
        how: s.how,
        taken: s.taken,
        clocks: s.clocks,
        passed,
        full,
    }
}
