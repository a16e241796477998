// The clocks of a call whose filters are aligned: every filter moves in each (document 01, "One clock" and "Running").

#![tactic(auto)]

ghost use Rattle.std.specs.Prelude.{List, ◌≡◌, true, false, ℕ, ◌+◌, ◌-◌, ◌*◌, ◌%◌, ◌<◌, ◌≤◌, length};
ghost use Rattle.model_run.specs.Kernels.{width as width_for, terms as terms_of};
ghost use Rattle.model_run.specs.Clock.{Layout};
ghost use Rattle.kernel_terms.specs.FilterTables.{filters_for};
ghost use Rattle.loop_laws.specs.Passes.{step, lent_of, pass_of, heads, FullFifos, InStore};
ghost use Rattle.loop_laws.specs.LoopTables.{walked};
ghost use Rattle.run_glide.specs.declared.Way.TheVariants.{Spent};
ghost use Rattle.run_glide.specs.Glides.{Walks, Blank, Rung, passes_of, fires_of, Starts, Glides, GlidesTo, GoodPlaces};
ghost use Rattle.run_glide.specs.Glides.{InRings, InRows, Sound, Within, Left, ByTest};

use model::{Kernel, MOST_CELLS, Order};

// ---- a clock in which every filter moves

// The place after u in a ring from base up to below top.
fn next_place(u: usize, base: usize, top: usize) -> usize
    requires { u < 18446744073709551615 }
    ensures { result ≡ step base top u }
{
    if u + 1 == top {
        return base;
    }
    u + 1
}

// Every filter moves, where every FIFO is full: a word is read where the next is written.
fn exchange(
    n: usize,
    bases: &[usize; 32],
    tops: &[usize; 32],
    puts: &mut [usize; 32],
    store: &mut [u32],
    word: u32,
    words: &mut [u32],
)
    requires n_nonzero { (0 < n) × (n ≤ 32) × (n ≤ length words.old) }
    requires in_store { InStore (n - 1) puts.old puts.old store.old }
    ensures { lent_of puts.new puts.new store.new words.new
        ≡ pass_of (n - 1) bases.now tops.now word
        (lent_of puts.old puts.old store.old words.old) }
{
    let m = n - 1;
    let mut carry = word;
    for k in 0..m {
        words[k] = carry;
        let u = puts[k];
        let w = store[u];
        store[u] = carry;
        carry = w;
        puts[k] = next_place(u, bases[k], tops[k]);
    }
    words[m] = carry;
}

// Every filter moves: `word` comes in, and the word that passes filter k is written to `words` at k. Where every FIFO is
// full, `gets` is neither read nor kept.
fn pass(
    full: bool,
    n: usize,
    bases: &[usize; 32],
    tops: &[usize; 32],
    puts: &mut [usize; 32],
    gets: &mut [usize; 32],
    store: &mut [u32],
    word: u32,
    words: &mut [u32],
)
    requires n_nonzero { (0 < n) × (n ≤ 32) × (n ≤ length words.old) }
    requires in_store { InStore (n - 1) puts.old (heads full puts.old gets.old) store.old }
    ensures { lent_of puts.new (heads full puts.new gets.new) store.new
        words.new
        ≡ pass_of (n - 1) bases.now tops.now word
        (lent_of puts.old (heads full puts.old gets.old) store.old
        words.old) }
{
    if full {
        exchange(n, bases, tops, puts, store, word, words);
        return;
    }
    let m = n - 1;
    let mut carry = word;
    for k in 0..m {
        words[k] = carry;
        let g = gets[k];
        let u = puts[k];
        let w = store[g];
        store[u] = carry;
        carry = w;
        puts[k] = next_place(u, bases[k], tops[k]);
        gets[k] = next_place(g, bases[k], tops[k]);
    }
    words[m] = carry;
}

// Every filter moves `count` times: the cells from place `from` on come in, and the words of each pass go to `words`, from
// place o on and `step` places behind those of the pass before.
fn pass_all(
    full: bool,
    n: usize,
    bases: &[usize; 32],
    tops: &[usize; 32],
    puts: &mut [usize; 32],
    gets: &mut [usize; 32],
    store: &mut [u32],
    cells: &[u32],
    from: usize,
    count: usize,
    words: &mut [u32],
    o: usize,
    step: usize,
)
    requires rung { Rung n (length store.old) bases.now tops.now puts.old (heads full puts.old gets.old) store.old
        × (from + count ≤ length cells.now) }
    requires step_le_n { (step ≤ n) × (o + count * step + (n - step) ≤ length words.old) }
    ensures { (lent_of puts.new (heads full puts.new gets.new) store.new
        words.new
        ≡ passes_of n step bases.now tops.now cells.now from o count
        (lent_of puts.old (heads full puts.old gets.old) store.old
        words.old))
        × Rung n (length store.old) bases.now tops.now puts.new
        (heads full puts.new gets.new) store.new
        × (length words.new ≡ length words.old) }
{
    let mut at = o;
    for i in 0..count {
        let word = cells[from + i];
        pass(
            full,
            n,
            bases,
            tops,
            puts,
            gets,
            store,
            word,
            &mut words[at..],
        );
        at += step;
    }
}

// So many firings: what the kernel makes of the words that pass goes to `out`, from place o on and `width` places behind that
// of the firing before. `row` is room for the words of a firing, `terms` are the filters that the kernel adds.
fn fire_all(
    full: bool,
    kernel: Kernel,
    centre: u8,
    n: usize,
    bases: &[usize; 32],
    tops: &[usize; 32],
    puts: &mut [usize; 32],
    gets: &mut [usize; 32],
    store: &mut [u32],
    cells: &[u32],
    from: usize,
    count: usize,
    row: &mut [u32; 256],
    out: &mut [u32],
    o: usize,
    terms: &[u8],
    width: usize,
)
    requires rung { Rung n (length store.old) bases.now tops.now puts.old (heads full puts.old gets.old) store.old
        × Blank n row.old × (from + count ≤ length cells.now) }
    requires width_value { (width ≡ width_for kernel n) × (o + count * width ≤ length out.old) }
    ensures { (lent_of puts.new (heads full puts.new gets.new) store.new
        out.new
        ≡ fires_of kernel centre terms.now n width bases.now tops.now cells.now
        from o count (lent_of puts.old (heads full puts.old gets.old) store.old
        out.old))
        × Rung n (length store.old) bases.now tops.now puts.new
        (heads full puts.new gets.new) store.new
        × Blank n row.new × (length out.new ≡ length out.old) }
{
    if let Kernel::Raw = kernel {
        pass_all(
            full, n, bases, tops, puts, gets, store, cells, from, count, out, o, n,
        );
        return;
    }
    let mut at = o;
    for i in 0..count {
        let newest = cells[from + i];
        pass(full, n, bases, tops, puts, gets, store, newest, row);
        kernel::apply(kernel, centre, terms, terms, row, out, at);
        at += width;
    }
}

// How many firings can be made: no more than a, b and c, each of `width` words into `room` places.
fn firings_in(a: usize, b: usize, c: usize, room: usize, width: usize) -> usize
    requires { 0 < width }
    ensures { (result ≤ a) × (result ≤ b) × (result ≤ c) × (result * width ≤ room) × (0 < a → 0 < b → 0 < c → width ≤ room → 0 < result) }
{
    a.min(b).min(c).min(room / width)
}

// ---- where the cells of the next iteration are

// How far the cells that iteration j reads lie behind those of iteration 0.
fn walk(dims: usize, spans: &[usize; 4], strides: &[usize; 4], j: usize) -> usize
    requires { Walks dims spans.now strides.now × (j ≤ 1048576) }
    ensures { (result ≡ walked spans.now strides.now dims 0 j) × (result ≤ 4398046511104) }
{
    let mut sum = 0;
    let mut left = j;
    for d in 0..dims {
        let span = spans[d];
        sum += left / span * strides[d];
        left %= span;
    }
    sum
}

// How many cells lie between filter 0, which is at `position`, and the cell that it wants in iteration `next`; `first` is the
// cell that it wants in iteration 0.
fn wait_for(
    dims: usize,
    spans: &[usize; 4],
    strides: &[usize; 4],
    iterations: usize,
    next: usize,
    first: usize,
    position: usize,
) -> usize
    requires { Walks dims spans.now strides.now × (iterations ≤ 1048576) × (first ≤ 1048576) }
    ensures { next < iterations → position ≤ first + walked spans.now strides.now dims 0 next
        → position + result ≡ first + walked spans.now strides.now dims 0 next }
{
    if iterations <= next {
        return 0;
    }
    let wanted = first + walk(dims, spans, strides, next);
    wanted.saturating_sub(position)
}

// ---- what is handed in

// Whether a ring or one of its two places is out of place: the ring is to end within `room` places.
fn bad_place(base: usize, top: usize, u: usize, g: usize, room: usize) -> bool
    ensures { (result ≡ false → GoodPlaces base top u g room) × (result ≡ true → GoodPlaces base top u g room → ⊥) }
{
    top <= base || top <= u || top <= g || room < top
}

// Whether the places of the FIFOs are.
fn bad_places(
    n: usize,
    bases: &[usize; 32],
    tops: &[usize; 32],
    puts: &[usize; 32],
    gets: &[usize; 32],
    room: usize,
) -> bool
    ensures { (result ≡ false → InRings n room bases.now tops.now puts.now gets.now)
        × (result ≡ true → InRings n room bases.now tops.now puts.now gets.now → ⊥) }
{
    if n == 0 || 32 < n {
        return true;
    }
    for k in 0..n - 1 {
        if bad_place(bases[k], tops[k], puts[k], gets[k], room) {
            return true;
        }
    }
    false
}

// Whether the rows are no grid's, or filter 0 is past the cell that it wants.
fn bad_rows(
    dims: usize,
    spans: &[usize; 4],
    strides: &[usize; 4],
    row: usize,
    iterations: usize,
    first: usize,
    wanted: usize,
    position: usize,
) -> bool
    ensures { (result ≡ false → InRows dims row iterations first wanted position spans.now strides.now)
        × (result ≡ true → InRows dims row iterations first wanted position spans.now strides.now → ⊥) }
{
    if 4 < dims || row == 0 || MOST_CELLS < iterations {
        return true;
    }
    if MOST_CELLS < first || MOST_CELLS < wanted || wanted < position {
        return true;
    }
    for d in 0..dims {
        if spans[d] == 0 || MOST_CELLS < strides[d] {
            return true;
        }
    }
    false
}

// ---- the clocks of aligned filters

#[derive(Clone, Copy)]
pub enum Way {
    Done,
    Spent,
    Starved,
    Full,
}

#[derive(Clone, Copy)]
pub struct Slid {
    pub how: Way,
    pub clocks: usize,
    pub firings: usize,
}

// The clocks of a call whose filters are aligned: every filter moves in each. Filter 0, which is at `position`, has `wait`
// cells before the one that it wants; `first` is what it wants in iteration 0; `left` iterations are left in the row.
fn slide(
    full: bool,
    kernel: Kernel,
    centre: u8,
    n: usize,
    bases: &[usize; 32],
    tops: &[usize; 32],
    dims: usize,
    spans: &[usize; 4],
    strides: &[usize; 4],
    row: usize,
    iterations: usize,
    first: usize,
    position: usize,
    wait0: usize,
    left0: usize,
    fired0: usize,
    puts: &mut [usize; 32],
    gets: &mut [usize; 32],
    store: &mut [u32],
    cells: &[u32],
    out: &mut [u32],
    allowance: usize,
    terms: &[u8],
    width: usize,
) -> Slid
    requires width_value { width ≡ width_for kernel n }
    requires puts_len { (length puts.old ≡ 32) × (length gets.old ≡ 32)
        × InRings n (length store.old) bases.now tops.now puts.old gets.old }
    requires in_rows { InRows dims row iterations first (position + wait0) position spans.now strides.now × (0 < left0) }
    ensures { ((L : Layout) (write : List ℕ → List ℕ) (size : ℕ) (at wants caps passed : List ℕ)
        → Starts full n row fired0 first position wait0 left0 at wants caps passed
        → Glides L write kernel terms.now n row iterations size centre width fired0 dims at wants caps
        bases.now tops.now spans.now strides.now passed puts.old
        gets.old store.old
        → GlidesTo result L write width n iterations size fired0 passed store.old store.new out.old
        out.new cells.now allowance)
        × Within result n width iterations fired0 tops.now store.old store.new out.old
        out.new cells.now allowance }
{
    let mut spare = [0u32; 256];
    let mut fired = fired0;
    let mut wait = wait0;
    let mut left = left0;
    let mut taken = 0;
    let mut o = 0;
    // Each turn makes as many clocks as go one way: those of a wait, or firings up to the end of a row.
    while fired < iterations {
        if taken == allowance {
            return Slid {
                how: Way::Spent,
                clocks: taken,
                firings: fired - fired0,
            };
        }
        if cells.len() <= taken {
            return Slid {
                how: Way::Starved,
                clocks: taken,
                firings: fired - fired0,
            };
        }
        let lent = allowance.min(cells.len()) - taken;
        if 0 < wait {
            let waits = wait.min(lent);
            pass_all(
                full, n, bases, tops, puts, gets, store, cells, taken, waits, &mut spare, 0, 0,
            );
            wait -= waits;
            taken += waits;
            continue;
        }
        let room = out.len() - o;
        if room < width {
            return Slid {
                how: Way::Full,
                clocks: taken,
                firings: fired - fired0,
            };
        }
        let firings = firings_in(left, iterations - fired, lent, room, width);
        fire_all(
            full, kernel, centre, n, bases, tops, puts, gets, store, cells, taken, firings,
            &mut spare, out, o, terms, width,
        );
        o += firings * width;
        fired += firings;
        taken += firings;
        left -= firings;
        if 0 < left {
            continue;
        }
        left = row;
        wait = wait_for(
            dims,
            spans,
            strides,
            iterations,
            fired,
            first,
            position + taken,
        );
    }
    Slid {
        how: Way::Done,
        clocks: taken,
        firings: fired - fired0,
    }
}

// No clock is made. No `None`: `glide` answers whatever it is handed (`Left`).
fn unmoved() -> Slid
    ensures { result ≡ record { how = Spent; clocks = 0; firings = 0 } }
{
    Slid {
        how: Way::Spent,
        clocks: 0,
        firings: 0,
    }
}

// The clocks of a call whose filters are aligned. `full`: each FIFO is full; `order`: the author's order. Tables that are out
// of place make no clock, and nothing changes. Of others that are no layout's these stay open: which clocks fire, the words of
// the firings, and what the store holds before the end of the last FIFO.
pub fn glide(
    full: bool,
    kernel: Kernel,
    centre: u8,
    n: usize,
    at: &[usize; 32],
    wants: &[usize; 32],
    bases: &[usize; 32],
    tops: &[usize; 32],
    dims: usize,
    spans: &[usize; 4],
    strides: &[usize; 4],
    row: usize,
    iterations: usize,
    passed: &[usize; 32],
    fired0: usize,
    puts0: [usize; 32],
    gets0: [usize; 32],
    store: &mut [u32],
    cells: &[u32],
    out: &mut [u32],
    allowance: usize,
    order: Order,
) -> Slid
    ensures { ((L : Layout) (write : List ℕ → List ℕ) (size : ℕ) (caps : List ℕ)
        → (full ≡ true → FullFifos n caps passed.now)
        → Glides L write kernel (terms_of kernel centre (filters_for n order)) n row iterations size centre (width_for kernel n)
        fired0 dims at.now wants.now caps bases.now tops.now spans.now
        strides.now passed.now puts0 gets0 store.old
        → GlidesTo result L write (width_for kernel n) n iterations size fired0 passed.now store.old
        store.new out.old out.new cells.now allowance)
        × ByTest
        (Sound n dims row iterations (length store.old) at.now wants.now
        bases.now tops.now spans.now strides.now passed.now puts0 gets0)
        (Left result store.old store.new out.old out.new)
        (Within result n (width_for kernel n) iterations fired0 tops.now store.old store.new
        out.old out.new cells.now allowance) }
{
    let first = at[0];
    let wanted = wants[0];
    let position = passed[0];
    if bad_rows(
        dims, spans, strides, row, iterations, first, wanted, position,
    ) {
        return unmoved();
    }
    let mut puts = puts0;
    let mut gets = gets0;
    if bad_places(n, bases, tops, &puts, &gets, store.len()) {
        return unmoved();
    }
    let found = kernel_terms::terms_of(kernel, centre, n, order);
    let filters = found.filters;
    slide(
        full,
        kernel,
        centre,
        n,
        bases,
        tops,
        dims,
        spans,
        strides,
        row,
        iterations,
        first,
        position,
        wanted - position,
        row - fired0 % row,
        fired0,
        &mut puts,
        &mut gets,
        store,
        cells,
        out,
        allowance,
        &filters[..found.count],
        kernel_terms::width(kernel, n),
    )
}
