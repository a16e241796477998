// A state, a chain, the rows beside it and a window of a pair as words (specs/Words.antt).

#![tactic(auto)]

ghost use Rattle.std.specs.Prelude.{◌≡◌, ◌+◌, ◌%◌, ◌≤◌, ◌<◌, length};
ghost use Rattle.model.specs.Lists.{tabulate};
ghost use Rattle.zohmirka_words.specs.Words.{word_at, state_in, state_into, kernel_words, box_word, chain_word, chain_into};
ghost use Rattle.zohmirka_words.specs.Words.{count_in, kernel_in, order_in, indices_in, bounds_in, chain_in, row_places};
ghost use Rattle.zohmirka_words.specs.Words.{offsets_in, side_in, rows_into};

use model::{
    Bounds, CellsPassed, Chain, Factors, FiringsMade, Grid, Kernel, Order, Side, State, Window,
};
use numbers::number_at;

// The state of its words.
pub fn state_in(words: &[u32]) -> State
    ensures { result ≡ state_in words.now }
{
    let mut passed = [CellsPassed(0); 32];
    if words.len() < 33 {
        return State {
            passed,
            fired: FiringsMade(4294967295),
        };
    }
    for k in 0..32 {
        passed[k] = CellsPassed(words[k]);
    }
    State {
        passed,
        fired: FiringsMade(words[32]),
    }
}

// The words of a state.
pub fn state_out(state: State, words: &mut [u32])
    ensures { words.new ≡ state_into state words.old }
{
    if words.len() < 33 {
        return;
    }
    for k in 0..32 {
        words[k] = state.passed[k].0;
    }
    words[32] = state.fired.0;
}

fn count_in(w: u32) -> u8
    ensures { result ≡ count_in w }
{
    w.min(255) as u8
}

fn low_half(w: u32) -> u16
    ensures { result ≡ w % 65536 }
{
    (w % 65536) as u16
}

fn kernel_in(which: u32, a: u32, b: u32) -> Kernel
    ensures { result ≡ kernel_in which a b }
{
    if which == 0 {
        return Kernel::Raw;
    }
    if which == 1 {
        return Kernel::Difference;
    }
    if which == 2 {
        return Kernel::Scaled(kernel_words::float_of(a));
    }
    if which == 3 {
        return Kernel::Blend(Factors {
            a: kernel_words::float_of(a),
            b: kernel_words::float_of(b),
        });
    }
    Kernel::Scaled(kernel_words::float_of(0x7FC00000))
}

// The entries of a window from a word on.
fn offsets_in(words: &[u32], from: usize) -> [i16; 128]
    requires { from + 128 ≤ length words.now }
    ensures { result ≡ offsets_in words.now from }
{
    let mut offsets = [0i16; 128];
    for i in 0..128 {
        offsets[i] = sheet_fields::entry(low_half(words[from + i]));
    }
    offsets
}

fn capacities_in(words: &[u32]) -> [u32; 31]
    requires { 212 ≤ length words.now }
    ensures { result ≡ tabulate 31 (λ k. word_at words.now (134 + k)) }
{
    let mut capacities = [0u32; 31];
    capacities.copy_from_slice(&words[134..165]);
    capacities
}

fn order_in(words: &[u32]) -> Order
    requires { 212 ≤ length words.now }
    ensures { result ≡ order_in words.now }
{
    let mut filters = [0u8; 32];
    for t in 0..32 {
        filters[t] = count_in(words[169 + t]);
    }
    Order {
        stood: words[168] != 0,
        filters,
    }
}

// The four indices of a box from a word on.
fn indices_in(words: &[u32], from: usize) -> [i32; 4]
    requires { from + 4 ≤ length words.now }
    ensures { result ≡ indices_in words.now from }
{
    [
        sheet_fields::index(words[from]),
        sheet_fields::index(words[from + 1]),
        sheet_fields::index(words[from + 2]),
        sheet_fields::index(words[from + 3]),
    ]
}

fn bounds_in(words: &[u32]) -> Bounds
    requires { 212 ≤ length words.now }
    ensures { result ≡ bounds_in words.now }
{
    Bounds {
        stood: words[201] != 0,
        lowest: indices_in(words, 202),
        highest: indices_in(words, 206),
    }
}

// The chain of its words; its rows are lent beside it.
pub fn chain_in(words: &[u32]) -> Chain
    ensures { result ≡ chain_in words.now }
{
    if words.len() < 212 {
        return values::blank_chain();
    }
    let grid = Grid {
        skewed: words[210] != 0,
        rows: words[211],
        dims: count_in(words[0]),
        sizes: [words[1], words[2], words[3], words[4]],
    };
    let window = Window {
        count: count_in(words[5]),
        offsets: offsets_in(words, 6),
    };
    Chain {
        grid,
        window,
        bounds: bounds_in(words),
        capacities: capacities_in(words),
        order: order_in(words),
        kernel: kernel_in(words[165], words[166], words[167]),
    }
}

// A window of a pair of its words.
pub fn side_in(words: &[u32]) -> Side
    ensures { result ≡ side_in words.now }
{
    if words.len() < 132 {
        return Side {
            window: Window {
                count: 0,
                offsets: [0i16; 128],
            },
            kernel: Kernel::Raw,
        };
    }
    let window = Window {
        count: count_in(words[0]),
        offsets: offsets_in(words, 1),
    };
    Side {
        window,
        kernel: kernel_in(words[129], words[130], words[131]),
    }
}

fn kernel_words(k: Kernel) -> [u32; 3]
    ensures { result ≡ kernel_words k }
{
    match k {
        Kernel::Raw => [0, 0, 0],
        Kernel::Difference => [1, 0, 0],
        Kernel::Scaled(f) => [2, kernel_words::word_of(f), 0],
        Kernel::Blend(g) => [3, kernel_words::word_of(g.a), kernel_words::word_of(g.b)],
    }
}

// Word i of a chain, of those before its order.
fn chain_word(c: &Chain, i: usize) -> u32
    requires { i < 168 }
    ensures { result ≡ chain_word c.now i }
{
    if i < 1 {
        return c.grid.dims as u32;
    }
    if i < 5 {
        return c.grid.sizes[i - 1];
    }
    if i < 6 {
        return c.window.count as u32;
    }
    if i < 134 {
        return sheet_fields::pattern_of(c.window.offsets[i - 6]) as u32;
    }
    if i < 165 {
        return c.capacities[i - 134];
    }
    let last = kernel_words(c.kernel);
    last[i - 165]
}

// Word i of a box.
fn box_word(b: &Bounds, i: usize) -> u32
    requires { i < 9 }
    ensures { result ≡ box_word b.now i }
{
    if i < 1 {
        return b.stood as u32;
    }
    if i < 5 {
        return sheet_fields::word_pattern_of(b.lowest[i - 1]);
    }
    sheet_fields::word_pattern_of(b.highest[i - 5])
}

// The words of a chain.
pub fn chain_out(c: Chain, words: &mut [u32])
    ensures { words.new ≡ chain_into c words.old }
{
    if words.len() < 212 {
        return;
    }
    for i in 0..168 {
        words[i] = chain_word(&c, i);
    }
    words[168] = c.order.stood as u32;
    for t in 0..32 {
        words[169 + t] = c.order.filters[t] as u32;
    }
    for d in 0..9 {
        words[201 + d] = box_word(&c.bounds, d);
    }
    words[210] = c.grid.skewed as u32;
    words[211] = c.grid.rows;
}

// How many numbers the rows of a grid have.
pub fn row_places(g: Grid) -> usize
    ensures { result ≡ row_places g }
{
    if g.skewed {
        return 2 * (g.rows as usize);
    }
    0
}

// The numbers of a grid's rows.
pub fn rows_out(g: Grid, numbers: &[u32], rows: &mut [u32])
    ensures { rows.new ≡ rows_into g numbers.now rows.old }
{
    let places = row_places(g);
    if rows.len() < places {
        return;
    }
    for i in 0..places {
        rows[i] = number_at(numbers, i);
    }
}
