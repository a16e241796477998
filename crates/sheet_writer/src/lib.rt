// Writing a chain sheet, line by line: a line's bytes are made by value, then laid into the lent output; those of an `09`
// line are laid as they are made.

#![tactic(auto)]

mod skewed;

ghost use Rattle.std.specs.Prelude.{◌≡◌, ◌+◌, ◌*◌, ◌/◌, ◌%◌, ◌≤◌, ◌<◌, length, take, get_or, pos};
ghost use Rattle.std.proofs.lemmas.List.Edits.{sets};
ghost use Rattle.model_sheet.specs.Frames.{kept, framed, padded};
ghost use Rattle.model.specs.Values.{dims_of};
ghost use Rattle.model_sheet.specs.Numbers.{half_bytes, word_bytes, pattern};
ghost use Rattle.model_sheet.specs.Writing.{grid_line, index_pair, capacity_line, kernel_line, sheet_of};
ghost use Rattle.sheet_laws.specs.Sections.{grid_row, grid_len, offset_row, box_row, order_row, row_of, len_of, to_capacities};
ghost use Rattle.sheet_laws.specs.Sections.{part_at, lines_behind};
ghost use Rattle.sheet_writer.specs.Laying.{written, lay_of, Counted, RowsFit, HasLength, Inside};

use hexadecimal::{high_digit, low_digit};
use model::{Bounds, Chain, Grid, KEPT, Kernel, Order, Refusal, Window};
use sheet_laws::Part;
use values::dims_of;

// Two and four bytes, most significant first, from byte `at` of a line on.

fn put_half(x: [u8; KEPT], at: usize, w: u16) -> [u8; KEPT]
    requires { at + 1 < kept }
    ensures { result ≡ sets x at (half_bytes w) }
{
    let mut y = x;
    y[at] = (w / 256) as u8;
    y[at + 1] = (w % 256) as u8;
    y
}

fn put_word(x: [u8; KEPT], at: usize, w: u32) -> [u8; KEPT]
    requires { at + 3 < kept }
    ensures { result ≡ sets x at (word_bytes w) }
{
    let mut y = x;
    y[at] = (w / 16777216) as u8;
    y[at + 1] = (w / 65536 % 256) as u8;
    y[at + 2] = (w / 256 % 256) as u8;
    y[at + 3] = (w % 256) as u8;
    y
}

// The rows: all four sizes, entries or pairs of indices, of which a line has as many as there are dimensions, and all 32
// filter numbers, of which it has as many as there are references.

fn grid_row(g: Grid) -> [u8; KEPT]
    ensures { result ≡ padded (grid_row g) }
{
    let s = g.sizes;
    let mut x = [0u8; KEPT];
    x[0] = 1;
    x[1] = g.dims;
    let a = put_word(x, 2, s[0]);
    let b = put_word(a, 6, s[1]);
    let c = put_word(b, 10, s[2]);
    put_word(c, 14, s[3])
}

fn pattern_at(w: Window, i: usize) -> u16
    requires { i < 128 }
    ensures { result ≡ pattern (get_or w.offsets i (pos 0)) }
{
    sheet_fields::pattern_of(w.offsets[i])
}

fn offset_row(w: Window, k: usize) -> [u8; KEPT]
    requires { k < 32 }
    ensures { result ≡ padded (offset_row w k) }
{
    let i = 4 * k;
    let mut x = [0u8; KEPT];
    x[0] = 2;
    let a = put_half(x, 1, pattern_at(w, i));
    let b = put_half(a, 3, pattern_at(w, i + 1));
    let c = put_half(b, 5, pattern_at(w, i + 2));
    put_half(c, 7, pattern_at(w, i + 3))
}

// The lowest and the highest index in dimension d, from byte `at` of a line on.
fn put_pair(x: [u8; KEPT], at: usize, b: Bounds, d: usize) -> [u8; KEPT]
    requires { (at + 7 < kept) × (d < 4) }
    ensures { result ≡ sets x at (index_pair b d) }
{
    let y = put_word(x, at, sheet_fields::word_pattern_of(b.lowest[d]));
    put_word(y, at + 4, sheet_fields::word_pattern_of(b.highest[d]))
}

fn box_row(b: Bounds) -> [u8; KEPT]
    ensures { result ≡ padded (box_row b) }
{
    let mut x = [0u8; KEPT];
    x[0] = 8;
    let p = put_pair(x, 1, b, 0);
    let q = put_pair(p, 9, b, 1);
    let r = put_pair(q, 17, b, 2);
    put_pair(r, 25, b, 3)
}

fn capacity_row(places: u32) -> [u8; KEPT]
    ensures { result ≡ padded (capacity_line places) }
{
    let mut x = [0u8; KEPT];
    x[0] = 3;
    put_word(x, 1, places)
}

fn order_row(o: Order) -> [u8; KEPT]
    ensures { result ≡ padded (order_row o) }
{
    let mut x = [0u8; KEPT];
    x[0] = 6;
    x[1..33].copy_from_slice(&o.filters);
    x
}

fn kernel_row(k: Kernel) -> [u8; KEPT]
    ensures { result ≡ padded (kernel_line k) }
{
    let mut x = [0u8; KEPT];
    x[0] = 4;
    match k {
        Kernel::Raw => x,
        Kernel::Difference => {
            x[1] = 1;
            x
        }
        Kernel::Scaled(f) => {
            x[1] = 2;
            put_word(x, 2, sheet_fields::bits_of(f))
        }
        Kernel::Blend(g) => {
            x[1] = 3;
            let a = put_word(x, 2, sheet_fields::bits_of(g.a));
            put_word(a, 6, sheet_fields::bits_of(g.b))
        }
    }
}

fn kernel_len(k: Kernel) -> usize
    ensures { result ≡ length (kernel_line k) }
{
    match k {
        Kernel::Raw => 2,
        Kernel::Difference => 2,
        Kernel::Scaled(_) => 6,
        Kernel::Blend(_) => 10,
    }
}

fn grid_len(g: Grid) -> usize
    ensures { result ≡ grid_len g }
{
    if g.skewed {
        return 3 + 4 * (g.rows as usize);
    }
    2 + 4 * (g.dims as usize)
}

// The lines between the grid's and the capacities', of a sheet with n offsets: theirs, and the box's where one stands.
fn to_capacities(boxed: bool, n: usize) -> usize
    requires { n ≤ 32 }
    ensures { result ≡ to_capacities boxed n }
{
    if boxed {
        return n + 1;
    }
    n
}

// Where line `m` behind the grid's stands: the sections have n, 1 (0 where no box stands), n - 1, 1 (0 where no order stands)
// and 1 lines;
fn part_at(boxed: bool, ordered: bool, n: usize, m: usize) -> Part
    requires { (n ≤ 32) × (m ≤ 2 * n + 1) }
    ensures { result ≡ part_at boxed ordered n m }
{
    if m < n {
        return Part::Offset(m);
    }
    let ahead = to_capacities(boxed, n);
    if m < ahead {
        return Part::Box;
    }
    let behind = m - ahead;
    if behind + 1 < n {
        return Part::Capacity(behind);
    }
    if n <= behind {
        return Part::Kernel;
    }
    if ordered {
        return Part::Order;
    }
    Part::Kernel
}

// and how many lines there are in all.
fn lines_behind(boxed: bool, ordered: bool, n: usize) -> usize
    requires { n ≤ 32 }
    ensures { result ≡ lines_behind boxed ordered n }
{
    let ahead = to_capacities(boxed, n);
    if ordered {
        return ahead + n + 1;
    }
    ahead + n
}

// How many bytes a line has.
fn line_len(c: &Chain, p: Part) -> usize
    ensures { result ≡ len_of c.now p }
{
    match p {
        Part::Offset(_) => 1 + 2 * (dims_of(c.grid) as usize),
        Part::Box => 1 + 8 * (dims_of(c.grid) as usize),
        Part::Capacity(_) => 5,
        Part::Order => 1 + (c.window.count as usize),
        Part::Kernel => kernel_len(c.kernel),
    }
}

// The row of a line.
fn row(c: &Chain, p: Part) -> [u8; KEPT]
    requires { (c.now.window.count ≤ 32) × Inside c.now.window.count p }
    ensures { result ≡ padded (row_of c.now p) }
{
    match p {
        Part::Offset(k) => offset_row(c.window, k),
        Part::Box => box_row(c.bounds),
        Part::Capacity(k) => capacity_row(c.capacities[k]),
        Part::Order => order_row(c.order),
        Part::Kernel => kernel_row(c.kernel),
    }
}

// The frame of the first `len` bytes of x, from place `at` of the output on; the place behind it.
fn put_frame(out: &mut [u8], at: usize, x: [u8; KEPT], len: usize) -> usize
    requires { (len ≤ kept) × (at + 2 * len + 1 ≤ length out.old) }
    ensures { (result ≡ at + 2 * len + 1) × (out.new ≡ sets out.old at (framed (take len x))) }
{
    for i in 0..len {
        let b = x[i];
        out[at + 2 * i] = high_digit(b);
        out[at + 2 * i + 1] = low_digit(b);
    }
    out[at + 2 * len] = b'\n';
    at + 2 * len + 1
}

fn sheet_len(c: Chain) -> usize
    requires { Counted c }
    ensures { HasLength c result }
{
    let boxed = c.bounds.stood;
    let ordered = c.order.stood;
    let n = c.window.count as usize;
    let lines = lines_behind(boxed, ordered, n);
    let mut total = 2 * grid_len(c.grid) + 1;
    for m in 0..lines {
        let len = line_len(&c, part_at(boxed, ordered, n, m));
        total += 2 * len + 1;
    }
    total
}

// The grid's line, from the first place of the output on; the place behind it.
fn put_grid(out: &mut [u8], g: Grid, rows: &[u32]) -> usize
    requires { (dims_of g ≤ 4) × RowsFit g rows.now × (2 * grid_len g + 1 ≤ length out.old) }
    ensures { (result ≡ 2 * grid_len g + 1)
        × (out.new ≡ sets out.old 0 (framed (grid_line g rows.now))) }
{
    if g.skewed {
        return skewed::put_rows(out, g.rows, rows);
    }
    put_frame(out, 0, grid_row(g), grid_len(g))
}

fn put_sheet(out: &mut [u8], c: Chain, rows: &[u32]) -> usize
    requires { (Counted c) × RowsFit c.grid rows.now × (length (sheet_of c rows.now) ≤ length out.old) }
    ensures { (result ≡ length (sheet_of c rows.now))
        × (out.new ≡ sets out.old 0 (sheet_of c rows.now)) }
{
    let boxed = c.bounds.stood;
    let ordered = c.order.stood;
    let n = c.window.count as usize;
    let lines = lines_behind(boxed, ordered, n);
    let mut at = put_grid(out, c.grid, rows);
    for m in 0..lines {
        let p = part_at(boxed, ordered, n, m);
        let len = line_len(&c, p);
        let x = row(&c, p);
        at = put_frame(out, at, x, len);
    }
    at
}

// A chain sheet into the lent output, and how many bytes it has, or why not: 16 of a skewed grid, the counts' 3 and 4, then
// 12. Nothing else of the chain is judged.
pub fn write_sheet(c: Chain, rows: &[u32], out: &mut [u8]) -> Result<usize, Refusal>
    ensures { written result out.new ≡ lay_of c rows.now out.old }
{
    if skewed::bad_rows(c.grid, rows) {
        return Err(Refusal::BadRows);
    }
    if limits::bad_dims(dims_of(c.grid)) {
        return Err(Refusal::BadGrid);
    }
    if limits::bad_count(c.window.count) {
        return Err(Refusal::BadCount);
    }
    if out.len() < sheet_len(c) {
        return Err(Refusal::ShortOutput);
    }
    Ok(put_sheet(out, c, rows))
}
