// The `09` line of a skewed grid, laid into the output number by number.
ghost use Rattle.std.specs.Prelude.{false, ◌&&◌, ◌≡◌, ◌+◌, ◌*◌, ◌≤◌, ◌<◌, length};
ghost use Rattle.std.proofs.lemmas.List.Edits.{sets};
ghost use Rattle.model_sheet.specs.Frames.{framed, digits_of};
ghost use Rattle.model_sheet.specs.Numbers.{half_bytes};
ghost use Rattle.model.specs.Values.{rows_of};
ghost use Rattle.model.specs.Judging.{bad_rows};
ghost use Rattle.sheet_laws.specs.Sections.{rows_line};

use hexadecimal::{high_digit, low_digit};
use model::Grid;
use numbers::number_at;

// 16, of a skewed grid.
pub(crate) fn bad_rows(g: Grid, rows: &[u32]) -> bool
    ensures { result ≡ (g.skewed && bad_rows (rows_of g.rows rows.now)) }
{
    g.skewed && limits::bad_rows(g.rows, rows)
}

// A number of 2 bytes, from place `at` of the output on; the place behind it.
fn put_number(out: &mut [u8], at: usize, w: u32) -> usize
    requires { (w < 65536) × (at + 4 ≤ length out.old) }
    ensures { (result ≡ at + 4) × (out.new ≡ sets out.old at (digits_of (half_bytes w))) }
{
    let high = (w / 256) as u8;
    let low = (w % 256) as u8;
    out[at] = high_digit(high);
    out[at + 1] = low_digit(high);
    out[at + 2] = high_digit(low);
    out[at + 3] = low_digit(low);
    at + 4
}

// The line of so many rows, from the first place of the output on; the place behind it.
pub(crate) fn put_rows(out: &mut [u8], count: u32, rows: &[u32]) -> usize
    requires { (bad_rows (rows_of count rows.now) ≡ false) × (2 * (3 + 4 * count) + 1 ≤ length out.old) }
    ensures { (result ≡ 2 * (3 + 4 * count) + 1)
        × (out.new ≡ sets out.old 0 (framed (rows_line count rows.now))) }
{
    out[0] = b'0';
    out[1] = b'9';
    let mut at = put_number(out, 2, count);
    for i in 0..2 * (count as usize) {
        at = put_number(out, at, number_at(rows, i));
    }
    out[at] = b'\n';
    at + 1
}
