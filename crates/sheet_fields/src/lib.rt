// What stands on a line: its numbers from the line's bytes, and the patterns that are written for an entry, an index and a
// factor.

#![tactic(auto)]

ghost use Rattle.std.specs.Prelude.{◌≡◌, ◌+◌, ◌*◌};
ghost use Rattle.std.specs.Float.Ieee.{of_bits, to_bits};
ghost use Rattle.std.specs.Float.{binary32};
ghost use Rattle.model_sheet.specs.Numbers.{half_at, word_at, signed, pattern, signed_word, word_pattern};
ghost use Rattle.model_sheet.specs.Reading.{sizes_in, entries_in, lowest_in, highest_in, filters_in, kernel_in};

use model::{Factors, KEPT, Kernel};

// Four bytes, most significant first.
fn word(a: u8, b: u8, c: u8, d: u8) -> u32
    ensures { result ≡ a * 16777216 + b * 65536 + c * 256 + d }
{
    (a as u32) * 16777216 + (b as u32) * 65536 + (c as u32) * 256 + (d as u32)
}

// Two bytes, most significant first.
fn half(a: u8, b: u8) -> u16
    ensures { result ≡ a * 256 + b }
{
    (a as u16) * 256 + (b as u16)
}

// 16 bits in two's complement.
pub fn entry(w: u16) -> i16
    ensures { result ≡ signed w }
{
    if w < 32768 {
        return w as i16;
    }
    (w as i32 - 65536) as i16
}

// 32 bits in two's complement.
pub fn index(w: u32) -> i32
    ensures { result ≡ signed_word w }
{
    if w < 2147483648 {
        return w as i32;
    }
    (w as i64 - 4294967296) as i32
}

// The float of its bits; one for all the patterns that are not a number.
fn factor(w: u32) -> f32
    ensures { result ≡ of_bits binary32 w }
{
    if 0x7F80_0000 < w % 0x8000_0000 {
        let z = 0.0f32;
        return z / z;
    }
    f32::from_bits(w)
}

// The sizes on an `01` line, 0 past its end.
pub fn sizes_in(x: [u8; KEPT]) -> [u32; 4]
    ensures { result ≡ sizes_in x }
{
    [
        word(x[2], x[3], x[4], x[5]),
        word(x[6], x[7], x[8], x[9]),
        word(x[10], x[11], x[12], x[13]),
        word(x[14], x[15], x[16], x[17]),
    ]
}

// The row count on an `09` line.
pub fn row_count_in(x: [u8; KEPT]) -> u32
    ensures { result ≡ half_at x 1 }
{
    half(x[1], x[2]) as u32
}

// The entries on an `02` line, 0 past its end.
pub fn entries_in(x: [u8; KEPT]) -> [i16; 4]
    ensures { result ≡ entries_in x }
{
    [
        entry(half(x[1], x[2])),
        entry(half(x[3], x[4])),
        entry(half(x[5], x[6])),
        entry(half(x[7], x[8])),
    ]
}

// The lowest indices on an `08` line, 0 past its end,
pub fn lowest_in(x: [u8; KEPT]) -> [i32; 4]
    ensures { result ≡ lowest_in x }
{
    [
        index(word(x[1], x[2], x[3], x[4])),
        index(word(x[9], x[10], x[11], x[12])),
        index(word(x[17], x[18], x[19], x[20])),
        index(word(x[25], x[26], x[27], x[28])),
    ]
}

// and the highest.
pub fn highest_in(x: [u8; KEPT]) -> [i32; 4]
    ensures { result ≡ highest_in x }
{
    [
        index(word(x[5], x[6], x[7], x[8])),
        index(word(x[13], x[14], x[15], x[16])),
        index(word(x[21], x[22], x[23], x[24])),
        index(word(x[29], x[30], x[31], x[32])),
    ]
}

// The capacity on an `03` line, or the cell on an `05` line.
pub fn word_in(x: [u8; KEPT]) -> u32
    ensures { result ≡ word_at x 1 }
{
    word(x[1], x[2], x[3], x[4])
}

// The filter numbers of n terms on an `06` line, 0 past the last.
pub fn filters_in(x: [u8; KEPT], n: u8) -> [u8; 32]
    ensures { result ≡ filters_in n x }
{
    let terms = (n as usize).min(32);
    let mut filters = [0u8; 32];
    filters[..terms].copy_from_slice(&x[1..1 + terms]);
    filters
}

// The kernel on an `04` line.
pub fn kernel_in(x: [u8; KEPT]) -> Kernel
    ensures { result ≡ kernel_in x }
{
    let which = x[1];
    if which == 0 {
        return Kernel::Raw;
    }
    if which == 1 {
        return Kernel::Difference;
    }
    let a = factor(word(x[2], x[3], x[4], x[5]));
    if which == 2 {
        return Kernel::Scaled(a);
    }
    let b = factor(word(x[6], x[7], x[8], x[9]));
    Kernel::Blend(Factors { a, b })
}

// An entry's 16 bits.
pub fn pattern_of(e: i16) -> u16
    ensures { result ≡ pattern e }
{
    let above = e as i32 + 65536;
    (above as u32 % 65536) as u16
}

// An index's 32 bits.
pub fn word_pattern_of(e: i32) -> u32
    ensures { result ≡ word_pattern e }
{
    let above = e as i64 + 4294967296;
    (above as u64 % 4294967296) as u32
}

// A factor's bits.
pub fn bits_of(f: f32) -> u32
    ensures { result ≡ to_bits binary32 f }
{
    if f != f {
        return 0x7FC0_0000;
    }
    f32::to_bits(f)
}
