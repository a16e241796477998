// The lines that the programs write: `10` for a firing, `11` at the end of a run, `1F` for a refusal.

#![tactic(auto)]

ghost use Rattle.std.specs.Prelude.{◌≡◌, ◌+◌, ◌*◌, ◌≤◌, ◌<◌, length, take, drop};
ghost use Rattle.std.proofs.lemmas.List.Edits.{sets};
ghost use mathlib.Core.List.{◌∷◌, [], flat_map};
ghost use Rattle.model_sheet.specs.Frames.{digits_of, framed};
ghost use Rattle.model_sheet.specs.Numbers.{word_bytes};
ghost use Rattle.model_program.specs.Programs.{firing_line, end_line, refusal_line};
ghost use Rattle.program_writer.specs.Texts.{laid, laid_if_fits, room_for, fitting, firings_laid};

use hexadecimal::{high_digit, low_digit};
use model::Refusal;

// The two digits of a byte.
fn put_byte(out: &mut [u8], at: usize, b: u8)
    requires { at + 2 ≤ length out.old }
    ensures { out.new ≡ sets out.old at (digits_of (b ∷ [])) }
{
    out[at] = high_digit(b);
    out[at + 1] = low_digit(b);
}

// The eight digits of a word.
fn put_word(out: &mut [u8], at: usize, w: u32)
    requires { at + 8 ≤ length out.old }
    ensures { out.new ≡ sets out.old at (digits_of (word_bytes w)) }
{
    put_byte(out, at, (w / 16777216) as u8);
    put_byte(out, at + 2, (w / 65536 % 256) as u8);
    put_byte(out, at + 4, (w / 256 % 256) as u8);
    put_byte(out, at + 6, (w % 256) as u8);
}

// The digits of `size` words, from word `from` on; the place behind them.
fn put_words(out: &mut [u8], at: usize, words: &[u32], from: usize, size: usize) -> usize
    requires { (at + 8 * size ≤ length out.old) × (from + size ≤ length words.now) }
    ensures { (result ≡ at + 8 * size)
        × (out.new
        ≡ sets out.old at (digits_of (flat_map word_bytes (take size (drop from words.now))))) }
{
    for i in 0..size {
        put_word(out, at + 8 * i, words[from + i]);
    }
    at + 8 * size
}

// One `10` line; the place behind it.
fn put_firing(
    out: &mut [u8],
    at: usize,
    index: u32,
    words: &[u32],
    from: usize,
    size: usize,
) -> usize
    requires { (at + (8 * size + 11) ≤ length out.old) × (from + size ≤ length words.now) }
    ensures { (result ≡ at + (8 * size + 11))
        × (out.new
        ≡ sets out.old at (framed (firing_line index (take size (drop from words.now))))) }
{
    put_byte(out, at, 0x10);
    put_word(out, at + 2, index);
    let p = put_words(out, at + 10, words, from, size);
    out[p] = b'\n';
    p + 1
}

// How many words of firings have lines that fit into so many characters; none where a firing has more words than there are
// references.
pub fn room_for(size: usize, room: usize) -> usize
    ensures { result ≡ room_for size room }
{
    if 32 < size {
        return 0;
    }
    room / (8 * size + 11) * size
}

fn how_many(size: usize, index: u32, n: u32, words: usize, room: usize) -> usize
    ensures { result ≡ fitting size index n words room }
{
    if size == 0 {
        return 0;
    }
    if 32 < size {
        return 0;
    }
    let indices = (4294967295 - index) as usize;
    let lines = (room / (8 * size + 11)).min(indices);
    (n as usize).min((words / size).min(lines))
}

// The lines of n firings of `size` words each, the first of which has this index: as many as fit. How many characters they have.
pub fn put_firings(size: usize, index: u32, n: u32, words: &[u32], out: &mut [u8]) -> usize
    ensures { laid result out.new ≡ firings_laid size index n words.now out.old }
{
    let lines = how_many(size, index, n, words.len(), out.len());
    let mut at = 0;
    for i in 0..lines {
        at = put_firing(out, at, index + i as u32, words, i * size, size);
    }
    at
}

// The `11` line, where it fits; how many characters it has.
pub fn put_end(way: u8, clocks: u32, out: &mut [u8]) -> usize
    ensures { laid result out.new ≡ laid_if_fits (framed (end_line way clocks)) out.old }
{
    if out.len() < 13 {
        return 0;
    }
    put_byte(out, 0, 0x11);
    put_byte(out, 2, way);
    put_word(out, 4, clocks);
    out[12] = b'\n';
    13
}

// The `1F` line, where it fits; how many characters it has.
pub fn put_refusal(n: Refusal, out: &mut [u8]) -> usize
    ensures { laid result out.new ≡ laid_if_fits (framed (refusal_line n)) out.old }
{
    if out.len() < 5 {
        return 0;
    }
    put_byte(out, 0, 0x1F);
    put_byte(out, 2, u8::from(n));
    out[4] = b'\n';
    5
}
