// The lines of a sheet, as parts of it, and a line's characters, decoded as they arrive.

#![tactic(auto)]

ghost use Rattle.std.specs.Prelude.{◌≡◌, cond, ◌+◌, ◌-◌, ◌*◌, ◌/◌, ◌≤◌, ◌<◌, leb, length, drop};
ghost use Rattle.model_sheet.specs.Lines.{line_of};
ghost use Rattle.model_sheet.specs.Frames.{bytes_of, empty_frame, feeds, with_half, numbers_feeds};
ghost use Rattle.model_sheet.specs.Numbers.{byte_at};
ghost use Rattle.model_sheet.specs.Reading.{numbers_on};

use hexadecimal::{byte_of, is_digit, value_of};
use model::{Frame, KEPT, ROW_NUMBERS};

const LINE_FEED: u8 = b'\n';

// How many bytes of a line are counted.
const COUNTED: usize = 2052;

// Where the line that starts at `at` ends: at its LF, or at the sheet's end.
fn line_end(sheet: &[u8], at: usize) -> usize
    requires { at ≤ length sheet.now }
    ensures { result ≡ at + length (line_of (drop at sheet.now)) }
{
    for i in at..sheet.len() {
        if sheet[i] == LINE_FEED {
            return i;
        }
    }
    sheet.len()
}

// The line that starts at `at`, without its LF. Past the sheet's end it is empty.
pub fn line(sheet: &[u8], at: usize) -> &[u8]
    ensures { result.now ≡ line_of (drop at sheet.now) }
{
    let size = sheet.len();
    if size < at {
        return &sheet[size..size];
    }
    let end = line_end(sheet, at);
    &sheet[at..end]
}

// Before a line's first character.
pub fn empty_frame() -> Frame
    ensures { result ≡ empty_frame }
{
    Frame {
        first: [0u8; KEPT],
        len: 0,
        sound: true,
        upper: None,
    }
}

// More characters of a line.
pub fn more(f: Frame, piece: &[u8]) -> Frame
    ensures { result ≡ feeds f piece.now }
{
    let mut first = f.first;
    let mut len = f.len;
    let mut sound = f.sound;
    let mut upper = f.upper;
    for &c in piece {
        if !is_digit(c) {
            sound = false;
            continue;
        }
        let v = value_of(c);
        let Some(high) = upper else {
            upper = Some(v);
            continue;
        };
        upper = None;
        if len < KEPT {
            first[len] = byte_of(high, v);
            len += 1;
        } else if len < COUNTED {
            len += 1;
        }
    }
    Frame {
        first,
        len,
        sound,
        upper,
    }
}

// A whole line.
pub fn frame(line: &[u8]) -> Frame
    ensures { result ≡ feeds empty_frame line.now }
{
    more(empty_frame(), line)
}

// A number with another lower half.
fn with_lower(x: u32, b: u8) -> u32
    ensures { result ≡ x / 256 * 256 + b }
{
    x / 256 * 256 + (b as u32)
}

// One byte more of a line with `len` of them: behind its row count it is the upper or the lower half of a number.
fn put_byte(numbers: &mut [u32], len: usize, b: u8)
    ensures { numbers.new
        ≡ cond (leb 3 len) (with_half numbers.old (len - 3) b) numbers.old }
{
    if len < 3 {
        return;
    }
    let i = len - 3;
    let at = i / 2;
    if numbers.len() <= at {
        return;
    }
    if i % 2 == 0 {
        numbers[at] = (b as u32) * 256;
        return;
    }
    numbers[at] = with_lower(numbers[at], b);
}

// The numbers on a line that stands as f, with more of its characters.
pub fn more_numbers(f: Frame, piece: &[u8], numbers: &mut [u32])
    ensures { numbers.new ≡ numbers_feeds numbers.old f piece.now }
{
    let mut len = f.len;
    let mut half = f.upper;
    for &c in piece {
        if !is_digit(c) {
            continue;
        }
        let v = value_of(c);
        let Some(high) = half else {
            half = Some(v);
            continue;
        };
        half = None;
        put_byte(numbers, len, byte_of(high, v));
        if len < COUNTED {
            len += 1;
        }
    }
}

// Byte i of a line, 0 past its end.
fn byte(line: &[u8], i: usize) -> u32
    requires { i < 4096 }
    ensures { (result ≡ byte_at (bytes_of line.now) i) × (result < 4096) }
{
    let at = 2 * i;
    if line.len() <= at + 1 {
        return 0;
    }
    (value_of(line[at]) as u32) * 16 + (value_of(line[at + 1]) as u32)
}

// The numbers on a whole line.
pub fn numbers_on(line: &[u8]) -> [u32; ROW_NUMBERS]
    ensures { result ≡ numbers_on (bytes_of line.now) }
{
    let mut numbers = [0u32; ROW_NUMBERS];
    for k in 0..ROW_NUMBERS {
        let i = 3 + 2 * k;
        if line.len() <= 2 * i + 1 {
            return numbers;
        }
        let high = byte(line, i);
        numbers[k] = high * 256 + byte(line, i + 1);
    }
    numbers
}
