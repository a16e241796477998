// Bytes as two hexadecimal digits each.

#![tactic(auto)]

ghost use Rattle.std.specs.Prelude.{◌≡◌, ◌+◌, ◌-◌, ◌*◌, ◌/◌, ◌%◌, ◌≤◌, ◌<◌};
ghost use Rattle.model_sheet.specs.Frames.{is_digit, value_of, digit_of};

fn digit_of(v: u8) -> u8
    requires { v < 16 }
    ensures { result ≡ digit_of v }
{
    if v < 10 {
        return v + b'0';
    }
    v + 55
}

// The two digits of a byte.
pub fn high_digit(b: u8) -> u8
    ensures { result ≡ digit_of (b / 16) }
{
    digit_of(b / 16)
}

pub fn low_digit(b: u8) -> u8
    ensures { result ≡ digit_of (b % 16) }
{
    digit_of(b % 16)
}

// Whether a character is a digit.
pub fn is_digit(c: u8) -> bool
    ensures { result ≡ is_digit c }
{
    if c <= b'9' {
        return b'0' <= c;
    }
    if c <= b'F' {
        return b'A' <= c;
    }
    false
}

// What is taken off a character for its value: a choice among numbers, which compiles without a branch.
fn zero_of(c: u8) -> u8
    ensures { (c - result ≡ value_of c) × (result ≤ c) × (c ≤ result + 200) }
{
    if c < b'0' {
        return c;
    }
    if c <= b'9' {
        return b'0';
    }
    55
}

// What a character of any kind counts.
pub fn value_of(c: u8) -> u8
    ensures { (result ≡ value_of c) × (result ≤ 200) }
{
    c - zero_of(c)
}

// The byte of two digits that count this much.
pub fn byte_of(high: u8, low: u8) -> u8
    ensures { result ≡ high % 16 * 16 + low % 16 }
{
    high % 16 * 16 + low % 16
}
