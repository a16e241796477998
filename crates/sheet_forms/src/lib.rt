// What is wrong with a line by itself: its form, and its length by the numbers that stand in it or in lines before it.

#![tactic(auto)]

ghost use Rattle.std.specs.Prelude.{◌≡◌, not, ◌&&◌};
ghost use Rattle.model_sheet.specs.Reading.{bad_kernel, bad_form, malformed, bad_length};

fn bad_kernel(len: usize, second: u8) -> bool
    ensures { result ≡ bad_kernel len second }
{
    match second {
        0 | 1 => len != 2,
        2 => len != 6,
        3 => len != 10,
        _ => true,
    }
}

fn bad_form(len: usize, kind: u8, second: u8) -> bool
    ensures { result ≡ bad_form len kind second }
{
    match kind {
        1 => len < 2,
        2 | 6 | 8 => false,
        3 | 5 => len != 5,
        4 => bad_kernel(len, second),
        7 => len != 2,
        9 => len < 3,
        _ => true,
    }
}

pub fn is_malformed(sound: bool, len: usize, kind: u8, second: u8) -> bool
    ensures { result ≡ malformed sound len kind second }
{
    if !sound {
        return true;
    }
    if len == 0 {
        return true;
    }
    bad_form(len, kind, second)
}

pub fn bad_length(len: usize, kind: u8, second: u8, row_count: u32, dims: u8, count: u8) -> bool
    ensures { result ≡ bad_length len kind second row_count dims count }
{
    match kind {
        1 => len != 2 + 4 * (second as usize),
        9 => len != 3 + 4 * (row_count as usize),
        2 => len != 1 + 2 * (dims as usize),
        6 => len != 1 + (count as usize),
        8 => len != 1 + 8 * (dims as usize),
        _ => false,
    }
}

// Every character was a digit, and their number is even.
pub fn whole_frame(sound: bool, half: bool) -> bool
    ensures { result ≡ (sound && not half) }
{
    sound && !half
}
