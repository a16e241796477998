// A table of numbers, looked up.

#![tactic(auto)]

ghost use Rattle.std.specs.Prelude.{◌≡◌, get_or};

// Number i; 0 where there are too few.
pub fn number_at(numbers: &[u32], i: usize) -> u32
    ensures { result ≡ get_or numbers.now i 0 }
{
    numbers.get(i).copied().unwrap_or(0)
}
