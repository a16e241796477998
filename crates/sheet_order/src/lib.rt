// Whether a line stands where it may.

#![tactic(auto)]

ghost use Rattle.std.specs.Prelude.{◌≡◌};
ghost use Rattle.model_sheet.specs.Reading.{next_in_request, next_in_chain, miscounted, among, misplaced};

use model::Last;

// A line's kind is one of these.
fn among(kind: u8, kinds: &[u8]) -> bool
    ensures { result ≡ among kind kinds.now }
{
    kinds.contains(&kind)
}

// What may come next, by what stood last: in a request sheet,
fn comes_in_request(last: Last, kind: u8) -> bool
    ensures { result ≡ among kind (next_in_request last) }
{
    match last {
        Last::Nothing => among(kind, &[1, 9]),
        Last::Grid => among(kind, &[2, 7]),
        Last::Offset => among(kind, &[2, 8, 4]),
        Last::Name => among(kind, &[8, 4]),
        Last::Box => kind == 4,
        Last::Capacity => false,
        Last::Order => false,
        Last::Kernel => false,
    }
}

// and in a chain sheet.
fn comes_in_chain(last: Last, kind: u8) -> bool
    ensures { result ≡ among kind (next_in_chain last) }
{
    match last {
        Last::Nothing => among(kind, &[1, 9]),
        Last::Grid => kind == 2,
        Last::Offset => among(kind, &[2, 8, 3, 6, 4]),
        Last::Name => false,
        Last::Box => among(kind, &[3, 6, 4]),
        Last::Capacity => among(kind, &[3, 6, 4]),
        Last::Order => kind == 4,
        Last::Kernel => false,
    }
}

// In a chain sheet, the number of its `03` lines.
fn is_miscounted(given: u8, count: u8, kind: u8) -> bool
    ensures { result ≡ miscounted given count kind }
{
    let next = (given as u16) + 1;
    if kind == 3 {
        return (count as u16) <= next;
    }
    if kind == 4 {
        return (count as u16) != next;
    }
    if kind != 6 {
        return false;
    }
    (count as u16) != next
}

pub fn is_misplaced(chained: bool, last: Last, given: u8, count: u8, kind: u8) -> bool
    ensures { result ≡ misplaced chained last given count kind }
{
    if !chained {
        return !comes_in_request(last, kind);
    }
    if !comes_in_chain(last, kind) {
        return true;
    }
    is_miscounted(given, count, kind)
}
