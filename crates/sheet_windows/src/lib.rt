// The window of a sheet: an offset put into it, and the windows that have a name (document 02, request 1).

#![tactic(auto)]

ghost use Rattle.std.specs.Prelude.{◌≡◌, ◌*◌, ◌%◌, ◌<◌, length, get_or};
ghost use Rattle.std.proofs.lemmas.List.Edits.{sets};
ghost use Rattle.model_sheet.specs.NamedWindows.{centre, named_of, bad_name, entries_of, window_named};

use model::{Triple, Window};

// 01: the five-point cross.
const FIVE_POINT_CROSS: [Triple; 5] = [
    Triple(1, 0, 0),
    Triple(0, 1, 0),
    Triple(0, 0, 0),
    Triple(0, -1, 0),
    Triple(-1, 0, 0),
];

// 02: the four neighbours.
const FOUR_NEIGHBOURS: [Triple; 4] = [
    Triple(1, 0, 0),
    Triple(0, 1, 0),
    Triple(0, -1, 0),
    Triple(-1, 0, 0),
];

// 03: the 3 by 3 square.
const SQUARE: [Triple; 9] = [
    Triple(1, 1, 0),
    Triple(1, 0, 0),
    Triple(1, -1, 0),
    Triple(0, 1, 0),
    Triple(0, 0, 0),
    Triple(0, -1, 0),
    Triple(-1, 1, 0),
    Triple(-1, 0, 0),
    Triple(-1, -1, 0),
];

// 04: the seven-point cross.
const SEVEN_POINT_CROSS: [Triple; 7] = [
    Triple(1, 0, 0),
    Triple(0, 1, 0),
    Triple(0, 0, 1),
    Triple(0, 0, 0),
    Triple(0, 0, -1),
    Triple(0, -1, 0),
    Triple(-1, 0, 0),
];

// 05: the 27 points of a cube less its 8 corners.
const CUBE_LESS_CORNERS: [Triple; 19] = [
    Triple(1, 1, 0),
    Triple(1, 0, 1),
    Triple(1, 0, 0),
    Triple(1, 0, -1),
    Triple(1, -1, 0),
    Triple(0, 1, 1),
    Triple(0, 1, 0),
    Triple(0, 1, -1),
    Triple(0, 0, 1),
    Triple(0, 0, 0),
    Triple(0, 0, -1),
    Triple(0, -1, 1),
    Triple(0, -1, 0),
    Triple(0, -1, -1),
    Triple(-1, 1, 0),
    Triple(-1, 0, 1),
    Triple(-1, 0, 0),
    Triple(-1, 0, -1),
    Triple(-1, -1, 0),
];

// A window's offsets, in falling order; of a byte that is no name, none.
#[tactic(auto, unfolding(model_sheet::specs::NamedWindows::named_of, model_sheet::specs::NamedWindows::windows))]
fn references(name: u8) -> &'static [Triple]
    ensures { result.now ≡ (named_of name).triples }
{
    match name {
        1 => &FIVE_POINT_CROSS,
        2 => &FOUR_NEIGHBOURS,
        3 => &SQUARE,
        4 => &SEVEN_POINT_CROSS,
        5 => &CUBE_LESS_CORNERS,
        _ => &[],
    }
}

// Its entries, and 0 past them.
fn entries_of(t: Triple) -> [i16; 4]
    ensures { result ≡ entries_of t }
{
    [t.0, t.1, t.2, 0]
}

// 13: the byte is no name, or the window's dimensions differ from the grid's.
#[tactic(auto, using(crate::proofs::NamedLaws::below_names, crate::proofs::NamedLaws::flat, crate::proofs::NamedLaws::solid, crate::proofs::NamedLaws::above_names))]
pub fn bad_name(name: u8, dims: u8) -> bool
    ensures { result ≡ bad_name name dims }
{
    match name {
        1..=3 => dims != 2,
        4 | 5 => dims != 3,
        _ => true,
    }
}

// The offset of reference k set, which counts modulo 32: there are so many places.
pub fn set_offset(offsets: [i16; 128], k: u8, entries: [i16; 4]) -> [i16; 128]
    ensures { result ≡ sets offsets (4 * (k % 32)) entries }
{
    let at = 4 * ((k % 32) as usize);
    let mut o = offsets;
    o[at] = entries[0];
    o[at + 1] = entries[1];
    o[at + 2] = entries[2];
    o[at + 3] = entries[3];
    o
}

// The window of a name; any other byte has one without references.
pub fn window_of(name: u8) -> Window
    ensures { result ≡ window_named name }
{
    let triples = references(name);
    let mut offsets = [0i16; 128];
    for (k, t) in triples.iter().enumerate() {
        let next = set_offset(offsets, k as u8, entries_of(*t));
        offsets = next;
    }
    Window {
        count: triples.len() as u8,
        offsets,
    }
}
