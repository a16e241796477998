// The cells of the stream: floats of either sign that vary with the position, and among them words that are special as floats.

// Four not-a-number patterns, the infinities, the zeros, two subnormals and the largest floats.
const SPECIAL: [u32; 12] = [
    0x7F800001, 0x7FC00000, 0xFFFFFFFF, 0xFFC12345, 0x7F800000, 0xFF800000, 0x80000000, 0x00000000,
    0x00000001, 0x807FFFFF, 0x7F7FFFFF, 0xFF7FFFFF,
];

// A sign, one of 16 exponents from 2^-7 on and 23 more bits: the high bits of a multiple of the position.
fn ordinary(p: u32) -> u32 {
    let h = (p as u64 * 2654435761 % 4294967296) as u32;
    let sign = h / 0x80000000;
    let exponent = (h / 0x8000000) % 16;
    let digits = (h / 16) % 0x800000;
    sign * 0x80000000 + (120 + exponent) * 0x800000 + digits
}

// The cell at position p. Two neighbours in every 1009 are special.
fn cell(p: u32) -> u32 {
    let q = p / 1009;
    let r = p % 1009;
    if r < 2 {
        let k = (q % 12 + r) % 12;
        return SPECIAL[k as usize];
    }
    ordinary(p)
}

pub(crate) fn fill(cells: &mut [u32; 786432]) {
    for p in 0..786432u32 {
        cells[p as usize] = cell(p);
    }
}
