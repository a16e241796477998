// The least entry of each dimension of a window, how far entries lie above it, and the index of an iteration counted from it.
ghost use Rattle.std.specs.Prelude.{◌≡◌};
ghost use Rattle.model.specs.Vectors.{above};
ghost use Rattle.windows.specs.Lows.{low_in, lows_in, span_in, heights_in, index_in};

// How far x lies above low; 0 where it lies below.
pub fn height(x: i16, low: i16) -> u32
    ensures { result ≡ above x low }
{
    if x < low {
        return 0;
    }
    x.abs_diff(low) as u32
}

// The least entry of dimension d; 0 where there is none.
pub fn low_in(offsets: &[i16; 128], count: usize, d: usize) -> i16
    ensures { result ≡ low_in count offsets.now d }
{
    if count == 0 {
        return 0;
    }
    if 32 < count {
        return 0;
    }
    if 4 <= d {
        return 0;
    }
    let mut low = offsets[d];
    for k in 1..count {
        low = low.min(offsets[4 * k + d]);
    }
    low
}

// The least entry of each dimension.
pub fn lows_of(offsets: &[i16; 128], count: usize, dims: usize) -> [i16; 4]
    ensures { result ≡ lows_in dims count offsets.now }
{
    let n = dims.min(4);
    let mut lows = [0i16; 4];
    for d in 0..n {
        lows[d] = low_in(offsets, count, d);
    }
    lows
}

// How far the greatest entry of dimension d lies above low.
pub fn span_in(offsets: &[i16; 128], count: usize, d: usize, low: i16) -> u32
    ensures { result ≡ span_in count offsets.now d low }
{
    if 32 < count {
        return 0;
    }
    if 4 <= d {
        return 0;
    }
    let mut span: u32 = 0;
    for k in 0..count {
        span = span.max(height(offsets[4 * k + d], low));
    }
    span
}

// How far each reference's entry of dimension d lies above low.
pub fn heights_in(offsets: &[i16; 128], count: usize, d: usize, low: i16) -> [u32; 32]
    ensures { result ≡ heights_in count offsets.now d low }
{
    let mut r = [0u32; 32];
    if 32 < count {
        return r;
    }
    if 4 <= d {
        return r;
    }
    for k in 0..count {
        r[k] = height(offsets[4 * k + d], low);
    }
    r
}

// An index counted from the first iteration; the extent where it lies before that or past the last. Index and low add up to more
// than 32 bits.
pub fn index_in(index: i32, low: i16, extent: u32) -> u32
    ensures { result ≡ index_in index low extent }
{
    let x = index as i64 + low as i64;
    if x < 0 {
        return extent;
    }
    if extent as i64 <= x {
        return extent;
    }
    x as u32
}
