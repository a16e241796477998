// Grids and windows, written out by hand.
ghost use Rattle.std.specs.Prelude.{◌+◌, ◌/◌, ◌≡◌, length};
ghost use Rattle.nested.specs.Nested.{flat_loops, solid_loops, small_loops, around_loops, box_loops};

// A grid as the nested loop sees it, one plane where it has two dimensions; the iterations that it goes over, each index from
// its first to before its end, and whether they are a box's; and which reference of the window is the centre, or their number
// if none is.
#[derive(Clone, Copy)]
pub struct Loops {
    pub dims: u8,
    pub planes: usize,
    pub rows: usize,
    pub columns: usize,
    pub z_first: usize,
    pub z_end: usize,
    pub y_first: usize,
    pub y_end: usize,
    pub x_first: usize,
    pub x_end: usize,
    pub boxed: bool,
    pub centre: usize,
}

// 768 by 1024.
pub fn flat(centre: usize) -> Loops
    ensures { result ≡ flat_loops centre }
{
    Loops {
        dims: 2,
        planes: 1,
        rows: 768,
        columns: 1024,
        z_first: 0,
        z_end: 1,
        y_first: 1,
        y_end: 767,
        x_first: 1,
        x_end: 1023,
        boxed: false,
        centre,
    }
}

// 40 by 32 by 32.
pub fn solid(centre: usize) -> Loops
    ensures { result ≡ solid_loops centre }
{
    Loops {
        dims: 3,
        planes: 40,
        rows: 32,
        columns: 32,
        z_first: 1,
        z_end: 39,
        y_first: 1,
        y_end: 31,
        x_first: 1,
        x_end: 31,
        boxed: false,
        centre,
    }
}

// 4 by 5.
pub fn small(centre: usize) -> Loops
    ensures { result ≡ small_loops centre }
{
    Loops {
        dims: 2,
        planes: 1,
        rows: 4,
        columns: 5,
        z_first: 0,
        z_end: 1,
        y_first: 1,
        y_end: 3,
        x_first: 1,
        x_end: 4,
        boxed: false,
        centre,
    }
}

// The rectangle around a skewed grid, gone over whole.
pub fn around(rows: usize, columns: usize, centre: usize) -> Loops
    ensures { result ≡ around_loops rows columns centre }
{
    Loops {
        dims: 2,
        planes: 1,
        rows,
        columns,
        z_first: 0,
        z_end: 1,
        y_first: 0,
        y_end: rows,
        x_first: 0,
        x_end: columns,
        boxed: false,
        centre,
    }
}

// The same grid and window, over a box: each index from its first to before its end.
pub fn over_box(
    l: Loops,
    z_first: usize,
    z_end: usize,
    y_first: usize,
    y_end: usize,
    x_first: usize,
    x_end: usize,
) -> Loops
    ensures { result ≡ box_loops l z_first z_end y_first y_end x_first x_end }
{
    Loops {
        z_first,
        z_end,
        y_first,
        y_end,
        x_first,
        x_end,
        boxed: true,
        ..l
    }
}

// A window is written as text: its references in the author's order with a space between, each by its offset's entries for z,
// y and x as `+`, `0` or `-`.

// How many references a window has.
pub fn references(window: &[u8]) -> usize
    ensures { result ≡ length window.now / 4 + 1 }
{
    window.len() / 4 + 1
}
