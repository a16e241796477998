// Reading a sheet, line by line.

#![tactic(auto)]

ghost use Rattle.std.specs.Prelude.{◌≡◌, ◌+◌, ◌<◌, set};
ghost use Rattle.model_sheet.specs.Frames.{shown};
ghost use Rattle.model_sheet.specs.Lines.{lines_of};
ghost use Rattle.model_sheet.specs.Reading.{with_grid, with_rows, with_offset, with_name, with_box, with_capacity, with_order};
ghost use Rattle.model_sheet.specs.Reading.{with_kernel, taken, step_of, start, complete, read_lines};
ghost use Rattle.sheet_reader.specs.Room.{Room};

use model::{Bounds, Frame, Grid, KEPT, Last, LineStep, Order, Reading, Refusal, Window};
use values::blank_chain;

// Before the first line.
pub fn begin() -> Reading
    ensures { result ≡ start }
{
    Reading {
        last: Last::Nothing,
        given: 0,
        chain: blank_chain(),
    }
}

fn with_grid(r: Reading, x: [u8; KEPT]) -> Reading
    ensures { result ≡ with_grid r x }
{
    let sizes = sheet_fields::sizes_in(x);
    let grid = Grid {
        skewed: false,
        rows: 0,
        dims: x[1],
        sizes,
    };
    Reading {
        last: Last::Grid,
        given: r.given,
        chain: values::set_grid(r.chain, grid),
    }
}

// The rows themselves stand beside the reading.
fn with_rows(r: Reading, x: [u8; KEPT]) -> Reading
    ensures { result ≡ with_rows r x }
{
    let rows = sheet_fields::row_count_in(x);
    let grid = Grid {
        skewed: true,
        rows,
        dims: 2,
        sizes: [0u32; 4],
    };
    Reading {
        last: Last::Grid,
        given: r.given,
        chain: values::set_grid(r.chain, grid),
    }
}

fn with_offset(r: Reading, x: [u8; KEPT]) -> Reading
    requires { r.chain.window.count < 32 }
    ensures { result ≡ with_offset r x }
{
    let w = r.chain.window;
    let offsets = sheet_windows::set_offset(w.offsets, w.count, sheet_fields::entries_in(x));
    let window = Window {
        count: w.count + 1,
        offsets,
    };
    Reading {
        last: Last::Offset,
        given: r.given,
        chain: values::set_window(r.chain, window),
    }
}

fn with_name(r: Reading, x: [u8; KEPT]) -> Reading
    ensures { result ≡ with_name r x }
{
    let window = sheet_windows::window_of(x[1]);
    Reading {
        last: Last::Name,
        given: r.given,
        chain: values::set_window(r.chain, window),
    }
}

fn with_box(r: Reading, x: [u8; KEPT]) -> Reading
    ensures { result ≡ with_box r x }
{
    let bounds = Bounds {
        stood: true,
        lowest: sheet_fields::lowest_in(x),
        highest: sheet_fields::highest_in(x),
    };
    Reading {
        last: Last::Box,
        given: r.given,
        chain: values::set_bounds(r.chain, bounds),
    }
}

// A capacity past the last has no place.
fn set_capacity(capacities: [u32; 31], k: usize, places: u32) -> [u32; 31]
    ensures { result ≡ set capacities k places }
{
    let mut c = capacities;
    if k < 31 {
        c[k] = places;
        return c;
    }
    c
}

fn with_capacity(r: Reading, x: [u8; KEPT]) -> Reading
    requires { r.given + 1 < r.chain.window.count }
    ensures { result ≡ with_capacity r x }
{
    let capacities = set_capacity(
        r.chain.capacities,
        r.given as usize,
        sheet_fields::word_in(x),
    );
    Reading {
        last: Last::Capacity,
        given: r.given + 1,
        chain: values::set_capacities(r.chain, capacities),
    }
}

fn with_order(r: Reading, x: [u8; KEPT]) -> Reading
    ensures { result ≡ with_order r x }
{
    let filters = sheet_fields::filters_in(x, r.chain.window.count);
    let order = Order {
        stood: true,
        filters,
    };
    Reading {
        last: Last::Order,
        given: r.given,
        chain: values::set_order(r.chain, order),
    }
}

fn with_kernel(r: Reading, x: [u8; KEPT]) -> Reading
    ensures { result ≡ with_kernel r x }
{
    let kernel = sheet_fields::kernel_in(x);
    Reading {
        last: Last::Kernel,
        given: r.given,
        chain: values::set_kernel(r.chain, kernel),
    }
}

// A line that is not turned back.
fn accept_line(r: Reading, x: [u8; KEPT]) -> Reading
    requires { Room r x }
    ensures { result ≡ taken r x }
{
    match x[0] {
        1 => with_grid(r, x),
        2 => with_offset(r, x),
        3 => with_capacity(r, x),
        6 => with_order(r, x),
        7 => with_name(r, x),
        8 => with_box(r, x),
        9 => with_rows(r, x),
        _ => with_kernel(r, x),
    }
}

// One line, read. `rows`: the numbers on the sheet's first line, behind its row count.
pub fn step(chained: bool, rows: &[u32], r: Reading, f: Frame) -> LineStep
    ensures { result ≡ step_of chained rows.now r (shown f) }
{
    let v = sheet_verdicts::line_verdict(chained, rows, r, f);
    match v {
        Ok(()) => {
            let x = f.first;
            LineStep {
                verdict: Ok(()),
                reading: accept_line(r, x),
            }
        }
        Err(n) => LineStep {
            verdict: Err(n),
            reading: r,
        },
    }
}

// The sheet is at its end: its `04` line was read.
pub fn is_complete(r: Reading) -> bool
    ensures { result ≡ complete r }
{
    matches!(r.last, Last::Kernel)
}

// The lines of a sheet from the top, up to the first that is turned back.
pub fn read_lines(chained: bool, rows: &[u32], sheet: &[u8]) -> LineStep
    ensures { result ≡ read_lines chained rows.now start (lines_of sheet.now) }
{
    let mut r = begin();
    let mut at: usize = 0;
    // A line's end says where the next one begins.
    while at < sheet.len() {
        let line = sheet_frames::line(sheet, at);
        let end = at + line.len();
        if end == sheet.len() {
            return LineStep {
                verdict: Err(Refusal::Malformed),
                reading: r,
            };
        }
        // A step, taken apart: a reading is large, and so it is copied once less.
        let f = sheet_frames::frame(line);
        let v = sheet_verdicts::line_verdict(chained, rows, r, f);
        match v {
            Ok(()) => {}
            Err(n) => {
                return LineStep {
                    verdict: Err(n),
                    reading: r,
                };
            }
        }
        let next = accept_line(r, f.first);
        r = next;
        at = end + 1;
    }
    LineStep {
        verdict: Ok(()),
        reading: r,
    }
}
