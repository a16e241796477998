// What turns a line back: the verdicts ask the tests of a line in the order of document 01.

#![tactic(auto)]

ghost use Rattle.std.specs.Prelude.{◌≡◌, cond, ◌&&◌, eqb, leb, take, Ok, Err};
ghost use Rattle.model.specs.Judging.{bad_dims, bad_sizes, bad_row_count, bad_rows};
ghost use Rattle.model.specs.Values.{rows_of};
ghost use Rattle.model_sheet.specs.Frames.{shown};
ghost use Rattle.model_sheet.specs.NamedWindows.{bad_name};
ghost use Rattle.model_sheet.specs.Reading.{sizes_in, line_verdict, cell_verdict};

use model::{Frame, KEPT, Reading, Refusal};
use sheet_forms::{bad_length, is_malformed, whole_frame};
use sheet_order::is_misplaced;
use values::dims_of;

// On an `01` line: its dimension count.
fn bad_dims(kind: u8, dims: u8) -> bool
    ensures { result ≡ (eqb kind 1 && bad_dims dims) }
{
    kind == 1 && limits::bad_dims(dims)
}

// On an `09` line: its row count.
fn bad_row_count(kind: u8, row_count: u32) -> bool
    ensures { result ≡ (eqb kind 9 && bad_row_count row_count) }
{
    kind == 9 && limits::bad_row_count(row_count)
}

// On an `01` line with the bytes x: its sizes.
fn bad_grid(kind: u8, dims: u8, x: [u8; KEPT]) -> bool
    ensures { result ≡ (eqb kind 1 && bad_sizes (take dims (sizes_in x))) }
{
    kind == 1 && limits::bad_sizes(dims, sheet_fields::sizes_in(x))
}

// On an `09` line: its rows, or their count.
fn bad_rows(kind: u8, count: u32, rows: &[u32]) -> bool
    ensures { result ≡ (eqb kind 9 && bad_rows (rows_of count rows.now)) }
{
    kind == 9 && limits::bad_rows(count, rows)
}

// A 33rd `02` line.
fn too_many(kind: u8, count: u8) -> bool
    ensures { result ≡ (eqb kind 2 && leb 32 count) }
{
    kind == 2 && limits::too_many(count)
}

// On an `07` line: its name.
fn bad_name(kind: u8, name: u8, dims: u8) -> bool
    ensures { result ≡ (eqb kind 7 && bad_name name dims) }
{
    kind == 7 && sheet_windows::bad_name(name, dims)
}

// The checks of a line in their order. `rows`: the numbers on the sheet's first line, behind its row count.
#[tactic(auto, using(crate::proofs::CheckLaws::rows_alone), unfolding(model_sheet::specs::Reading::line_verdict, model_sheet::specs::Reading::line_checks, model::specs::Answers::first_of))]
pub fn line_verdict(chained: bool, rows: &[u32], r: Reading, f: Frame) -> Result<(), Refusal>
    ensures { result ≡ line_verdict chained rows.now r (shown f) }
{
    let x = f.first;
    let kind = x[0];
    let second = x[1];
    let row_count = sheet_fields::row_count_in(x);
    let dims = dims_of(r.chain.grid);
    let count = r.chain.window.count;
    if is_malformed(whole_frame(f.sound, f.upper.is_some()), f.len, kind, second) {
        return Err(Refusal::Malformed);
    }
    if is_misplaced(chained, r.last, r.given, count, kind) {
        return Err(Refusal::Misplaced);
    }
    if bad_dims(kind, second) {
        return Err(Refusal::BadGrid);
    }
    if bad_row_count(kind, row_count) {
        return Err(Refusal::BadRows);
    }
    if bad_length(f.len, kind, second, row_count, dims, count) {
        return Err(Refusal::Malformed);
    }
    if bad_grid(kind, second, x) {
        return Err(Refusal::BadGrid);
    }
    if bad_rows(kind, row_count, rows) {
        return Err(Refusal::BadRows);
    }
    if too_many(kind, count) {
        return Err(Refusal::BadCount);
    }
    if bad_name(kind, second, dims) {
        return Err(Refusal::BadName);
    }
    Ok(())
}

#[tactic(auto, unfolding(model_sheet::specs::Reading::cell_verdict, model::specs::Answers::first_of))]
pub fn cell_verdict(f: Frame) -> Result<(), Refusal>
    ensures { result ≡ cell_verdict (shown f) }
{
    let x = f.first;
    if is_malformed(whole_frame(f.sound, f.upper.is_some()), f.len, x[0], x[1]) {
        return Err(Refusal::Malformed);
    }
    if x[0] != 5 {
        return Err(Refusal::Misplaced);
    }
    Ok(())
}
