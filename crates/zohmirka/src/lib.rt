// The functions for C and Rust. Numbers and slices go in. The rows of a skewed grid are lent beside the words of its chain. No
// function has a `requires`. `zohmirka_c` exports them to C, where a slice is a pointer and a length.

#![tactic(auto)]

ghost use Rattle.std.specs.Prelude.{◌≡◌};
ghost use Rattle.model.specs.Answers.{verdict_number};
ghost use Rattle.zohmirka_reports.specs.Reports.{sheet_report};
ghost use Rattle.zohmirka.specs.Calls.{version, plan_call, judge_call, run_sheet, run_chain, read_call};
ghost use Rattle.zohmirka.specs.Calls.{judge_chain_call, write_call};
ghost use Rattle.zohmirka_pairs.specs.PairWords.{plan_pair_words, run_pair_words};

use model::Refusal;
use zohmirka_pairs::{plan_words, run_words};
use zohmirka_reports::{Report, Sheet, number, refused, written};
use zohmirka_runs::run_value;
use zohmirka_words::{chain_in, chain_out, row_places, rows_out};

// The version of this interface.
pub fn zohmirka_version() -> u32
    ensures { result ≡ version }
{
    5
}

// Plans a request sheet into a chain sheet, and answers how many bytes it has or why not; on a rectangle no rows are lent.
fn plan(request: &[u8], sheet: &mut [u8]) -> Result<usize, Refusal>
    ensures { record { answer = sheet_report result; sheet = sheet.new } ≡ plan_call request.now sheet.old }
{
    let asked = sheet_calls::read_request(request)?;
    if asked.grid.skewed {
        let rows = sheet_calls::rows_of(request);
        let on_rows = planner::plan(asked, &rows)?;
        return sheet_calls::write_chain(on_rows, &rows, sheet);
    }
    let planned = planner::plan(asked, &[])?;
    sheet_calls::write_chain(planned, &[], sheet)
}

// Plans a request sheet into a chain sheet: 1 to 9, 13, 15 and 16 of the request, then 12.
pub fn zohmirka_plan(request: &[u8], sheet: &mut [u8]) -> Sheet
    ensures { record { answer = result; sheet = sheet.new } ≡ plan_call request.now sheet.old }
{
    written(plan(request, sheet))
}

// Judges a chain sheet: 1 to 9, 14, 15 or 16, or 0.
pub fn zohmirka_judge(sheet: &[u8]) -> u32
    ensures { result ≡ judge_call sheet.now }
{
    match sheet_calls::read_chain(sheet) {
        Ok(_) => 0,
        Err(x) => number(Err(x)),
    }
}

// A run call on the chain of a sheet: 1 to 9, 14, 15 and 16 of the sheet, then 10, then 11.
pub fn zohmirka_run(
    sheet: &[u8],
    state: &mut [u32],
    store: &mut [u32],
    cells: &[u32],
    out: &mut [u32],
    allowance: u32,
) -> Report
    ensures { record { report = result; state = state.new; store = store.new; out = out.new }
        ≡ run_sheet state.old store.old cells.now out.old allowance
        sheet.now }
{
    match sheet_calls::read_chain(sheet) {
        Err(x) => refused(x),
        Ok(chain) => {
            if chain.grid.skewed {
                let rows = sheet_calls::rows_of(sheet);
                return run_value(chain, &rows, state, store, cells, out, allowance);
            }
            run_value(chain, &[], state, store, cells, out, allowance)
        }
    }
}

// The words of the chain of a sheet and the numbers of its rows, or why there are none.
fn read(sheet: &[u8], chain: &mut [u32], rows: &mut [u32]) -> Result<(), Refusal>
    ensures { record { refusal = verdict_number result; chain = chain.new; rows = rows.new }
        ≡ read_call sheet.now chain.old rows.old }
{
    let c = sheet_calls::read_chain(sheet)?;
    if chain.len() < 212 {
        return Err(Refusal::ShortOutput);
    }
    if rows.len() < row_places(c.grid) {
        return Err(Refusal::ShortOutput);
    }
    chain_out(c, chain);
    if c.grid.skewed {
        rows_out(c.grid, &sheet_calls::rows_of(sheet), rows);
    }
    Ok(())
}

// Reads a chain sheet into the words of its chain and the numbers of its rows: 1 to 9, 14, 15 and 16 of the sheet, then 12.
pub fn zohmirka_read_chain(sheet: &[u8], chain: &mut [u32], rows: &mut [u32]) -> u32
    ensures { record { refusal = result; chain = chain.new; rows = rows.new }
        ≡ read_call sheet.now chain.old rows.old }
{
    number(read(sheet, chain, rows))
}

// A run call on a chain given by its words and the rows lent beside it: 3 to 9, 14, 15 and 16 of the chain, then 10, then 11.
pub fn zohmirka_run_chain(
    chain: &[u32],
    rows: &[u32],
    state: &mut [u32],
    store: &mut [u32],
    cells: &[u32],
    out: &mut [u32],
    allowance: u32,
) -> Report
    ensures { record { report = result; state = state.new; store = store.new; out = out.new }
        ≡ run_chain state.old store.old cells.now out.old allowance
        chain.now rows.now }
{
    run_value(chain_in(chain), rows, state, store, cells, out, allowance)
}

// Judges a chain given by its words and the rows lent beside it: 3 to 9, 14, 15 or 16, or 0.
pub fn zohmirka_judge_chain(chain: &[u32], rows: &[u32]) -> u32
    ensures { result ≡ judge_chain_call chain.now rows.now }
{
    number(judging::judge_chain(chain_in(chain), rows))
}

// Writes the sheet of a chain given by its words and the rows lent beside it: 3 to 9, 14, 15 and 16 of the chain, then 12.
pub fn zohmirka_write_chain(chain: &[u32], rows: &[u32], sheet: &mut [u8]) -> Sheet
    ensures { record { answer = result; sheet = sheet.new }
        ≡ write_call chain.now rows.now sheet.old }
{
    written(sheet_calls::write_chain(chain_in(chain), rows, sheet))
}

// Plans the chain that two kernels share, on the grid and box of a chain's words: 3 (on rows 16) to 9 with 15 after 6, then 12.
pub fn zohmirka_plan_pair(
    grid: &[u32],
    rows: &[u32],
    first: &[u32],
    second: &[u32],
    chain: &mut [u32],
) -> u32
    ensures { record { refusal = result; chain = chain.new }
        ≡ plan_pair_words grid.now rows.now first.now second.now
        chain.old }
{
    plan_words(grid, rows, first, second, chain)
}

// A run call of two kernels on one chain, an output for each: 3 (on rows 16) to 9 with 15 after 6, then 14, 10, 11.
pub fn zohmirka_run_pair(
    chain: &[u32],
    rows: &[u32],
    first: &[u32],
    second: &[u32],
    state: &mut [u32],
    store: &mut [u32],
    cells: &[u32],
    out_first: &mut [u32],
    out_second: &mut [u32],
    allowance: u32,
) -> Report
    ensures { record {
      report = result;
      state = state.new;
      store = store.new;
      first = out_first.new;
      second = out_second.new;
    }
        ≡ run_pair_words state.old store.old cells.now out_first.old
        out_second.old allowance chain.now rows.now first.now
        second.now }
{
    run_words(
        chain, rows, first, second, state, store, cells, out_first, out_second, allowance,
    )
}
