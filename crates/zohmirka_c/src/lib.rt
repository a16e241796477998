// The functions of `zohmirka` for C and Rust, each under its own name: a slice is a pointer and a length. c/zohmirka.h declares
// them and says the same for C.

#![tactic(auto)]

ghost use Rattle.std.specs.Prelude.{◌≡◌};
ghost use Rattle.zohmirka.specs.Calls.{version, plan_call, judge_call, run_sheet, run_chain, read_call};
ghost use Rattle.zohmirka.specs.Calls.{judge_chain_call, write_call};
ghost use Rattle.zohmirka_pairs.specs.PairWords.{plan_pair_words, run_pair_words};

use zohmirka_reports::{Report, Sheet};

// The version of this interface.
#[unsafe(no_mangle)]
pub extern "C" fn zohmirka_version() -> u32
    ensures { result ≡ version }
{
    zohmirka::zohmirka_version()
}

// Plans a request sheet into a chain sheet: 1 to 9, 13, 15 and 16 of the request, then 12.
#[unsafe(no_mangle)]
pub extern "C" fn zohmirka_plan(request: &[u8], sheet: &mut [u8]) -> Sheet
    ensures { record { answer = result; sheet = sheet.new } ≡ plan_call request.now sheet.old }
{
    zohmirka::zohmirka_plan(request, sheet)
}

// Judges a chain sheet: 1 to 9, 14, 15 or 16, or 0.
#[unsafe(no_mangle)]
pub extern "C" fn zohmirka_judge(sheet: &[u8]) -> u32
    ensures { result ≡ judge_call sheet.now }
{
    zohmirka::zohmirka_judge(sheet)
}

// A run call on the chain of a sheet: 1 to 9, 14, 15 and 16 of the sheet, then 10, then 11.
#[unsafe(no_mangle)]
pub extern "C" fn zohmirka_run(
    sheet: &[u8],
    state: &mut [u32],
    store: &mut [u32],
    cells: &[u32],
    out: &mut [u32],
    allowance: u32,
) -> Report
    ensures { record { report = result; state = state.new; store = store.new; out = out.new }
        ≡ run_sheet state.old store.old cells.now out.old allowance
        sheet.now }
{
    zohmirka::zohmirka_run(sheet, state, store, cells, out, allowance)
}

// Reads a chain sheet into the words of its chain and the numbers of its rows: 1 to 9, 14, 15 and 16 of the sheet, then 12.
#[unsafe(no_mangle)]
pub extern "C" fn zohmirka_read_chain(sheet: &[u8], chain: &mut [u32], rows: &mut [u32]) -> u32
    ensures { record { refusal = result; chain = chain.new; rows = rows.new }
        ≡ read_call sheet.now chain.old rows.old }
{
    zohmirka::zohmirka_read_chain(sheet, chain, rows)
}

// A run call on a chain given by its words and the rows lent beside it: 3 to 9, 14, 15 and 16 of the chain, then 10, then 11.
#[unsafe(no_mangle)]
pub extern "C" fn zohmirka_run_chain(
    chain: &[u32],
    rows: &[u32],
    state: &mut [u32],
    store: &mut [u32],
    cells: &[u32],
    out: &mut [u32],
    allowance: u32,
) -> Report
    ensures { record { report = result; state = state.new; store = store.new; out = out.new }
        ≡ run_chain state.old store.old cells.now out.old allowance
        chain.now rows.now }
{
    zohmirka::zohmirka_run_chain(chain, rows, state, store, cells, out, allowance)
}

// Judges a chain given by its words and the rows lent beside it: 3 to 9, 14, 15 or 16, or 0.
#[unsafe(no_mangle)]
pub extern "C" fn zohmirka_judge_chain(chain: &[u32], rows: &[u32]) -> u32
    ensures { result ≡ judge_chain_call chain.now rows.now }
{
    zohmirka::zohmirka_judge_chain(chain, rows)
}

// Writes the sheet of a chain given by its words and the rows lent beside it: 3 to 9, 14, 15 and 16 of the chain, then 12.
#[unsafe(no_mangle)]
pub extern "C" fn zohmirka_write_chain(chain: &[u32], rows: &[u32], sheet: &mut [u8]) -> Sheet
    ensures { record { answer = result; sheet = sheet.new }
        ≡ write_call chain.now rows.now sheet.old }
{
    zohmirka::zohmirka_write_chain(chain, rows, sheet)
}

// Plans the chain that two kernels share, on the grid and box of a chain's words: 3 (on rows 16) to 9 with 15 after 6, then 12.
#[unsafe(no_mangle)]
pub extern "C" fn zohmirka_plan_pair(
    grid: &[u32],
    rows: &[u32],
    first: &[u32],
    second: &[u32],
    chain: &mut [u32],
) -> u32
    ensures { record { refusal = result; chain = chain.new }
        ≡ plan_pair_words grid.now rows.now first.now second.now
        chain.old }
{
    zohmirka::zohmirka_plan_pair(grid, rows, first, second, chain)
}

// A run call of two kernels on one chain, an output for each: 3 (on rows 16) to 9 with 15 after 6, then 14, 10, 11.
#[unsafe(no_mangle)]
pub extern "C" fn zohmirka_run_pair(
    chain: &[u32],
    rows: &[u32],
    first: &[u32],
    second: &[u32],
    state: &mut [u32],
    store: &mut [u32],
    cells: &[u32],
    out_first: &mut [u32],
    out_second: &mut [u32],
    allowance: u32,
) -> Report
    ensures { record {
      report = result;
      state = state.new;
      store = store.new;
      first = out_first.new;
      second = out_second.new;
    }
        ≡ run_pair_words state.old store.old cells.now out_first.old
        out_second.old allowance chain.now rows.now first.now
        second.now }
{
    zohmirka::zohmirka_run_pair(
        chain, rows, first, second, state, store, cells, out_first, out_second, allowance,
    )
}
