// Two kernels on one chain for C and Rust: a chain, two windows and a state as words, the rows lent beside them.

#![tactic(auto)]

ghost use Rattle.std.specs.Prelude.{◌≡◌};
ghost use Rattle.model.specs.Answers.{verdict_number};
ghost use Rattle.zohmirka_pairs.specs.PairWords.{plan_pair_words, run_pair_words};

use model::Refusal;
use zohmirka_reports::{Report, ended, number, refused};
use zohmirka_words::{chain_in, chain_out, side_in, state_in, state_out};

// The words of the chain that is planned of a pair, of whose grid's words grid and box play a part, or why there are none: 3 (on
// rows 16) to 9 with 15 after 6, then 12.
fn plan(
    grid: &[u32],
    rows: &[u32],
    first: &[u32],
    second: &[u32],
    chain: &mut [u32],
) -> Result<(), Refusal>
    ensures { record { refusal = verdict_number result; chain = chain.new }
        ≡ plan_pair_words grid.now rows.now first.now second.now
        chain.old }
{
    let given = chain_in(grid);
    let planned = pair_plan::plan_pair(
        given.grid,
        rows,
        given.bounds,
        side_in(first),
        side_in(second),
    )?;
    if chain.len() < 212 {
        return Err(Refusal::ShortOutput);
    }
    chain_out(planned, chain);
    Ok(())
}

// Its number.
pub fn plan_words(
    grid: &[u32],
    rows: &[u32],
    first: &[u32],
    second: &[u32],
    chain: &mut [u32],
) -> u32
    ensures { record { refusal = result; chain = chain.new }
        ≡ plan_pair_words grid.now rows.now first.now second.now
        chain.old }
{
    number(plan(grid, rows, first, second, chain))
}

// A run call of a pair: 3 (on rows 16) to 9 with 15 after 6, then 14, 10, 11.
pub fn run_words(
    chain: &[u32],
    rows: &[u32],
    first: &[u32],
    second: &[u32],
    state: &mut [u32],
    store: &mut [u32],
    cells: &[u32],
    out_first: &mut [u32],
    out_second: &mut [u32],
    allowance: u32,
) -> Report
    ensures { record {
      report = result;
      state = state.new;
      store = store.new;
      first = out_first.new;
      second = out_second.new;
    }
        ≡ run_pair_words state.old store.old cells.now out_first.old
        out_second.old allowance chain.now rows.now first.now
        second.now }
{
    let ran = pair_run::run_pair(
        chain_in(chain),
        rows,
        side_in(first),
        side_in(second),
        state_in(state),
        store,
        cells,
        out_first,
        out_second,
        allowance,
    );
    match ran.answer {
        Err(x) => refused(x),
        Ok(o) => {
            state_out(ran.state, state);
            ended(o)
        }
    }
}
