// A run call on a chain and the rows lent beside it, with its state as words.

#![tactic(auto)]

ghost use Rattle.std.specs.Prelude.{◌≡◌};
ghost use Rattle.zohmirka_runs.specs.Runs.{run_value};

use model::{Chain, Outcome, Refusal};
use zohmirka_reports::{Report, ended, refused};
use zohmirka_words::{state_in, state_out};

// A run call on a chain; its rows count only where its grid is skewed.
pub fn run_value(
    chain: Chain,
    rows: &[u32],
    state: &mut [u32],
    store: &mut [u32],
    cells: &[u32],
    out: &mut [u32],
    allowance: u32,
) -> Report
    ensures { record { report = result; state = state.new; store = store.new; out = out.new }
        ≡ run_value state.old store.old cells.now out.old allowance chain
        rows.now }
{
    let before = state_in(state);
    let ran = runner::run(chain, rows, before, store, cells, out, allowance);
    let answer = ran.answer;
    match answer {
        Err(x) => refused(x),
        Ok(o) => {
            let after = ran.state;
            state_out(after, state);
            ended(o)
        }
    }
}
