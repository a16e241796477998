// A run call of two kernels on one chain (document 02, request 6): the raw chain's call in rounds (rounds.rt), and both kernels
// over the rows of its firings (ports.rt).

#![tactic(auto)]

mod ports;
mod rounds;

ghost use Rattle.std.specs.Prelude.{◌≡◌};
ghost use Rattle.model_run.specs.PairRuns.{run_pair_of};
ghost use Rattle.pair_run.specs.Calls.{Judged, pair_ran};

use model::{Chain, Outcome, Ran, Refusal, Side, State};

// The call of an accepted pair.
fn run_judged(
    chain: Chain,
    rows: &[u32],
    first: Side,
    second: Side,
    state: State,
    store: &mut [u32],
    cells: &[u32],
    out: &mut [u32],
    other: &mut [u32],
    allowance: u32,
) -> Ran
    requires { Judged chain rows.now first second }
    ensures { pair_ran result store.new out.new other.new
        ≡ run_pair_of chain rows.now first second state store.old cells.now out.old
        other.old allowance }
{
    let raw = pair_judging::raw_of(chain);
    let window = chain.window;
    let dims = values::dims_of(chain.grid);
    let n = window.count as usize;
    let g = ports::port_of(dims, window, first);
    let h = ports::port_of(dims, window, second);
    rounds::in_buffer(
        raw, rows, n, g, h, state, store, cells, out, other, allowance,
    )
}

// A run call of a pair: the outcome with its counts, or 3 (on rows 16) to 9 with 15 after 6, then 14, 10, 11; and the state.
pub fn run_pair(
    chain: Chain,
    rows: &[u32],
    first: Side,
    second: Side,
    state: State,
    store: &mut [u32],
    cells: &[u32],
    out: &mut [u32],
    other: &mut [u32],
    allowance: u32,
) -> Ran
    ensures { pair_ran result store.new out.new other.new
        ≡ run_pair_of chain rows.now first second state store.old cells.now out.old
        other.old allowance }
{
    match pair_judging::judge_pair(chain, rows, first, second) {
        Err(x) => Ran {
            answer: Err(x),
            state,
        },
        Ok(()) => run_judged(
            chain, rows, first, second, state, store, cells, out, other, allowance,
        ),
    }
}
