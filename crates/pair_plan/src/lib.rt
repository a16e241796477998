// Planning the chain that two kernels share (document 02, request 6): the plan of the union of their windows, raw, with its
// terms in chain order.

#![tactic(auto)]

ghost use Rattle.std.specs.Prelude.{◌≡◌};
ghost use Rattle.model.specs.Pairs.{plan_pair_of};
ghost use Rattle.pair_plan.specs.Orders.{rising_order};

use model::{Bounds, Chain, Grid, Kernel, Order, Refusal, Request, Side};
use pair_judging::{earlier, judge_sides};
use pair_windows::union_window;
use values::{dims_of, set_order};

// The order 0, 1, 2, .. of n filters; there is room for 32.
fn rising_order(n: u8) -> Order
    ensures { result ≡ rising_order n }
{
    let mut filters = [0u8; 32];
    for k in 0..n.min(32) {
        filters[k as usize] = k;
    }
    Order {
        stood: true,
        filters,
    }
}

// The planned chain of two windows and their kernels, or the first number that turns them back.
pub fn plan_pair(
    grid: Grid,
    rows: &[u32],
    bounds: Bounds,
    first: Side,
    second: Side,
) -> Result<Chain, Refusal>
    ensures { result ≡ plan_pair_of grid rows.now bounds first second }
{
    let dims = dims_of(grid);
    let window = union_window(dims, first.window, second.window);
    let request = Request {
        grid,
        window,
        bounds,
        kernel: Kernel::Raw,
    };
    let planned = planner::plan(request, rows);
    let added = judge_sides(dims, window, first, second);
    // Of the two numbers the one earlier in the order of the checks answers.
    earlier(planned.map(|_| ()), added)?;
    let chain = planned?;
    let order = rising_order(window.count);
    Ok(set_order(chain, order))
}
