// The values of document 01: the blank chain, a chain with a field set, its request; what a call did.

#![tactic(auto)]

ghost use Rattle.std.specs.Prelude.{◌≡◌};
ghost use Rattle.model.specs.Answers.{answer_counts};
ghost use Rattle.model.specs.Values.{dims_of, blank_chain, request_of, set_grid, set_window, set_bounds, set_capacities, set_order};
ghost use Rattle.model.specs.Values.{set_kernel};

use model::{Bounds, Chain, Counts, Grid, Kernel, Order, Outcome, Refusal, Request, Window};

// The chain before a sheet's first line, and of too few words.
pub fn blank_chain() -> Chain
    ensures { result ≡ blank_chain }
{
    Chain {
        grid: Grid {
            skewed: false,
            rows: 0,
            dims: 0,
            sizes: [0u32; 4],
        },
        window: Window {
            count: 0,
            offsets: [0i16; 128],
        },
        bounds: Bounds {
            stood: false,
            lowest: [0i32; 4],
            highest: [0i32; 4],
        },
        capacities: [0u32; 31],
        order: Order {
            stood: false,
            filters: [0u8; 32],
        },
        kernel: Kernel::Raw,
    }
}

// The request that a chain without its capacities and its order is.
pub fn request_of(c: Chain) -> Request
    ensures { result ≡ request_of c }
{
    Request {
        grid: c.grid,
        window: c.window,
        bounds: c.bounds,
        kernel: c.kernel,
    }
}

// A chain with one field set.

pub fn set_grid(c: Chain, grid: Grid) -> Chain
    ensures { result ≡ set_grid grid c }
{
    Chain { grid, ..c }
}

pub fn set_window(c: Chain, window: Window) -> Chain
    ensures { result ≡ set_window window c }
{
    Chain { window, ..c }
}

pub fn set_bounds(c: Chain, bounds: Bounds) -> Chain
    ensures { result ≡ set_bounds bounds c }
{
    Chain { bounds, ..c }
}

pub fn set_capacities(c: Chain, capacities: [u32; 31]) -> Chain
    ensures { result ≡ set_capacities capacities c }
{
    Chain { capacities, ..c }
}

pub fn set_order(c: Chain, order: Order) -> Chain
    ensures { result ≡ set_order order c }
{
    Chain { order, ..c }
}

pub fn set_kernel(c: Chain, kernel: Kernel) -> Chain
    ensures { result ≡ set_kernel kernel c }
{
    Chain { kernel, ..c }
}

// What a call did.
#[tactic(auto, unfolding(model::specs::Answers::answer_counts, model::specs::Answers::outcome_counts))]
pub fn counts_of(a: Result<Outcome, Refusal>) -> Counts
    ensures { result ≡ answer_counts a }
{
    match a {
        Err(_) => Counts {
            cells: 0,
            firings: 0,
            clocks: 0,
        },
        Ok(
            Outcome::Done(c)
            | Outcome::Spent(c)
            | Outcome::Starved(c)
            | Outcome::Stalled(c)
            | Outcome::Full(c),
        ) => c,
    }
}

// How many dimensions a grid has.
pub fn dims_of(grid: Grid) -> u8
    ensures { result ≡ dims_of grid }
{
    if grid.skewed {
        return 2;
    }
    grid.dims
}
