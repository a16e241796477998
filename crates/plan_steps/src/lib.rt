// The three steps of planning, in the order of document 003, section 3.3: the offsets sorted (sorting.rt), the distances of
// neighbours (distances.rt), their sum (total.rt).

#![tactic(auto)]

mod distances;
mod sorting;
pub mod total;

ghost use Rattle.std.specs.Prelude.{true, false, [], ◌≡◌, Ok};
ghost use Rattle.model.specs.Judging.{judge_window};
ghost use Rattle.model.specs.Steps.{steps_of};
ghost use Rattle.plan_steps.specs.Order.{FirstPositions};

use model::{Bounds, Grid, Refusal, Steps, Window};

// The results of a rectangle, a window and a box that 3 to 6 and 15 let pass, where `at` has the position that each reference
// reads in the first iteration that is covered.
fn taken(grid: Grid, window: Window, bounds: Bounds, at: &[u32; 32]) -> Steps
    requires { (grid.skewed ≡ false) × (judge_window grid [] window bounds ≡ Ok tt)
        × FirstPositions grid window bounds at.now }
    ensures { Ok result ≡ steps_of grid [] window bounds }
{
    let n = window.count as usize;
    // Section 3.3.2: the offsets sorted,
    let order = sorting::order_of(&window.offsets, n, grid.dims as usize);
    let sorted = sorting::arranged(grid.dims, window, &order);
    let filters = sorting::held_by(&order, n);
    // the distances of neighbours;
    let distances = distances::distances(at, &order, n);
    // section 3.3.3: their sum.
    let total = total::total(&distances, window.count);
    Steps {
        window: sorted,
        filters,
        distances,
        total,
    }
}

// The same of rows.
fn taken_on_rows(grid: Grid, rows: &[u32], window: Window, bounds: Bounds) -> Steps
    requires { (grid.skewed ≡ true) × (judge_window grid rows.now window bounds ≡ Ok tt) }
    ensures { Ok result ≡ steps_of grid rows.now window bounds }
{
    let n = window.count as usize;
    let order = sorting::order_of(&window.offsets, n, 2);
    let sorted = sorting::arranged(2, window, &order);
    let filters = sorting::held_by(&order, n);
    let distances = row_courses::distances(grid.rows, rows, sorted, bounds);
    let total = total::total(&distances, window.count);
    Steps {
        window: sorted,
        filters,
        distances,
        total,
    }
}

fn on_rectangle(grid: Grid, window: Window, bounds: Bounds) -> Result<Steps, Refusal>
    requires { grid.skewed ≡ false }
    ensures { result ≡ steps_of grid [] window bounds }
{
    let survey = shape::survey_of(grid, window, bounds)?;
    Ok(taken(grid, window, bounds, &survey.shape.at))
}

fn on_rows(grid: Grid, rows: &[u32], window: Window, bounds: Bounds) -> Result<Steps, Refusal>
    requires { grid.skewed ≡ true }
    ensures { result ≡ steps_of grid rows.now window bounds }
{
    rows::survey(grid.rows, rows, window, bounds)?;
    Ok(taken_on_rows(grid, rows, window, bounds))
}

// The three results, of every grid, window and box that 3 (on rows 16) to 6 and 15 let pass, also of those that 7, 8 or 9
// turns back with a kernel; else the first of these that refuses.
pub fn steps(grid: Grid, rows: &[u32], window: Window, bounds: Bounds) -> Result<Steps, Refusal>
    ensures { result ≡ steps_of grid rows.now window bounds }
{
    if grid.skewed {
        return on_rows(grid, rows, window, bounds);
    }
    on_rectangle(grid, window, bounds)
}
