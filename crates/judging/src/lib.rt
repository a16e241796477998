// Judging a chain that is handed over as a value, by 3 to 9, lowest first, with 15 after 6, then 14; and a request behind the
// steps of its plan.

#![tactic(auto)]

ghost use Rattle.std.specs.Prelude.{◌≡◌, false, ◌-◌, ◌≤◌, Err};
ghost use Rattle.model.specs.Answers.{by_answer};
ghost use Rattle.model.specs.Lists.{tabulate};
ghost use Rattle.model.specs.Judging.{bad_count, lacks_centre, bad_order, judge_behind, judge_chain};
ghost use Rattle.model.specs.Values.{order_of};
ghost use Rattle.geometry.specs.Parts.{number_at};
ghost use Rattle.windows.specs.Windows.{has_centre};
ghost use Rattle.judging.specs.Checks.{judged_rest, examined_of, examined_rows};

use model::{Chain, Kernel, Order, Refusal, Window};
use rows::RowSurvey;
use shape::Survey;

// 7: difference or blend without a centre.
fn lacks_centre(kernel: Kernel, centred: bool) -> bool
    ensures { result ≡ lacks_centre kernel centred }
{
    kernel_checks::needs_centre(kernel) && !centred
}

// 7, 8 and 9, where 3 to 6 and 15 let pass, the window has a centre or has none, and the capacities sum to `total`.
fn judge_total(kernel: Kernel, centred: bool, total: u64) -> Result<(), Refusal>
    ensures { result ≡ judge_behind kernel centred total }
{
    if lacks_centre(kernel, centred) {
        return Err(Refusal::NoCentre);
    }
    if kernel_checks::bad_factor(kernel) {
        return Err(Refusal::BadFactor);
    }
    if limits::too_large(total) {
        return Err(Refusal::TooLarge);
    }
    Ok(())
}

// What 3 to 6 and 15 found of a request's window before it was planned; where they let pass, 7 and 8, and 9 by the total of
// its distances.
pub fn judge_planned(
    found: Result<u64, Refusal>,
    dims: u8,
    window: Window,
    kernel: Kernel,
) -> Result<(), Refusal>
    ensures { result ≡ by_answer found (judge_behind kernel (has_centre dims window)) Err }
{
    judge_total(kernel, windows::has_centre(dims, window), found?)
}

// 14: the first n numbers are not each of 0 .. n - 1 once.
fn not_each_once(filters: &[u8; 32], n: usize) -> bool
    requires { n ≤ 32 }
    ensures { result ≡ bad_order n (tabulate n (number_at filters.now)) }
{
    let mut seen = [false; 32];
    for t in 0..n {
        let k = filters[t] as usize;
        if n <= k {
            return true;
        }
        if seen[k] {
            return true;
        }
        seen[k] = true;
    }
    false
}

// The same of an author's order; where its line did not stand, it plays no part.
fn bad_order(order: Order, count: u8) -> bool
    requires { bad_count count ≡ false }
    ensures { result ≡ bad_order count (order_of count order) }
{
    order.stood && not_each_once(&order.filters, count as usize)
}

// 7 to 9 and 14 of a chain, where 3 to 6 and 15 let pass; 9 goes by the capacities given.
fn judge_rest(
    kernel: Kernel,
    centred: bool,
    count: u8,
    capacities: &[u32; 31],
    order: Order,
) -> Result<(), Refusal>
    requires { bad_count count ≡ false }
    ensures { result
        ≡ judged_rest kernel centred (tabulate (count - 1) (number_at capacities.now)) count (order_of count order) }
{
    let total = plan_steps::total::total(capacities, count);
    judge_total(kernel, centred, total)?;
    if bad_order(order, count) {
        Err(Refusal::BadOrder)
    } else {
        Ok(())
    }
}

// Of a chain that 3 to 6 and 15 let pass: what the survey of its window finds, and the first of 7 to 9 and 14 that turns it back.
#[derive(Clone, Copy)]
pub struct Examined<S> {
    pub survey: S,
    pub verdict: Result<(), Refusal>,
}

// A chain, its grid taken for a rectangle; or the first of 3 to 6 and 15 that turns it back.
pub fn examine(c: Chain) -> Result<Examined<Survey>, Refusal>
    ensures { result ≡ examined_of c }
{
    let survey = shape::survey_of(c.grid, c.window, c.bounds)?;
    let centred = survey.centre < c.window.count;
    let verdict = judge_rest(c.kernel, centred, c.window.count, &c.capacities, c.order);
    Ok(Examined { survey, verdict })
}

// The same of a chain, its grid taken for rows: 16 in place of 3.
pub fn examine_rows(c: Chain, rows: &[u32]) -> Result<Examined<RowSurvey>, Refusal>
    ensures { result ≡ examined_rows c rows.now }
{
    let survey = rows::survey(c.grid.rows, rows, c.window, c.bounds)?;
    let centred = survey.centre < c.window.count;
    let verdict = judge_rest(c.kernel, centred, c.window.count, &c.capacities, c.order);
    Ok(Examined { survey, verdict })
}

// The first of 3 (on rows 16) to 9, 14 and 15 that turns a chain back; 9 goes by the capacities given.
pub fn judge_chain(c: Chain, rows: &[u32]) -> Result<(), Refusal>
    ensures { result ≡ judge_chain c rows.now }
{
    if c.grid.skewed {
        examine_rows(c, rows)?.verdict
    } else {
        examine(c)?.verdict
    }
}
