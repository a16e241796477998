// Document 003, section 3.3.2: the reuse distances of all pairs of neighbours, which are the FIFOs' sizes. On a rectangle a
// pair's distance is the same in all iterations, so the first one's positions tell it.
ghost use Rattle.std.specs.Prelude.{ℕ, ◌+◌, ◌-◌, ◌≤◌, ◌<◌};
ghost use Rattle.geometry.specs.Parts.{number_at, Filled};

// The positions that the references read, in this order of them.
fn in_order(at: &[u32; 32], order: &[usize; 32], n: usize) -> [u32; 32]
    requires { (n ≤ 32) × ((k : ℕ) → k < n → number_at order.now k < n) }
    ensures { Filled 32 0 (λ k. number_at at.now (number_at order.now k)) n result }
{
    let mut r = [0u32; 32];
    for k in 0..n {
        let t = order[k];
        r[k] = at[t];
    }
    r
}

// Each position less the next.
fn differences(at: &[u32; 32], n: usize) -> [u32; 31]
    requires { (0 < n) × (n ≤ 32) × ((k : ℕ) → k + 1 < n → number_at at.now (k + 1) ≤ number_at at.now k) }
    ensures { Filled 31 0 (λ k. number_at at.now k - number_at at.now (k + 1)) (n - 1) result }
{
    let mut r = [0u32; 31];
    for k in 0..n - 1 {
        r[k] = at[k] - at[k + 1];
    }
    r
}

// The distances of neighbours, where `at` has the position that each reference reads in one iteration, and `order` is the
// references' in which no position is below the next.
pub(crate) fn distances(at: &[u32; 32], order: &[usize; 32], n: usize) -> [u32; 31]
    requires { (0 < n) × (n ≤ 32) × ((k : ℕ) → k < n → number_at order.now k < n)
        × ((k : ℕ) → k + 1 < n
        → number_at at.now (number_at order.now (k + 1)) ≤ number_at at.now (number_at order.now k)) }
    ensures { Filled 31 0
        (λ k. number_at at.now (number_at order.now k) - number_at at.now
        (number_at order.now (k + 1))) (n - 1) result }
{
    let sorted = in_order(at, order, n);
    differences(&sorted, n)
}
