// Document 003, section 3.3.3: the sum of the FIFOs' sizes.
ghost use Rattle.std.specs.Prelude.{◌≡◌, ◌≤◌, length, sum};
ghost use Rattle.plan_steps.specs.Totals.{total_in};

// The sum of the sizes of at most 31 FIFOs.
fn sum_of(sizes: &[u32]) -> u64
    requires { length sizes.now ≤ 31 }
    ensures { result ≡ sum sizes.now }
{
    sizes.iter().map(|&x| u64::from(x)).sum()
}

// The sum of those between `count` filters, of any count; where 4 turns it back there are no FIFOs.
#[tactic(auto, using(grid_laws::proofs::CheckLaws::few_references, grid_laws::proofs::CheckLaws::some_references))]
pub fn total(sizes: &[u32; 31], count: u8) -> u64
    ensures { result ≡ total_in count sizes.now }
{
    if limits::bad_count(count) {
        return 0;
    }
    sum_of(&sizes[..count as usize - 1])
}
