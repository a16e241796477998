// Checks 7 and 8 of a kernel.

#![tactic(auto)]

ghost use Rattle.std.specs.Prelude.{◌≡◌};
ghost use Rattle.model.specs.Judging.{not_finite, bad_factor, needs_centre};

use model::Kernel;

// 7: the kernels that need a centre.
pub fn needs_centre(k: Kernel) -> bool
    ensures { result ≡ needs_centre k }
{
    match k {
        Kernel::Raw => false,
        Kernel::Difference => true,
        Kernel::Scaled(_) => false,
        Kernel::Blend(_) => true,
    }
}

// Infinite, or not a number.
fn not_finite(x: f32) -> bool
    ensures { result ≡ not_finite x }
{
    let infinity = f32::from_bits(0x7F800000);
    if x < infinity {
        if -infinity < x {
            return false;
        }
    }
    true
}

// 8: a factor that is infinite or not a number.
pub fn bad_factor(k: Kernel) -> bool
    ensures { result ≡ bad_factor k }
{
    match k {
        Kernel::Raw => false,
        Kernel::Difference => false,
        Kernel::Scaled(f) => not_finite(f),
        Kernel::Blend(g) => {
            if not_finite(g.a) {
                return true;
            }
            not_finite(g.b)
        }
    }
}
