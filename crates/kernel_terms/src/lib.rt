// The filters whose words a kernel adds, and how many words it writes (document 01, "Kernels").

#![tactic(auto)]

ghost use Rattle.std.specs.Prelude.{◌≡◌, ◌≤◌, ◌<◌, min};
ghost use Rattle.model_run.specs.Kernels.{width as width_of, terms as terms_of};
ghost use Rattle.kernel_terms.specs.FilterTables.{table_of, term_of, filters_for, all_but};

use model::{Kernel, Order};

// How many words a firing writes, where raw writes those of n filters.
#[tactic(auto, unfolding(model_run::specs::Kernels::width))]
pub fn width(k: Kernel, n: usize) -> usize
    ensures { result ≡ width_of k n }
{
    match k {
        Kernel::Raw => n,
        Kernel::Difference | Kernel::Scaled(_) | Kernel::Blend(_) => 1,
    }
}

// Filter numbers in a table: the first `count` of it.
#[derive(Clone, Copy)]
pub struct Terms {
    pub filters: [u8; 32],
    pub count: usize,
}

// The filter of term t: the author's, or, where the line did not stand, that of chain order.
fn term_at(order: &Order, t: usize) -> u8
    requires { t < 32 }
    ensures { result ≡ term_of order.now.stood order.now.filters t }
{
    if order.stood {
        order.filters[t]
    } else {
        t as u8
    }
}

// The filters of the first n terms but the centre, if there is one to leave out.
fn all_but(centre: Option<u8>, n: usize, order: &Order) -> Terms
    requires { n ≤ 32 }
    ensures { result ≡ table_of (all_but centre (filters_for n order.now)) }
{
    let mut filters = [0u8; 32];
    let mut count = 0;
    for t in 0..n {
        let k = term_at(order, t);
        if centre == Some(k) {
            continue;
        }
        filters[count] = k;
        count += 1;
    }
    Terms { filters, count }
}

// The filters whose words the kernel adds, in the author's order; there are n filters, counted no further than 32.
pub fn terms_of(k: Kernel, centre: u8, n: usize, order: Order) -> Terms
    ensures { result ≡ table_of (terms_of k centre (filters_for (min n 32) order)) }
{
    let m = n.min(32);
    match k {
        Kernel::Raw => Terms {
            filters: [0; 32],
            count: 0,
        },
        Kernel::Difference => all_but(Some(centre), m, &order),
        Kernel::Scaled(_) => all_but(None, m, &order),
        Kernel::Blend(_) => all_but(Some(centre), m, &order),
    }
}
