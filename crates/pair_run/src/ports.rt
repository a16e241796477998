// What a kernel of the pair gives of the rows of firings.
ghost use Rattle.std.specs.Prelude.{◌≡◌, ◌*◌, length};
ghost use Rattle.std.proofs.lemmas.List.Edits.{sets};
ghost use Rattle.pair_run.specs.Ports.{entry_of, through_of, port_of, RoomBy, given_by, RoomBoth, GivesBoth};

use model::{Kernel, Order, Side, Window};

// How a window's words come from a row of the chain's: the filters that its kernel adds, in its author's order, the filter that
// holds its centre, and the filters that raw writes, in chain order. A firing writes `width` words.
#[derive(Clone, Copy)]
pub(crate) struct Port {
    pub(crate) kernel: Kernel,
    pub(crate) centre: u8,
    pub(crate) adds: usize,
    pub(crate) count: usize,
    pub(crate) width: usize,
    pub(crate) terms: [u8; 32],
    pub(crate) writes: [u8; 32],
}

// Entry k of a table; 0 past its end.
fn entry(table: &[u8; 32], k: u8) -> u8
    ensures { result ≡ entry_of table.now k }
{
    table.get(k as usize).copied().unwrap_or(0)
}

// The filters that hold the first m references of a table.
fn through(held: &[u8; 32], references: &[u8; 32], m: usize) -> [u8; 32]
    ensures { result ≡ through_of held.now references.now m }
{
    let mut filters = [0u8; 32];
    for i in 0..m.min(32) {
        filters[i] = entry(held, references[i]);
    }
    filters
}

pub(crate) fn port_of(dims: u8, chain: Window, side: Side) -> Port
    ensures { result ≡ port_of dims chain side }
{
    let window = side.window;
    let kernel = side.kernel;
    let n = window.count as usize;
    let centre = windows::centre(dims, window);
    let order = Order {
        stood: false,
        filters: [0u8; 32],
    };
    let added = kernel_terms::terms_of(kernel, centre, n, order);
    let shown = pair_tables::chain_order(dims, chain, window);
    let held = pair_tables::held(dims, chain, window);
    Port {
        kernel,
        centre: entry(&held, centre),
        adds: added.count,
        count: n,
        width: kernel_terms::width(kernel, n),
        terms: through(&held, &added.filters, added.count),
        writes: through(&held, &shown.filters, n),
    }
}

// What the port's kernel gives of `count` firings, each of which has `n` words in `batch`. It goes to `out` from place `at` on.
fn give_by(g: Port, n: usize, batch: &[u32], count: usize, out: &mut [u32], at: usize)
    requires { RoomBy g n count at (length batch.now) (length out.old) }
    ensures { out.new ≡ sets out.old at (given_by g n count batch.now) }
{
    kernel_rows::give(
        g.kernel,
        g.centre,
        &g.terms[..g.adds],
        &g.writes[..g.count],
        n,
        batch,
        count,
        out,
        at,
    )
}

// Both kernels over the rows of `count` firings, before which there were `fired`.
pub(crate) fn give_both(
    first: Port,
    second: Port,
    n: usize,
    batch: &[u32],
    count: usize,
    fired: usize,
    out: &mut [u32],
    other: &mut [u32],
)
    requires { RoomBoth first second n count fired (length batch.now) (length out.old) (length other.old) }
    ensures { GivesBoth first second n count fired batch.now out.old out.new
        other.old other.new }
{
    give_by(first, n, batch, count, out, fired * first.width);
    give_by(second, n, batch, count, other, fired * second.width);
}
