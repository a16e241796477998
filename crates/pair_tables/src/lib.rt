// The tables by which a run gives one of two kernels the words of its own window (document 02, request 6). What is answered of
// what an array does not hold is fixed in specs/.

#![tactic(auto)]

ghost use Rattle.std.specs.Prelude.{◌≡◌, ◌≤◌};
ghost use Rattle.model.specs.Lists.{tabulate};
ghost use Rattle.model.specs.Values.{filter_array};
ghost use Rattle.kernel_terms.specs.FilterTables.{table_of};
ghost use Rattle.geometry.specs.Parts.{offset_at};
ghost use Rattle.windows.specs.Offsets.{front};
ghost use Rattle.pair_tables.specs.Tables.{place_in, filters_of, terms_in, held_in, chain_order_in};

use kernel_terms::Terms;
use model::Window;
use pair_windows::both_held;
use windows::{offset_of, same_offset};

// Which of a window's references has this offset.
fn which(o: [i16; 4], window: &Window, dims: usize) -> Option<u8>
    requires { (window.now.count ≤ 32) × (dims ≤ 4) }
    ensures { result
        ≡ place_in (tabulate window.now.count (offset_at dims window.now.offsets)) (front dims o) }
{
    for k in 0..window.count {
        let p = offset_of(&window.offsets, k as usize);
        if same_offset(o, p, dims) {
            return Some(k);
        }
    }
    None
}

// For each of a window's references the filter that holds it; the number of filters where none does.
fn held_in(chain: &Window, own: &Window, dims: usize) -> [u8; 32]
    requires { (chain.now.count ≤ 32) × (own.now.count ≤ 32) × (dims ≤ 4) }
    ensures { result
        ≡ filter_array
        (filters_of (tabulate chain.now.count (offset_at dims chain.now.offsets))
        (tabulate own.now.count (offset_at dims own.now.offsets))) }
{
    let mut filters = [0u8; 32];
    for k in 0..own.count as usize {
        let o = offset_of(&own.offsets, k);
        filters[k] = which(o, chain, dims).unwrap_or(chain.count);
    }
    filters
}

// For each of a window's references, in its author's order, the filter that holds it.
#[tactic(auto, using(crate::proofs::TableLaws::answers))]
pub fn held(dims: u8, chain: Window, own: Window) -> [u8; 32]
    ensures { result ≡ held_in dims chain own }
{
    if !both_held(dims, chain.count, own.count) {
        return [0u8; 32];
    }
    held_in(&chain, &own, dims as usize)
}

// Which of a window's references each filter holds, filters that hold none left out.
fn chain_order_in(chain: &Window, own: &Window, dims: usize) -> Terms
    requires { (chain.now.count ≤ 32) × (own.now.count ≤ 32) × (dims ≤ 4) }
    ensures { result
        ≡ table_of
        (terms_in (tabulate chain.now.count (offset_at dims chain.now.offsets))
        (tabulate own.now.count (offset_at dims own.now.offsets))) }
{
    let mut filters = [0u8; 32];
    let mut count: usize = 0;
    for k in 0..chain.count as usize {
        let o = offset_of(&chain.offsets, k);
        let Some(j) = which(o, own, dims) else {
            continue;
        };
        filters[count] = j;
        count += 1;
    }
    Terms { filters, count }
}

// A window's references in chain order, by their numbers in its author's.
#[tactic(auto, using(crate::proofs::TableLaws::answers))]
pub fn chain_order(dims: u8, chain: Window, own: Window) -> Terms
    ensures { result ≡ chain_order_in dims chain own }
{
    if !both_held(dims, chain.count, own.count) {
        return Terms {
            filters: [0u8; 32],
            count: 0,
        };
    }
    chain_order_in(&chain, &own, dims as usize)
}
