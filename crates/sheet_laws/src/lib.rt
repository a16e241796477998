// Laws of the sheet's definitions, for every list of bytes: proofs/.

#![tactic(auto)]

// Where a line of a chain sheet stands behind the grid's: in which section, and which of its lines it is.
#[derive(Clone, Copy)]
pub enum Part {
    Offset(usize),
    Box,
    Capacity(usize),
    Order,
    Kernel,
}
