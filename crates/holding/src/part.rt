// The block of one subsystem together with M. Assumes nothing.
ghost use Rattle.holding.specs.Slots.{Counted};

use table::grid::Block;

// A subsystem's block, and how many resources are in use. Rule 1 has judged its counts, so no index below them leaves the block:
// whoever writes such a value down has to know it, and whoever is lent one may rely on it.
#[derive(Clone, Copy)]
pub struct Part<'a> {
    pub block: &'a Block,
    pub m: usize,
    ghost counted: { Counted block.now m },
}
