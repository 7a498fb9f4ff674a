// The end of a chain, outside the file that can take one apart: so each node has to go before.
ghost use Rattle.md_inflight.specs.Linked.{IsChain};

use crate::chain::Chain;
use std::alloc::Global;

/// Frees all nodes and drops their items, first to last.
pub(crate) fn free_all<T: Drop>(mut chain: Chain<T>, alloc: Global)
    requires { IsChain chain.first chain.last chain.nodes }
{
    while let Some(place) = chain.first() {
        chain.remove(place, alloc);
    }
    chain.end();
}
