// The entries in order.
ghost use Rattle.std.specs.Iterator.{YieldsFirstBy, item_count};

use crate::chain::Chain;
use crate::place::Place;
use std::marker::Model;

/// The numbers and items of a list in order of entry, seen as the list of those that are left.
#[derive(Drop)]
pub struct Iter<'a, T> {
    pub(crate) chain: &'a Chain<T>,
    // Where the first of those that are left lies.
    pub(crate) ahead: Option<Place>,
}

impl<'a, T> Model for Iter<'a, T> {
    ghost use Rattle.std.specs.Prelude.{ℕ, List, IfSome};
    ghost use Rattle.md_inflight.specs.Placed.{IsAt};
    ghost use Rattle.md_inflight.specs.Linked.{IsChain};
    ghost use Rattle.md_inflight.specs.Kept.{items_from};

    ghost Value = { List (ℕ × T) };

    ghost view = { λ it. items_from it.ahead it.chain.now.nodes };

    ghost invariant = { λ it. IsChain it.chain.now.first it.chain.now.last it.chain.now.nodes × IfSome it.ahead (λ place. IsAt it.chain.now.nodes place.ptr) };
}

impl<'a, T> Iterator for Iter<'a, T> {
    type Item = (u64, &'a T);

    ghost next_gives = { YieldsFirstBy (λ item. (item.0, item.1.now)) (λ rest. rest) };

    ghost remaining = { item_count (λ rest. rest) };

    fn next(&mut self) -> Option<(u64, &'a T)> {
        let place = self.ahead?;
        self.ahead = self.chain.next(place);
        let node = self.chain.node(place);
        Some((node.number, &node.item))
    }
}
