// The nodes of a list, linked both ways. What turns an address into memory stands in this file alone.
ghost use Rattle.std.specs.Prelude.{◌≡◌, List, [], ◌∷◌, ◌++◌, IfOk, IfErr, OnErr};
ghost use Rattle.std.specs.Borrow.{sem};
ghost use Rattle.std.specs.Coded.{prop_coded};
ghost use denote.RawPtr.{Ptr};
ghost use Rattle.md_inflight.specs.declared.node.Node.{Node};
ghost use Rattle.md_inflight.specs.Placed.{LieApart, LieApart-prop, IsAt, AtPlace};
ghost use Rattle.md_inflight.specs.Ownership.{held_owns, held_lent};
ghost use Rattle.md_inflight.specs.Linked.{IsChain, entries};

use crate::node::Node;
use crate::place::Place;
use std::alloc::{AllocFailed, Global};
use std::marker::{Model, PhantomData, Send, Sync};
use std_alloc::room::Vacant;

/// The owner of the nodes. It has no drop: it ends by `end`, once each node is freed.
pub struct Chain<T> {
    first: Option<Place>,
    last: Option<Place>,
    mark: PhantomData<*mut T>,
    ghost nodes: { List (Ptr × Node T) },
    ghost apart: { LieApart nodes } by { prop_coded (LieApart-prop nodes) },
}

impl<T> Model for Chain<T> {
    ghost also_owns = { λ c. held_owns T.row c.nodes };

    ghost also_shares = { λ c _ κ. held_lent T.row c.nodes κ };
}

unsafe impl<T: Send> Send for Chain<T> {}

unsafe impl<T: Sync> Sync for Chain<T> {}

impl<T> Chain<T> {
    ghost use Rattle.md_inflight.specs.ChainLends.{lends_node};

    /// The chain of no node.
    pub(crate) fn new() -> Self
        ensures { IsChain result.first result.last result.nodes × (result.nodes ≡ []) }
    {
        Chain {
            first: None,
            last: None,
            mark: PhantomData,
        }
    }

    /// Fills the room and links it in after the last node.
    fn link_last(&mut self, room: Vacant<Node<T>, Global>, number: u64, item: T) -> Place
        requires { IsChain self.old.first self.old.last self.old.nodes }
        ensures { IsChain self.new.first self.new.last self.new.nodes × (entries self.new.nodes ≡ entries self.old.nodes ++ (result.ptr, (number, item)) ∷ []) }
    {
        let Vacant { ptr, alloc: _ } = room;
        let place = Place {
            ptr: ptr as *mut u8,
        };
        let prev = self.last;
        let node = Node {
            number,
            item,
            prev,
            next: None,
        };
        unsafe { ptr.write(node) };
        match prev {
            None => self.first = Some(place),
            Some(prev) => unsafe { (*(prev.ptr as *mut Node<T>)).next = Some(place) },
        }
        self.last = Some(place);
        place
    }

    /// Links the neighbours of the node to one another. Gives its item, and its room to be freed.
    fn unlink(&mut self, place: Place, alloc: Global) -> (T, Vacant<Node<T>, Global>)
        requires { IsAt self.old.nodes place.ptr × IsChain self.old.first self.old.last self.old.nodes }
        ensures { IsChain self.new.first self.new.last self.new.nodes × AtPlace self.old.nodes place.ptr (λ xs node ys. (entries self.new.nodes ≡ entries (xs ++ ys)) × (result.0 ≡ node.item)) }
    {
        let ptr = place.ptr as *mut Node<T>;
        let Node {
            number: _,
            item,
            prev,
            next,
        } = unsafe { ptr.read() };
        match prev {
            None => self.first = next,
            Some(prev) => unsafe { (*(prev.ptr as *mut Node<T>)).next = next },
        }
        match next {
            None => self.last = prev,
            Some(next) => unsafe { (*(next.ptr as *mut Node<T>)).prev = prev },
        }
        (item, Vacant { ptr, alloc })
    }

    /// Where the first node lies.
    pub(crate) fn first(&self) -> Option<Place>
        ensures { result ≡ self.now.first }
    {
        self.first
    }

    /// Where the node after this one lies.
    pub(crate) fn next(&self, place: Place) -> Option<Place>
        requires { IsAt self.now.nodes place.ptr }
        ensures { AtPlace self.now.nodes place.ptr (λ _ node _. result ≡ node.next) }
    {
        unsafe { (*(place.ptr as *mut Node<T>)).next }
    }

    /// The node there.
    pub(crate) fn node(&self, place: Place) -> &Node<T>
        requires { IsAt self.now.nodes place.ptr }
        ensures { AtPlace self.now.nodes place.ptr (λ _ node _. result.now ≡ node) }
    {
        unsafe { &*(place.ptr as *mut Node<T>) }
    }

    /// The node there, for writing.
    pub(crate) fn node_mut(&mut self, place: Place) -> &mut Node<T>
        requires { IsAt self.old.nodes place.ptr }
        ensures* writes_back { sem 𝓛 (lends_node T.row self.entry place.ptr result) }
        ensures node { AtPlace self.old.nodes place.ptr (λ _ node _. result.now ≡ node) }
    {
        unsafe { &mut *(place.ptr as *mut Node<T>) }
    }

    /// Enters a new node at the end.
    pub(crate) fn push(
        &mut self,
        alloc: Global,
        number: u64,
        item: T,
    ) -> Result<Place, AllocFailed<T>>
        requires { IsChain self.old.first self.old.last self.old.nodes }
        ensures chain { IsChain self.new.first self.new.last self.new.nodes }
        ensures entries { IfOk result (λ place. entries self.new.nodes ≡ entries self.old.nodes ++ (place.ptr, (number, item)) ∷ []) }
        ensures item { IfErr result (λ refused. refused.value ≡ item) }
        ensures err { OnErr result (self.new ≡ self.old) }
    {
        match Vacant::take(alloc) {
            Ok(room) => Ok(self.link_last(room, number, item)),
            Err(_) => Err(AllocFailed { value: item }),
        }
    }

    /// Takes the node there out, frees it and gives its item.
    pub(crate) fn remove(&mut self, place: Place, alloc: Global) -> T
        requires place { IsAt self.old.nodes place.ptr }
        requires chain { IsChain self.old.first self.old.last self.old.nodes }
        ensures chain { IsChain self.new.first self.new.last self.new.nodes }
        ensures entries { AtPlace self.old.nodes place.ptr (λ xs node ys. (entries self.new.nodes ≡ entries (xs ++ ys)) × (result ≡ node.item)) }
    {
        let (item, room) = self.unlink(place, alloc);
        room.free();
        item
    }

    /// Ends it, once no node is left.
    pub(crate) fn end(self)
        requires { self.nodes ≡ [] }
    {
        let Self {
            first: _,
            last: _,
            mark: _,
        } = self;
    }
}
