// An entry on the heap, with its own links.
use crate::place::Place;

/// An entry and where its neighbours lie. The first has no `prev`, the last no `next`.
pub struct Node<T> {
    pub(crate) number: u64,
    pub(crate) item: T,
    pub(crate) prev: Option<Place>,
    pub(crate) next: Option<Place>,
}
