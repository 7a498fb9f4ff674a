// Where a node lies.

/// The address of a node. It owns nothing.
///
/// It has the type of no node, so a ticket needs no type parameter and a node can hold it.
#[derive(Clone, Copy)]
pub struct Place {
    pub(crate) ptr: *mut u8,
}

unsafe impl Send for Place {}

unsafe impl Sync for Place {}
