// What a client is served.
use crate::export::Export;

/// What a client is served: the export, and the watch that is told of each request that is answered with an error.
#[derive(Drop)]
pub struct Service<'a, W> {
    pub export: &'a Export,
    pub watch: &'a W,
}
