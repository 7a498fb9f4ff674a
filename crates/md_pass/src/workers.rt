// What the workers of a pass are run with.
use std::alloc::Global;

/// The workers of a pass: what starts their threads, where the memory for what they read comes from, and the gate that is
/// told of each read.
#[derive(Drop)]
pub struct Workers<'a, G, R> {
    pub rt: &'a R,
    pub alloc: Global,
    pub gate: &'a G,
}
