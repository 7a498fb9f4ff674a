// What a rebuild tells.
use md_cert::Planned;

/// What a rebuild did.
#[derive(Debug, Drop)]
pub struct Rebuilt {
    /// How many plans were carried out.
    pub passes: u32,
    /// The plans, in their order.
    pub plans: Vec<Planned>,
    /// The chunks that no member could give, in rising order. The rebuilt member lists them.
    pub orphans: Vec<u32>,
}
