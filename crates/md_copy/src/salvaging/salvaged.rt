// What a salvage tells.
use md_badblocks::BadSet;
use md_cert::Planned;

/// What a salvage did.
#[derive(Debug, Drop)]
pub struct Salvaged {
    /// The plan of its pass. Its orphans, and the chunks that could not be read as it says, were taken sector by sector.
    pub planned: Planned,
    /// The sectors of the array that no member in sync gave. The salvaged member lists them, and so does each of those.
    pub lost: BadSet,
    /// These, and sectors between them that are listed too, as a log has no room for so many runs.
    pub listed: BadSet,
}
