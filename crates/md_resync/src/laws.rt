//! What holds of a resync in the life of a mirror. The function does nothing: its contract is the theorem.
ghost use Rattle.md_resync.specs.InLives.{ResyncsContentInLives};

/// A mirror was opened from devices that do what they answer, whose stored marks covered what they differ in,
/// and has come to any moment of its life. A resync that is done then makes one content of what the life has.
/// Nothing is asked of sectors that a member lists in memory and not on its device: there members agree
/// throughout such a life.
pub fn resynced_in_life()
    ensures { ResyncsContentInLives }
{}
