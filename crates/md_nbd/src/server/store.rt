// What is served.
ghost use Rattle.std.specs.Prelude.{◌≡◌, ◌+◌, ◌/◌, ◌%◌, ◌<◌, ◌≤◌, Bool, List, ℕ, IfErr, MatchResult, OnOk, length};
ghost use Rattle.md_nbd.specs.declared.server.store.StoreFault.{StoreFault as Why};

/// Why sectors are not read, or a write or a flush was not done, or not surely.
#[derive(Clone, Copy, Debug, PartialEq, Eq)]
pub enum StoreFault {
    /// Nothing is done any more.
    Halted,
    /// This sector is not given. It is the first of them.
    Lacks(u64),
    NoMemory,
    /// No sector can be read.
    NotRead,
    /// It can't be written, nor what was written before and waits.
    NotWritten,
}

/// Sectors of 512 bytes that are read and written, as those of a mirror: it is lent to each call, and the store keeps only how it is
/// used and what is noted of that. What a call has done is said by relations, from both of them before to both after.
pub trait Store<M> {
    /// What each call needs and keeps.
    ghost is_sound: { Self × M → Type 0 };

    /// How many sectors there are.
    ghost sectors: { Self × M → ℕ };

    /// These bytes were read from this sector on.
    ghost reads: { Self × M → Self × M → ℕ → List ℕ → Type 0 };

    /// So many sectors from this one on were not all given.
    ghost unread: { Self × M → Self × M → ℕ → ℕ → Type 0 };

    /// Why so many sectors from this one on were not all given.
    ghost why_unread: { Self × M → Self × M → ℕ → ℕ → Why → Type 0 };

    /// These bytes are written from this sector on: they are read from now on, and stand once all that was written does, or at
    /// once if that is asked.
    ghost writes: { Self × M → Self × M → ℕ → List ℕ → Bool → Type 0 };

    /// These bytes are not written from this sector on, or not surely.
    ghost unwritten: { Self × M → Self × M → ℕ → List ℕ → Type 0 };

    /// Why these bytes are not written from this sector on, or not surely.
    ghost why_unwritten: { Self × M → Self × M → ℕ → List ℕ → Why → Type 0 };

    /// All that was written stands, whatever comes.
    ghost flushes: { Self × M → Self × M → Type 0 };

    /// That all that was written stands is not sure.
    ghost unflushed: { Self × M → Self × M → Type 0 };

    /// Why it is not sure.
    ghost why_unflushed: { Self × M → Self × M → Why → Type 0 };

    /// All that was written stands, and nothing is kept any more only because more may be written soon.
    ghost rests: { Self × M → Self × M → Type 0 };

    /// Fills `buf` with the sectors from this one on, or with any bytes where one of them is not given.
    fn read(&mut self, lent: &mut M, sector: u64, buf: &mut [u8]) -> Result<(), StoreFault>
        requires whole { length buf.old % 512 ≡ 0 }
        requires some { 0 < length buf.old }
        requires fits { sector + length buf.old / 512 ≤ sectors (self.old, lent.old) }
        requires sound { is_sound (self.old, lent.old) }
        ensures gives { MatchResult result
            (λ _. reads (self.old, lent.old) (self.new, lent.new) sector buf.new)
            (λ _. unread (self.old, lent.old) (self.new, lent.new) sector (length buf.old / 512)) }
        ensures why { IfErr result (why_unread (self.old, lent.old) (self.new, lent.new) sector (length buf.old / 512)) }
        ensures sound { is_sound (self.new, lent.new) }
        ensures size { sectors (self.new, lent.new) ≡ sectors (self.old, lent.old) };

    /// Writes these bytes from this sector on; with `through` they have to stand before the answer.
    fn write(
        &mut self,
        lent: &mut M,
        sector: u64,
        bytes: &[u8],
        through: bool,
    ) -> Result<(), StoreFault>
        requires whole { length bytes.now % 512 ≡ 0 }
        requires some { 0 < length bytes.now }
        requires fits { sector + length bytes.now / 512 ≤ sectors (self.old, lent.old) }
        requires sound { is_sound (self.old, lent.old) }
        ensures gives { MatchResult result
            (λ _. writes (self.old, lent.old) (self.new, lent.new) sector bytes.now through)
            (λ _. unwritten (self.old, lent.old) (self.new, lent.new) sector bytes.now) }
        ensures why { IfErr result (why_unwritten (self.old, lent.old) (self.new, lent.new) sector bytes.now) }
        ensures sound { is_sound (self.new, lent.new) }
        ensures size { sectors (self.new, lent.new) ≡ sectors (self.old, lent.old) };

    /// Makes what was written stand.
    fn flush(&mut self, lent: &mut M) -> Result<(), StoreFault>
        requires sound { is_sound (self.old, lent.old) }
        ensures gives { MatchResult result
            (λ _. flushes (self.old, lent.old) (self.new, lent.new))
            (λ _. unflushed (self.old, lent.old) (self.new, lent.new)) }
        ensures why { IfErr result (why_unflushed (self.old, lent.old) (self.new, lent.new)) }
        ensures sound { is_sound (self.new, lent.new) }
        ensures size { sectors (self.new, lent.new) ≡ sectors (self.old, lent.old) };

    /// Makes what was written stand, as the client was silent, and gives up what is kept only because more may be written soon.
    fn rest(&mut self, lent: &mut M) -> Result<(), StoreFault>
        requires sound { is_sound (self.old, lent.old) }
        ensures gives { MatchResult result
            (λ _. flushes (self.old, lent.old) (self.new, lent.new))
            (λ _. unflushed (self.old, lent.old) (self.new, lent.new)) }
        ensures rests { OnOk result (rests (self.old, lent.old) (self.new, lent.new)) }
        ensures sound { is_sound (self.new, lent.new) }
        ensures size { sectors (self.new, lent.new) ≡ sectors (self.old, lent.old) };
}
