// What is told of a rebuild, of a check and of a write.
ghost use Rattle.std.specs.Prelude.{◌<◌, ℕ, Option};

use crate::gate::Gate;

/// Is told of a rebuild, of a check, or of a write piece by piece, so that its progress can be shown: what it has to do, and as a
/// gate of each read, or after each piece, what is done. So it is known too what stands of a write that ends early.
pub trait Watch: Gate {
    /// It was told that the member which is rebuilt lacks so many chunks, of which this is the first. Only `begins` says
    /// it, so that a call of which a contract says it has told the watch.
    ghost lacks: { Self → ℕ → Option ℕ → Type 0 };

    /// It was told that the rebuild of this member is taken up: it lacks so many chunks, of which this is the first, of so many that there
    /// are. Only `takes_up` says it.
    ghost taken_up: { Self → ℕ → ℕ → Option ℕ → ℕ → Type 0 };

    /// It was told that the members which are compared have so many sectors in all. Only `begins_check` says it.
    ghost compares: { Self → ℕ → Type 0 };

    /// It was told that an input of so many sectors is to be written. Only `begins_write` says it.
    ghost writes: { Self → ℕ → Type 0 };

    /// It was told that so many sectors of an input are written. Only `wrote` says it.
    ghost has_written: { Self → ℕ → Type 0 };

    /// The member that is rebuilt lacks so many chunks, of which this is the first. Not each of them need be
    /// read: some may be on no other member. One that can't be read on a member may be read again from another.
    fn begins(&self, chunks: u32, first: Option<u32>)
        ensures { lacks self.now chunks first };

    /// The rebuild of this member is taken up: it is recovering, and lacks so many chunks, of which this is the first, but not all that
    /// there are.
    fn takes_up(&self, member: usize, missing: u32, first: Option<u32>, chunks: u32)
        requires { missing < chunks }
        ensures { taken_up self.now member missing first chunks };

    /// The members in sync that are compared have so many sectors of the array in all. Not each of them need be
    /// read: some may be listed as bad, and a single member is not read.
    fn begins_check(&self, sectors: u64)
        ensures { compares self.now sectors };

    /// An input of so many sectors is to be written piece by piece, from now on.
    fn begins_write(&self, sectors: u64)
        ensures { writes self.now sectors };

    /// So many sectors of it are written and stand. Where the write of the next ones is refused, some of those may be written too, on
    /// some members.
    fn wrote(&self, sectors: u64)
        ensures { has_written self.now sectors };
}
