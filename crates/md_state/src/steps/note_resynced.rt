// Noting whether the array is resynced.
ghost use Rattle.std.specs.Prelude.{◌≡◌};

use crate::array::Array;

impl Array {
    /// Notes whether the array is resynced.
    pub fn note_resynced(&mut self, is: bool)
        ensures { self.new ≡ record self.old { resynced = is } }
    {
        self.resynced = is;
    }
}
