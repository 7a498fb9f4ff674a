// The event count of the array rises.
ghost use Rattle.std.specs.Prelude.{◌≡◌, not};
ghost use Rattle.md_state.specs.Steps.Begin.{has_to_rise};
ghost use Rattle.md_state.specs.Members.{is_degraded};
ghost use Rattle.md_state.specs.Steps.Rise.{HasSpentEvents, risen};

use crate::array::Array;
use md_kept_members::{drop_absent_roles, has_absent_role, make_due};
use md_super::CLEAN_OFFSET;

impl Array {
    /// The count rises, and the array is as full after it as before.
    pub(crate) fn rise(&mut self)
        requires { HasSpentEvents self.old → ⊥ }
        ensures { self.new ≡ risen self.old (not (is_degraded self.old)) }
    {
        let full = !self.is_degraded();
        self.raise_count(full);
    }

    /// The count rises. `full` is whether the array is so after the change: marks that are cleared
    /// from then on are cleared at the new count.
    pub(crate) fn raise_count(&mut self, full: bool)
        requires { HasSpentEvents self.old → ⊥ }
        ensures { self.new ≡ risen self.old full }
    {
        drop_absent_roles(&mut self.shared, &self.members);
        self.shared.events += 1;
        make_due(&mut self.members);
        if full {
            self.events_cleared = self.shared.events;
        }
    }

    /// Whether a request makes the count rise: the array is clean, or has the role of an absent device.
    pub(crate) fn has_to_rise(&self) -> bool
        ensures { result ≡ has_to_rise self.now }
    {
        self.shared.resync_offset == CLEAN_OFFSET || has_absent_role(&self.shared, &self.members)
    }
}
