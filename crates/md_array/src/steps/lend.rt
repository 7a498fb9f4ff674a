// The devices are lent, for a rebuild or a check.
ghost use Rattle.std.specs.Prelude.{◌≡◌, ℕ, Bool, map};
ghost use Rattle.std.specs.Borrow.{sem};
ghost use Rattle.md_state.specs.Steps.MakeClean.{IsIdle};
ghost use Rattle.md_state.specs.View.{MirrorView, disk_of};
ghost use Rattle.md_array.specs.Consistency.{IsConsistent};
ghost use Rattle.md_array.specs.Lends.{LendsDevices};
ghost use Rattle.md_array.specs.ReadAsKept.{AreReadAsKept};
ghost use Rattle.md_array.specs.Steps.Fill.{FillHappens};
ghost use Rattle.md_array.specs.Steps.Lend.{AreBack};

use crate::mirror::Mirror;
use md_device::Device;

impl<D: Device + Drop> Mirror<D> {
    /// The devices, in the order of the members, on loan: they may be taken out of the list, and those that
    /// stand in it when the borrow ends are the mirror's again. Until then no step and no whole call can be
    /// made. It takes no memory.
    ///
    /// Who borrows them puts each device back in its place. Data in missing chunks of members that are being
    /// rebuilt may have changed, and nothing else: only then is the mirror known to be consistent. Where one
    /// of them alone was written, that is the model's event.
    pub fn lend(&mut self) -> &mut Vec<D>
        requires sound { IsConsistent self.old }
        requires idle { IsIdle self.old.array }

        ensures* in_place { sem 𝓛 (LendsDevices D.row D.Device self.entry result) }
        ensures devices { map (disk_of D.Device) result.now.items ≡ self.old.disks }
        ensures sound { (new : MirrorView) → AreBack self.old new → IsConsistent new }
        ensures read { (new : MirrorView) (failed_at : ℕ) (spoiled : ℕ → Bool) → AreBack self.old new
            → AreReadAsKept self.old failed_at spoiled → AreReadAsKept new failed_at spoiled }
        ensures event { FillHappens self.old }
    {
        &mut self.devices
    }
}
