// Devices that can be read while they are shared.
ghost use Rattle.std.specs.Prelude.{◌≡◌, ◌+◌, ◌*◌, ◌%◌, ◌≤◌, ℕ, length, true, OnErr, OnOk};
ghost use Rattle.md_device.specs.Device.{held};
ghost use Rattle.md_images.specs.Places.{MeetsSector};

use md_device::{Device, MemDevice, ReadFault};

/// A device that can be read through a shared reference, which nothing can be written through.
pub trait SharedRead: Device {
    /// Whether such a read may fail at this sector. A shared reference counts no failure: this alone gives it a place.
    ghost may_fail: { Self → ℕ → Type 0 };

    /// Fills `buf` with the bytes from `sector` on. After a `ReadFault`, which comes of one of these sectors, any bytes may
    /// stand in `buf`.
    fn read_shared(&self, sector: u64, buf: &mut [u8]) -> Result<(), ReadFault>
        requires whole { length buf.old % 512 ≡ 0 }
        requires within { 512 * sector + length buf.old ≤ length (Self.content self.now) }
        ensures ok { OnOk result (Self.honest self.now ≡ true → buf.new ≡ held (Self.content self.now) sector (length buf.old)) }
        ensures err { OnErr result (MeetsSector (may_fail self.now) sector (length buf.old)) };
}

impl SharedRead for MemDevice {
    ghost may_fail = { λ _ _. ⊥ };

    #[tactic(auto, unfolding(md_device::specs::Splice::part))]
    fn read_shared(&self, sector: u64, buf: &mut [u8]) -> Result<(), ReadFault> {
        let all = self.bytes();
        let start = 512 * sector as usize;
        buf.copy_from_slice(&all[start..start + buf.len()]);
        Ok(())
    }
}
