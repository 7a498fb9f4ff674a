// A device in memory, some sectors of which can't be read.
ghost use Rattle.std.specs.Prelude.{[], false, length, refl, ⊤};

use md_device::{Device, Fault, FaultList, MemDevice, ReadFault, WriteFault};
use md_images::SharedRead;

/// A device in memory, some sectors of which can't be read. No contract says which: it is not honest.
#[derive(Drop)]
pub(crate) struct BadDevice {
    pub(crate) memory: MemDevice,
    pub(crate) bad: Vec<u64>,
    pub(crate) faults: FaultList,
}

impl Device for BadDevice {
    ghost content = { λ d. d.memory };

    ghost honest = { λ _. false };

    ghost faults = { λ d. d.faults.list };

    ghost failures = { λ d. length d.faults.list };

    ghost counts = { λ _. refl };

    ghost crashes = { λ _. [] };

    fn sectors(&self) -> u64 {
        self.memory.sectors()
    }

    fn read(&mut self, sector: u64, buf: &mut [u8]) -> Result<(), ReadFault> {
        let outcome = self.read_shared(sector, buf);
        if outcome.is_err() {
            self.faults = self.faults.with_fault(&Fault::read(sector, buf.len()));
        }
        outcome
    }

    fn write(&mut self, sector: u64, bytes: &[u8]) -> Result<(), WriteFault> {
        let outcome = self.memory.write(sector, bytes);
        if outcome.is_err() {
            self.faults = self.faults.with_fault(&Fault::write(sector, bytes.len()));
        }
        outcome
    }
}

impl SharedRead for BadDevice {
    ghost may_fail = { λ _ _. ⊤ };

    fn read_shared(&self, sector: u64, buf: &mut [u8]) -> Result<(), ReadFault> {
        let count = buf.len() as u64 / 512;
        let is_bad = |bad: &u64| sector <= *bad && *bad - sector < count;
        if self.bad.iter().any(is_bad) {
            return Err(ReadFault);
        }
        self.memory.read_shared(sector, buf)
    }
}
