// Images in files.
ghost use Rattle.std.specs.Prelude.{false, None};

use crate::images::unseen_mounts::{may_be_mounted, tell_hidden};
use crate::progress::Progress;
use md_files::{Backing, FileDevice};
use md_images::{Access, ImageFault, Images, Watched};

// So many members an array may have. Where more images are named, the command is refused for that.
const MOST: usize = 64;

/// Images under their paths, whose reads and writes are counted. A device that is put back is closed. No two that are out have a
/// part of a disk in common, by whatever paths.
#[derive(Drop)]
pub struct FileImages<'a> {
    rt: &'a HostRuntime,
    progress: &'a Progress<'a>,
    // Whether images are changed even if they may be mounted out of sight.
    is_run: bool,
    // Where the images lie that are out.
    out: [Option<Backing>; MOST],
}

impl<'a> FileImages<'a> {
    pub fn new(rt: &'a HostRuntime, progress: &'a Progress<'a>, is_run: bool) -> FileImages<'a> {
        FileImages {
            rt,
            progress,
            is_run,
            out: [None; MOST],
        }
    }

    // Opens an image. If it may be mounted out of sight it counts as in use, unless `--run` says that it is not.
    fn open(&self, name: &str, access: Access) -> Result<FileDevice, ImageFault> {
        if access == Access::Look || self.is_run || !may_be_mounted(self.rt, name)? {
            return FileDevice::open(self.rt, name, access);
        }
        if access == Access::ChangeOrLook {
            return FileDevice::open(self.rt, name, Access::Look);
        }
        tell_hidden(self.rt, self.progress, name);
        Err(ImageFault::InUse)
    }

    fn is_out(&self, backing: Backing) -> bool {
        self.out.iter().flatten().any(|out| out.overlaps(backing))
    }

    fn note(&mut self, backing: Backing) {
        for place in &mut self.out {
            if place.is_none() {
                *place = Some(backing);
                return;
            }
        }
    }
}

impl<'a> Images for FileImages<'a> {
    type Dev = Watched<'a, FileDevice, Progress<'a>>;

    ghost known = { λ _. false };

    ghost holds = { λ _ _. false };

    ghost device_at = { λ _ _. None };

    ghost changeable = { λ _ _. false };

    ghost asked = { λ _ _. false };

    fn get(&mut self, name: &str, access: Access) -> Result<Self::Dev, ImageFault> {
        let device = self.open(name, access)?;
        let backing = device.backing();
        if self.is_out(backing) {
            return Err(ImageFault::NamedBefore);
        }
        self.note(backing);
        Ok(Watched::new(device, self.progress))
    }

    fn put(&mut self, _name: &str, device: Self::Dev) {
        let backing = device.device().backing();
        for place in &mut self.out {
            if *place == Some(backing) {
                *place = None;
            }
        }
    }
}
