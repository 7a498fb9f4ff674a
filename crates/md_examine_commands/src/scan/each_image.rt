// The superblocks of images are read, one after another.
ghost use Rattle.std.specs.Prelude.{◌≡◌, ◌<◌, ◌++◌, ℕ, IfOk, List, Some, length, slice_get, true};
ghost use Rattle.md_device.specs.Failing.{EachNewFault};
ghost use Rattle.md_members.specs.Reading.{CallFails, IsReadOf};
ghost use Rattle.md_examine_commands.specs.EachImage.{GivesShown, IsKnownWhy, LooksAt, LooksAtSome, refused_in, seen_in};

use crate::scan::refused::{Refused, ScanFault};
use crate::scan::seen::Seen;
use md_device::Device;
use md_images::{Access, Images};
use md_members::{MemberFault, read_super};
use md_super::Superblock;
use std::alloc::{AllocError, Global};

/// What images show, in their order: superblocks, and why there is none.
#[derive(Drop)]
pub struct Looked<'a> {
    pub seen: Vec<Seen<'a>>,
    pub refused: Vec<Refused<'a>>,
}

impl<'a> Looked<'a> {
    // Adds what an image shows.
    fn add(&mut self, name: &'a str, shown: Result<Superblock, ScanFault>) -> Result<(), AllocError>
        ensures seen { IfOk result (λ _.
            self.new.seen.items ≡ self.old.seen.items ++ seen_in name.entry shown) }
        ensures refused { IfOk result (λ _.
            self.new.refused.items ≡ self.old.refused.items ++ refused_in name.entry shown) }
        ensures memory { IfOk result (λ _. IsKnownWhy shown) }
    {
        match shown {
            Ok(superblock) => self.seen.push(Seen { name, superblock })?,
            // What it shows is not known: to go on would be to call its role missing.
            Err(ScanFault::Member(MemberFault::NoMemory)) => return Err(AllocError),
            Err(fault) => self.refused.push(Refused { name, fault })?,
        }
        Ok(())
    }
}

fn name_at<'a>(names: &[&'a str], place: usize) -> &'a str
    requires { place < length names.now }
    ensures { slice_get names.now place ≡ Some result }
{
    names[place]
}

// Reads the superblock of an image.
fn look_at<I: Images>(alloc: Global, images: &mut I, name: &str) -> Result<Superblock, ScanFault>
    ensures looks { LooksAt I.Images I.Dev.Device name.now images.old images.new result }
    ensures known { I.known images.new ≡ I.known images.old }
    ensures asked { I.known images.old ≡ true → (n : List ℕ) → I.asked images.new n ≡ I.asked images.old n }
{
    let mut device = images.get(name, Access::Look).map_err(ScanFault::Image)?;
    let shown = read_shown(alloc, &mut device);
    images.put(name, device);
    shown
}

fn read_shown<D: Device>(alloc: Global, device: &mut D) -> Result<Superblock, ScanFault>
    ensures kept { D.content device.new ≡ D.content device.old }
    ensures honest { D.honest device.new ≡ D.honest device.old }
    ensures grown { EachNewFault (D.faults device.old) (D.faults device.new) (IsReadOf 8 4096) }
    ensures gives { GivesShown (D.content device.old) (D.honest device.old)
        (CallFails D.Device device.old device.new) result }
{
    read_super(alloc, device).map_err(ScanFault::Member)
}

/// Reads the superblock of each image. They are only looked at, one after another; `AllocError` comes where there is no memory
/// for what they show, so that none of them is told as refused for that.
pub fn look_at_each<'a, I: Images>(
    alloc: Global,
    images: &mut I,
    names: &[&'a str],
) -> Result<Looked<'a>, AllocError>
    ensures looks { LooksAtSome I.Images I.Dev.Device names.now images.old images.new result }
    ensures known { I.known images.new ≡ I.known images.old }
    ensures asked { I.known images.old ≡ true → (n : List ℕ) → I.asked images.new n ≡ I.asked images.old n }
{
    let seen = Vec::new(alloc);
    let refused = Vec::new(alloc);
    let mut looked = Looked { seen, refused };
    for place in 0..names.len() {
        let name = name_at(names, place);
        let shown = look_at(alloc, images, name);
        match looked.add(name, shown) {
            Ok(()) => {}
            Err(_) => return Err(AllocError),
        }
    }
    Ok(looked)
}
