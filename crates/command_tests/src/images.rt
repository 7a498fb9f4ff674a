// The images in memory that commands are given.
use crate::checks::holds;
use crate::devices::BadDevice;
use example_members::{bitmap, member_image, vault, zeros};
use md_device::{FaultList, MemDevice};
use md_images::{Access, Images, MemImages};
use std::alloc::Global;
use std::process::Abort;
use std::test::Fail;

pub(crate) type HeldImages = MemImages<BadDevice>;

pub(crate) struct Image {
    pub(crate) name: &'static str,
    // It is the vault's member, or holds nothing.
    pub(crate) is_member: bool,
    // Reads of these sectors fail.
    pub(crate) bad: &'static [u64],
    // It may only be looked at.
    pub(crate) is_protected: bool,
}

// The vault's member.
pub(crate) const MEMBER: Image = Image {
    name: "a",
    is_member: true,
    bad: &[],
    is_protected: false,
};

pub(crate) const BLANK: Image = Image {
    name: "b",
    is_member: false,
    ..MEMBER
};

fn device_of(alloc: Global, image: &Image) -> Result<BadDevice, Fail> {
    let bad = Vec::from_slice(alloc, image.bad)?;
    let memory = if image.is_member {
        member_image(alloc, &vault(), &bitmap())?
    } else {
        zeros(alloc, 2112)?
    };
    Ok(BadDevice {
        memory,
        bad,
        faults: FaultList::empty(),
    })
}

fn add(alloc: Global, images: &mut HeldImages, image: &Image) -> Result<(), Fail> {
    let device = device_of(alloc, image)?;
    if image.is_protected {
        images.add_protected(image.name, device)?;
    } else {
        images.add(image.name, device)?;
    }
    Ok(())
}

pub(crate) fn held_images(alloc: Global, images: &[Image]) -> Result<HeldImages, Fail> {
    let mut held = MemImages::new(alloc);
    for image in images {
        add(alloc, &mut held, image)?;
    }
    Ok(held)
}

fn expect_kept(rt: &impl Abort, alloc: Global, device: &MemDevice) -> Result<(), Fail> {
    let before = member_image(alloc, &vault(), &bitmap())?;
    holds(rt, "the image is kept", device.bytes() == before.bytes());
    drop(before);
    Ok(())
}

// The image has the bytes of the vault's member.
pub(crate) fn expect_kept_under(
    rt: &impl Abort,
    alloc: Global,
    images: &mut HeldImages,
    name: &str,
) -> Result<(), Fail> {
    let device = images.get(name, Access::Look)?;
    let kept = expect_kept(rt, alloc, &device.memory);
    drop(device);
    kept
}
