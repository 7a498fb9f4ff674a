// Image files: no contract says what a file holds, so tests do.
ghost use Rattle.std.specs.Prelude.{◌≡◌, IfOk};

use crate::checks::{holds, same};
use md_device::{Device, WriteFault};
use md_files::FileDevice;
use md_images::Access;
use std::fs::{File, Files};
use std::process::Abort;
use std::test::Fail;
use std::{env, fs, process};

// A path of this process alone.
fn path_of(rt: &HostRuntime, name: &str) -> Result<String, Fail> {
    let folder = env::temp_dir(rt)?;
    let id = process::id(rt.process());
    Ok(format!(in rt.alloc(); "{}/command_tests_{id}_{name}", folder.as_str())?)
}

// An image of four sectors, opened.
fn four_sectors<R: Files<File = File> + AllocGlobal + Abort>(
    rt: &R,
    path: &str,
    access: Access,
) -> Result<FileDevice, Fail>
    ensures { IfOk result (λ device. device.sectors ≡ 4) }
{
    let device = FileDevice::open(rt, path, access)?;
    assert_eq!(rt; device.sectors(), 4);
    Ok(device)
}

fn write_one<R: Files<File = File> + AllocGlobal + Abort>(rt: &R, path: &str) -> Result<(), Fail> {
    let mut device = four_sectors(rt, path, Access::Change)?;
    let written = device.write(2, &[7; 512]);
    drop(device);
    same(rt, "write", written, Ok(()));
    Ok(())
}

fn expect_kept(rt: &impl Abort, device: &mut FileDevice)
    requires { device.old.sectors ≡ 4 }
{
    let mut back = [1; 1536];
    holds(rt, "read", device.read(1, &mut back).is_ok());
    same(rt, "before", back[511], 0);
    same(rt, "first byte", back[512], 7);
    same(rt, "last byte", back[1023], 7);
    same(rt, "after", back[1024], 0);
    same(rt, "look", device.write(0, &[6; 512]), Err(WriteFault));
}

fn keeps<R: Files<File = File> + AllocGlobal + Abort>(rt: &R, path: &str) -> Result<(), Fail> {
    fs::write(rt, path, [0; 2048].as_slice())?;
    write_one(rt, path)?;
    let mut device = four_sectors(rt, path, Access::Look)?;
    expect_kept(rt, &mut device);
    drop(device);
    fs::remove_file(rt, path)?;
    Ok(())
}

#[test]
fn keeps_what_is_written(rt: HostRuntime) -> Result<(), Fail> {
    let path = path_of(&rt, "written")?;
    let kept = keeps(&rt, path.as_str());
    drop(path);
    kept
}

fn cut<R: Files<File = File> + AllocGlobal + Abort>(rt: &R, path: &str) -> Result<(), Fail> {
    let file = fs::OpenOptions::new().write(true).open(rt, path)?;
    let is_cut = file.set_len(1500);
    drop(file);
    is_cut?;
    Ok(())
}

fn expect_cut(rt: &impl Abort, device: &mut FileDevice)
    requires { device.old.sectors ≡ 4 }
{
    same(rt, "whole sector", device.write(1, &[7; 512]), Ok(()));
    let (cut, lost) = (device.write(2, &[7; 512]), device.write(3, &[7; 512]));
    same(rt, "cut sector", cut, Err(WriteFault));
    same(rt, "lost sector", lost, Err(WriteFault));
    let mut back = [0; 512];
    holds(rt, "read", device.read(3, &mut back).is_err());
}

fn is_not_grown<R: Files<File = File> + AllocGlobal + Abort>(
    rt: &R,
    path: &str,
) -> Result<(), Fail> {
    fs::write(rt, path, [0; 2048].as_slice())?;
    let mut device = four_sectors(rt, path, Access::Change)?;
    let is_cut = cut(rt, path);
    expect_cut(rt, &mut device);
    drop(device);
    is_cut?;
    same(rt, "length", fs::metadata(rt, path)?.len(), 1500);
    fs::remove_file(rt, path)?;
    Ok(())
}

#[test]
fn a_file_that_was_cut_is_not_grown_again(rt: HostRuntime) -> Result<(), Fail> {
    let path = path_of(&rt, "cut")?;
    let grown = is_not_grown(&rt, path.as_str());
    drop(path);
    grown
}
