// The entry of an array, as mdadm.conf has it.
ghost use Rattle.std.specs.Prelude.{◌≡◌, count_by};
ghost use Rattle.std.specs.List.{flat_map};
ghost use Rattle.md_streams.specs.Sink.{PutsOrFails};
ghost use Rattle.md_examine_commands.specs.ScanText.{array_line, colon_place, spare_count_text, devices_line, has_no_place, is_counted_spare, later_device, local_name, name_words, named_array_line, node_byte, node_text, path_text, spares_text};

use crate::scan::conf_words::{put_device, put_id, put_word};
use crate::scan::seen::{Seen, is_same_array};
use md_examine::{name_len, shown_bytes};
use md_streams::{Sink, SinkFault, number_after};
use md_super::Superblock;

/// The line of an array, by the superblock that decides.
pub(crate) fn put_array_line<S: Sink>(out: &mut S, v: &Superblock) -> Result<(), SinkFault>
    ensures { PutsOrFails S.contents S.failed out.old out.new (array_line v.now) result }
{
    let shown = shown_bytes(&v.set_name);
    let name = &shown[..name_len(&v.set_name)];
    put_line_of(out, v, name)
}

fn put_line_of<S: Sink>(out: &mut S, v: &Superblock, name: &[u8]) -> Result<(), SinkFault>
    ensures { PutsOrFails S.contents S.failed out.old out.new (named_array_line v.now name.now) result }
{
    out.put(b"ARRAY")?;
    put_path_of(out, name)?;
    number_after(out, b" level=raid1 metadata=1.2 num-devices=", v.raid_disks)?;
    out.put(b" UUID=")?;
    put_id(out, &v.set_uuid)?;
    put_name_words(out, name)?;
    out.put(b"\n")?;
    Ok(())
}

fn put_path_of<S: Sink>(out: &mut S, name: &[u8]) -> Result<(), SinkFault>
    ensures { PutsOrFails S.contents S.failed out.old out.new (path_text (local_name name.now)) result }
{
    put_path(out, local_name(name))
}

// The name without the host that stands before its first colon.
fn local_name(name: &[u8]) -> &[u8]
    ensures { result.now ≡ local_name name.now }
{
    match colon_place(name) {
        Some(place) => &name[place + 1..],
        None => name,
    }
}

fn colon_place(name: &[u8]) -> Option<usize>
    ensures { result ≡ colon_place name.now }
{
    name.iter().position(|byte| *byte == b':')
}

#[tactic(auto, using(md_streams::proofs::Puts::puts_then))]
fn put_path<S: Sink>(out: &mut S, local: &[u8]) -> Result<(), SinkFault>
    ensures { PutsOrFails S.contents S.failed out.old out.new (path_text local.now) result }
{
    if local.is_empty() {
        return out.put(b"");
    }
    out.put(b" /dev/md/")?;
    put_node(out, local)?;
    Ok(())
}

// mdadm makes no node with a space or a slash in its name.
fn put_node<S: Sink>(out: &mut S, local: &[u8]) -> Result<(), SinkFault>
    ensures { PutsOrFails S.contents S.failed out.old out.new (flat_map node_text local.now) result }
{
    for byte in local {
        put_node_byte(out, *byte)?;
    }
    Ok(())
}

fn put_node_byte<S: Sink>(out: &mut S, byte: u8) -> Result<(), SinkFault>
    ensures { PutsOrFails S.contents S.failed out.old out.new (node_text byte) result }
{
    out.put(&[node_byte(byte)])
}

fn node_byte(byte: u8) -> u8
    ensures { result ≡ node_byte byte }
{
    match byte {
        b' ' => b'_',
        b'/' => b'-',
        b'"' | b'\'' => b'_',
        _ => byte,
    }
}

#[tactic(auto, using(md_streams::proofs::Puts::puts_then))]
fn put_name_words<S: Sink>(out: &mut S, name: &[u8]) -> Result<(), SinkFault>
    ensures { PutsOrFails S.contents S.failed out.old out.new (name_words name.now) result }
{
    if name.is_empty() {
        return out.put(b"");
    }
    out.put(b" name=")?;
    put_word(out, name)?;
    Ok(())
}

// The least of the roles that are no place in an array: that of a journal (`MD_DISK_ROLE_JOURNAL` of `md_p.h`). Those of a device
// that failed and of a spare come after it.
const LEAST_WITHOUT_PLACE: u16 = 0xfffd;

/// How many spares the array has, where there are some, at the head of the line with its images. As in mdadm each superblock tells of
/// its own device alone.
pub(crate) fn put_spares<S: Sink>(
    out: &mut S,
    v: &Superblock,
    all: &[Seen<'_>],
) -> Result<(), SinkFault>
    ensures { PutsOrFails S.contents S.failed out.old out.new (spares_text v.now all.now) result }
{
    put_count(out, spare_count(v, all))
}

fn put_count<S: Sink>(out: &mut S, count: usize) -> Result<(), SinkFault>
    ensures { PutsOrFails S.contents S.failed out.old out.new (spare_count_text count) result }
{
    if count == 0 {
        return out.put(b"");
    }
    number_after(out, b"   spares=", count)
}

fn spare_count(v: &Superblock, all: &[Seen<'_>]) -> usize
    ensures { result ≡ count_by (is_counted_spare v.now) all.now }
{
    all.iter().filter(|seen| is_counted_spare(v, seen)).count()
}

fn is_counted_spare(v: &Superblock, seen: &Seen<'_>) -> bool
    ensures { result ≡ is_counted_spare v.now seen.now }
{
    is_same_array(v, seen) && has_no_place(&seen.superblock)
}

fn has_no_place(own: &Superblock) -> bool
    ensures { result ≡ has_no_place own.now }
{
    own.role_of(own.dev_number) >= LEAST_WITHOUT_PLACE
}

/// The line with the images of an array: the first one, and those of the array that follow.
pub(crate) fn put_devices_line<S: Sink>(
    out: &mut S,
    first: &Seen<'_>,
    rest: &[Seen<'_>],
) -> Result<(), SinkFault>
    ensures { PutsOrFails S.contents S.failed out.old out.new (devices_line first.now rest.now) result }
{
    out.put(b"   devices=")?;
    put_device(out, first.name)?;
    put_later_devices(out, &first.superblock, rest)?;
    out.put(b"\n")?;
    Ok(())
}

fn put_later_devices<S: Sink>(
    out: &mut S,
    v: &Superblock,
    rest: &[Seen<'_>],
) -> Result<(), SinkFault>
    ensures { PutsOrFails S.contents S.failed out.old out.new
        (flat_map (later_device v.now) rest.now) result }
{
    for seen in rest {
        put_later_device(out, v, seen)?;
    }
    Ok(())
}

#[tactic(auto, using(md_streams::proofs::Puts::puts_then))]
fn put_later_device<S: Sink>(out: &mut S, v: &Superblock, seen: &Seen<'_>) -> Result<(), SinkFault>
    ensures { PutsOrFails S.contents S.failed out.old out.new (later_device v.now seen.now) result }
{
    if !is_same_array(v, seen) {
        return out.put(b"");
    }
    out.put(b",")?;
    put_device(out, seen.name)?;
    Ok(())
}
