// What to do about a fault. The texts are those of docs/FAULTS.md, which a test compares with them.
use crate::advice::geometry_advice::SMALLEST_IMAGE;
use md_array::{AddFault, BeginFault, FailFault, OpenFault, ReAddFault, RemoveFault};
use md_assembly::AssembleFault;
use md_check::CheckFault;
use md_copy::RebuildFault;
use md_create::CreateFault;
use md_members::MemberFault;
use md_metadata::{GrowFault, StopFault};
use md_read::UnreadFault;
use md_refusals::{CommandFault, DataOfFault, OptionFault};
use md_resync::ResyncFault;
use md_super::SuperFault;

/// What to do about a command that is refused. Of an image that can't be opened the fault's own words
/// say most of it.
pub(crate) fn advice(fault: &CommandFault) -> &'static str {
    match fault {
        CommandFault::BadCount => {
            "name one image alone, and in `create` as many as `--raid-devices` says, where `missing` stands for a member that is not there"
        }
        CommandFault::BadImage(_, _) => {
            "a file system that can't lock is refused too: copy the image to another one"
        }
        CommandFault::Options(fault) => option_advice(*fault),
        CommandFault::Member(fault) => member_advice(*fault),
        CommandFault::NoBitmap => "there is nothing to show",
        CommandFault::Create(CreateFault::BadGeometry) => SMALLEST_IMAGE,
        CommandFault::Grow(fault) => grow_advice(*fault),
        CommandFault::Open(OpenFault::Member(_, fault)) => member_advice(*fault),
        CommandFault::Open(OpenFault::Assemble(fault)) => array_advice(*fault),
        CommandFault::MetadataFault(_) | CommandFault::Open(OpenFault::MetadataFault(_)) => {
            BEGIN_ANEW
        }
        CommandFault::Declined => {
            "nothing was overwritten: name another image, or answer `yes`, which `--run` does, and where there is no terminal `--run` alone"
        }
        CommandFault::NotAll(_) => {
            "name the image of this role too, of whose device `detail --readonly` tells; where it is gone, `--run` goes on without it: name it from then on only to `re-add` or `add`"
        }
        CommandFault::InputFault =>
            "see why its file or program fails; where `write` has written some of it, it says how much: run `resync` then",
        CommandFault::BadLength => {
            "give it a multiple of 512 bytes, as many as --count asks for, of a file that stays as it is"
        }
        CommandFault::OutOfRange => WITHIN_ARRAY,
        CommandFault::BadMember => {
            "count the images from 0, in the order in which they are named, or give `--member` an image as it is listed"
        }
        CommandFault::Fail(fault) => fail_advice(*fault),
        CommandFault::Remove(fault) => remove_advice(*fault),
        CommandFault::Add(fault) => add_advice(*fault),
        CommandFault::ReAdd(fault) => re_add_advice(*fault),
        CommandFault::Rebuild(fault) => rebuild_advice(*fault),
        CommandFault::Resync(fault) => resync_advice(*fault),
        CommandFault::Check(fault) => check_advice(*fault),
        CommandFault::Read(fault) => read_advice(*fault),
        CommandFault::Write(fault) => write_advice(*fault),
        CommandFault::Stop(fault) => stop_advice(*fault),
        CommandFault::OutputFault => ANOTHER_OUTPUT,
        CommandFault::Create(CreateFault::NoMemory)
        | CommandFault::Open(OpenFault::NoMemory)
        | CommandFault::NoPieceMemory
        | CommandFault::NoMemory => MORE_MEMORY,
    }
}

const MORE_MEMORY: &str = "try again with more memory";

/// Where `write` has no room for its input.
pub(crate) const WRITE_A_FILE: &str =
    "try again with more memory, or say by --count how long the input is, or give it as a regular file: it is written in pieces of 16 MiB then, and else held in memory";

const ANOTHER_OUTPUT: &str =
    "give it an output that takes all of it: what came so far is cut short";

const WITHIN_ARRAY: &str =
    "`detail` shows the size of the array; a sector has 512 bytes, and an empty input has none";

const RESYNC_FIRST: &str = "run `resync` first";

const RESYNC_OR_LOOK: &str =
    "to read and lose nothing, name one member in sync alone, with `--readonly`; or run `resync`, which overwrites marked chunks on all but one: on copies with their maps (`--map`)";

const SEE_DEVICE: &str =
    "see why the device can't be written (`dmesg`, free space, write protection); run the command again";

const BEGIN_ANEW: &str =
    "see why the device can't be written (`dmesg`, free space, write protection); run the command again, which begins anew";

const COPY_DISK: &str =
    "copy the disk by ddrescue, and use the copy with its map (`--map`), without which zeros would count as data; or leave the image out";

/// What to do about a source of a rebuild whose log is full. Chunks of the passes before are listed by then.
pub(crate) const LEAVE_SOURCE_OUT: &str =
    "it can't be read in more places than its bad block log has room for: leave the image out, if another member is in sync; or copy the disks by ddrescue, and give `rebuild --salvage`, which lists bad sectors alone, fresh copies with their maps (`--map`), without which zeros would count as data: what this command listed stays listed; or put out the array by `read --readonly --fill`, and make a new one of it by `create`";

const NEW_LOG: &str =
    "its bad block log has no room for the chunks that no member could give, or it has none: `fail` and `remove` it, and `add` it again, which gives it a new log; then try `rebuild --salvage`, which lists bad sectors alone, on fresh copies of the others: what this command listed stays listed; or put out the array by `read --readonly --fill`, and make a new one of it by `create`";

/// What to do about the log of the member that is salvaged, where it has no room for the sectors that are lost.
pub(crate) const SALVAGE_WITH_NEW_LOG: &str =
    "its bad block log has no room for the sectors that no member could give, or it has none: where it has none, or `examine-badblocks` shows that it lists some, `remove` it, after `fail` if it is recovering, and `add` it again, which gives it a new log; else put out the array by `read --readonly --fill`, and make a new one of it by `create`";

/// What to do about a source of a salvage whose log has no room for the sectors that are lost.
pub(crate) const SALVAGE_WITHOUT_SOURCE: &str =
    "its bad block log has no room for the sectors that no member could give, or it has none: put out the array by `read --readonly --fill`, and make a new one of it by `create`; or copy the disk by ddrescue, which may get more of it, and use the copy with its map (`--map`), without which zeros would count as data, and where it has no log without `--salvage`, which costs whole chunks; or leave the image out, if another member is in sync, and lose what it alone gives";

const MAYBE_LOST: &str =
    "see why the device can't be written (`dmesg`, free space, write protection); what it held may be lost";

const REMOVE_ONE: &str = "run `remove` first, on a member that is not in use";

const TELL_OTHERS: &str =
    "see why the device can't be written (`dmesg`, free space, write protection); then run `fail --member` with this image, which tells the others: until they say so, it counts as in sync again";

const NEW_ARRAY: &str = "make a new array, and copy the data to it";

// Of faults that no command gives: no request is in flight in an array that was just opened.
const AGAIN: &str = "run the command again";

fn fail_advice(fault: FailFault) -> &'static str {
    match fault {
        FailFault::NotActive => {
            "it is not in use: `remove` takes it out, and `detail` shows the state of each member"
        }
        FailFault::LastMember => {
            "no other member is in sync, so that the array would be lost with it; `detail` shows the state of each member"
        }
        FailFault::EventsFull => NEW_ARRAY,
        FailFault::Halted => SEE_DEVICE,
    }
}

fn remove_advice(fault: RemoveFault) -> &'static str {
    match fault {
        RemoveFault::StillActive => "run `fail` on it first",
        RemoveFault::EventsFull => NEW_ARRAY,
        RemoveFault::Halted => SEE_DEVICE,
    }
}

fn add_advice(fault: AddFault) -> &'static str {
    match fault {
        AddFault::TooSmall => {
            "add a larger one: it needs 2048 sectors more than the array, whose size `detail` shows"
        }
        AddFault::Full => REMOVE_ONE,
        AddFault::EventsFull => NEW_ARRAY,
        AddFault::WriteFault => MAYBE_LOST,
        AddFault::Halted => SEE_DEVICE,
        AddFault::NoMemory => MORE_MEMORY,
    }
}

fn re_add_advice(fault: ReAddFault) -> &'static str {
    match fault {
        ReAddFault::Member(fault) => member_advice(fault),
        ReAddFault::Full => REMOVE_ONE,
        ReAddFault::NotReAddable => {
            "if `examine` shows another Array UUID than the others, it is of another array: leave it out; if it was being rebuilt, as after a `re-add` that was interrupted, name it among the images and run `rebuild` on it; else see by `examine` whether it has more events than the others, and so holds what they lack; only if not, make a spare of it by `add`, which wipes what it holds, and run `rebuild`"
        }
        ReAddFault::NoRole => {
            "`detail` shows which member has its role; `add` makes a spare of it, and wipes what it holds"
        }
        ReAddFault::EventsFull => NEW_ARRAY,
        ReAddFault::WriteFault => MAYBE_LOST,
        ReAddFault::Halted => SEE_DEVICE,
        ReAddFault::NoMemory => MORE_MEMORY,
    }
}

fn resync_advice(fault: ResyncFault) -> &'static str {
    match fault {
        ResyncFault::ReadFault(_, _) => COPY_DISK,
        ResyncFault::MemberFailed(_) => TELL_OTHERS,
        ResyncFault::Halted => SEE_DEVICE,
        ResyncFault::InFlight(_) => AGAIN,
        ResyncFault::NoMemory => MORE_MEMORY,
    }
}

fn check_advice(fault: CheckFault) -> &'static str {
    match fault {
        CheckFault::ReadFault(_, _) => COPY_DISK,
        CheckFault::Halted => SEE_DEVICE,
        CheckFault::InFlight(_) => AGAIN,
        CheckFault::NoMemory => MORE_MEMORY,
    }
}

fn rebuild_advice(fault: RebuildFault) -> &'static str {
    match fault {
        RebuildFault::NotSpare => {
            "`detail` shows the state of each member: one in sync needs no rebuild; a recovering one can be rebuilt, and a spare where a role is free; `remove` a faulty or stale one, and `re-add` it, or `add` it, which wipes what it holds"
        }
        RebuildFault::Dirty => RESYNC_FIRST,
        RebuildFault::TargetFault => {
            "see why the device can't be written (`dmesg`, free space, write protection); leave this image out of every later command, and `add` it or another one to the others; don't `re-add` it"
        }
        RebuildFault::MetadataFault(_) => BEGIN_ANEW,
        RebuildFault::LogFull(_) => NEW_LOG,
        RebuildFault::EventsFull => NEW_ARRAY,
        RebuildFault::Halted => SEE_DEVICE,
        RebuildFault::InFlight(_) => AGAIN,
        RebuildFault::NoMemory => MORE_MEMORY,
    }
}

fn read_advice(fault: UnreadFault) -> &'static str {
    match fault {
        UnreadFault::OutOfRange => WITHIN_ARRAY,
        UnreadFault::NotResynced => RESYNC_OR_LOOK,
        UnreadFault::Unreadable(_) => {
            "with `--fill` what another member has is written in the place of such sectors, or zeros, and all others as they are"
        }
        UnreadFault::Halted => SEE_DEVICE,
    }
}

fn write_advice(fault: BeginFault) -> &'static str {
    match fault {
        BeginFault::OutOfRange => WITHIN_ARRAY,
        BeginFault::NotResynced => RESYNC_OR_LOOK,
        BeginFault::EventsFull => NEW_ARRAY,
        BeginFault::Halted => SEE_DEVICE,
        BeginFault::Overlaps(_) | BeginFault::NumbersSpent => AGAIN,
        BeginFault::NoMemory => MORE_MEMORY,
    }
}

fn stop_advice(fault: StopFault) -> &'static str {
    match fault {
        StopFault::EventsFull => NEW_ARRAY,
        StopFault::MemberFailed(_) => TELL_OTHERS,
        StopFault::Halted => SEE_DEVICE,
        StopFault::InFlight(_) => AGAIN,
    }
}

fn grow_advice(fault: GrowFault) -> &'static str {
    match fault {
        GrowFault::Member(_, fault) => member_advice(fault),
        GrowFault::BadChunk => {
            "choose a power of two of KiB, and a larger one where the array would have more than 1,048,576 chunks"
        }
        GrowFault::NoRoom => {
            "choose a larger chunk for `grow`, for which the bitmap takes less room; else `losetup --find --show --read-only --offset BYTES` gives the data of one member, from its Data Offset on, which `examine` shows in sectors of 512 bytes"
        }
        GrowFault::Assemble(fault) => array_advice(fault),
        GrowFault::HasBitmap => "there is nothing to do",
        GrowFault::NotInSync(_) => {
            "leave it out, and `add` it once the others have a bitmap; `examine` shows its events and its role"
        }
        GrowFault::MetadataFault(_) => SEE_DEVICE,
        GrowFault::NoMemory => MORE_MEMORY,
    }
}

fn option_advice(fault: OptionFault) -> &'static str {
    match fault {
        OptionFault::BadLevel => "fix the option: only RAID-1 is made",
        OptionFault::BadUuid => {
            "fix the option; `cat /proc/sys/kernel/random/uuid` gives a new one"
        }
        OptionFault::BadName => "choose a shorter name",
        OptionFault::BadCount => {
            "name one image alone, and in `create` as many as `--raid-devices` says, where `missing` stands for a member that is not there"
        }
        OptionFault::BadBitmap => "fix the option: only `internal` is given",
        OptionFault::BadChunk => "choose a smaller chunk, below 4,194,304 KiB",
        OptionFault::BadSize => "choose a smaller size",
        OptionFault::MapOfTarget => {
            "where the rebuild that goes on began with that map, leave it out; else `fail` and `remove` that member, and `add` it anew, so that all of it is copied: then no map of it is needed"
        }
        OptionFault::DataOf(fault) => data_of_advice(fault),
    }
}

fn data_of_advice(fault: DataOfFault) -> &'static str {
    match fault {
        DataOfFault::BadDataOf => {
            "fix the option: `--data-of IMAGE=NUMBER`, with the image as it is listed, and a number that `examine --all` of another image shows, as the 1 of `Role : 0 of device 1`"
        }
        DataOfFault::NoArrayBeside => {
            "give the command without that image and the option first, and set right what it is refused for; an array without a bitmap gets one by `grow`, on copies: `--bitmap` is not enough here"
        }
        DataOfFault::NumberTaken(_) => {
            "it is the device of that number: give the number that no image has, of those that `examine --all` of another image shows, as the 1 of `Role : 0 of device 1`"
        }
        DataOfFault::NumberNotInSync => {
            "see whether `examine --all` of another image shows a role of that number, as `Role : 0 of device 1`; if so, leave the image of `--data-of` out: it failed, left or was not rebuilt, and its data may be old; only where `examine --all` shows more events of it than of the others they are the old ones"
        }
        DataOfFault::HasSuperblock => {
            "leave the option out; where the image is refused without it, `examine --all` shows of which array it is, and its number"
        }
        DataOfFault::DataElsewhere => {
            "leave the image of `--data-of` out, or take its data by hand (docs/RECOVER.md): they begin at the Data Offset that `examine --all` shows of it"
        }
        DataOfFault::LogUnread => {
            "let ddrescue try that part of the disk again; else leave the image of `--data-of` out, or take its data by hand (docs/RECOVER.md): what its log listed as bad may be old data there"
        }
        DataOfFault::DataPastEnd => {
            "the copy was cut, or its data begin elsewhere than those of the others: copy it again, or leave it out"
        }
        DataOfFault::NoMemory => MORE_MEMORY,
    }
}

fn member_advice(fault: MemberFault) -> &'static str {
    match fault {
        MemberFault::TooShort => "it is not a member, or a copy that was cut: copy it again",
        MemberFault::ReadFault => {
            "copy the disk by ddrescue, and use the copy with its map (`--map`), without which zeros would count as data"
        }
        MemberFault::Super(fault) => superblock_advice(fault),
        MemberFault::Region => {
            "the copy was cut, or the superblock is damaged: copy it again, or use another member; an image has to hold Data Offset and Avail Dev Size together, which `examine` shows in sectors of 512 bytes, and `truncate` lengthens a copy, with zeros for what is lost, which count as data unless its map is given (`--map`)"
        }
        MemberFault::Bitmap(_) => {
            "it is damaged, or of another version: leave that image out; `examine` still shows the superblock"
        }
        MemberFault::Log(_) =>
            "it is damaged: leave that image out; `examine` still shows the superblock",
        MemberFault::NoMemory => MORE_MEMORY,
    }
}

fn superblock_advice(fault: SuperFault) -> &'static str {
    match fault {
        SuperFault::Magic => {
            "perhaps the member is a partition of this disk, or its metadata is 0.90, 1.0 or 1.1, which stand elsewhere"
        }
        SuperFault::Major => "not for this program",
        SuperFault::MaxDev => "it is damaged: use another member",
        SuperFault::Checksum => "it is damaged or was edited: use another member",
        SuperFault::SuperOffset => "the copy may begin at the wrong sector: copy it again",
        SuperFault::Feature(_) => {
            "finish the reshape, the replacement or the re-add with the kernel first, or leave that image out; arrays with a journal are not for this program"
        }
        SuperFault::Level => "not for this program",
        SuperFault::RaidDisks => "not for this program",
        SuperFault::NoMemory => MORE_MEMORY,
    }
}

fn array_advice(fault: AssembleFault) -> &'static str {
    match fault {
        AssembleFault::Empty => "name the members of one array",
        AssembleFault::TooMany => "name the members of one array",
        AssembleFault::Stranger(_) => "leave it out; `examine` shows the UUID of the array",
        AssembleFault::DoubleNumber(_, _) => "leave one out: often one is a copy of the other",
        AssembleFault::NoBitmap(_) => {
            "to read the array, and change nothing, look at it with `--readonly --bitmap internal`; to go on with it, give it one by `grow --bitmap internal`"
        }
        AssembleFault::Geometry(_) => "leave it out",
        AssembleFault::DoubleRole(_) => "leave one out: `examine` shows which has fewer events",
        AssembleFault::NotEnough => "name the other members too",
        AssembleFault::NoMemory => MORE_MEMORY,
    }
}
