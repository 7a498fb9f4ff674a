//! A Linux md RAID-1 array as a library: what the crates below offer to a caller, under one roof, each with its contract.
//! There is no code here.
//!
//! Start with `Mirror`, the array with its devices: `Mirror::open` puts it together from its members, and the whole calls
//! `read`, `write`, `resync`, `stop`, `rebuild`, `salvage` and `check_array` do with it what a caller wants done. Its methods are the
//! steps that these are made of, and tell of the array. `create` and `lay_out` make new members; `read_super` and
//! `read_member` read one. Devices are a `FileDevice`, a `MemDevice`, or what you write of the trait `Device`; in tests a
//! `FaultDevice`, whose calls fail where it is told, or a `StopDevice`, which stops at the write that its `Fuse` counts to.
//! `run` does one command of the program, over images by name.
//!
//! A sector is written, and read back:
//!
//! ```
//! use std::alloc::Global;
//! use tazmulja::{Device, Mirror, read, stop, write};
//!
//! fn write_and_read<D: Device + Drop>(alloc: Global, disks: Vec<D>) -> anyhow::Result<[u8; 512]> {
//!     let mut mirror = match Mirror::open(alloc, disks) {
//!         Ok(mirror) => mirror,
//!         Err((_, fault)) => return Err(fault.into()),
//!     };
//!     write(&mut mirror, 8, &[0xa5; 512])?;
//!     let mut sector = [0; 512];
//!     read(&mut mirror, 8, &mut sector)?;
//!     stop(&mut mirror)?;
//!     Ok(sector)
//! }
//! ```
//!
//! A function that is passed a mirror asks that it is consistent, as every call does (`IsConsistent`, in
//! `md_array/specs/Consistency.antt`): `Mirror::open` gives that, and each call keeps it.
#![tactic(auto)]

// Devices.
pub use md_device::{
    CrashDevice as StopDevice, Device, Fault, FaultDevice, FaultList, Fuse, MemDevice,
    OverlayDevice, ReadFault, WriteFault,
};
pub use md_files::{Backing, FileDevice};
pub use md_images::{Access, ImageFault};

// What stands on a member.
pub use md_badblocks::{BadSet, LogFault, LogFull, Run};
pub use md_bitmap::{BitmapFault, BitmapHeader, Chunks, Marks};
pub use md_members::{MemberFault, MemberInfo, accepted, read_member, read_super};
pub use md_super::{Roles, SuperFault, Superblock, checksum, decode};

// Which array members make, and new members.
pub use md_assembly::{AssembleFault, Assembly, MemberState, assemble};
pub use md_create::{CreateFault, CreateParams, NewMember, create, lay_out};

// A mirror, its steps and their faults.
pub use md_array::{
    AddFault, AdmitFault, BeginFault, CleanFault, ClearFault, CopyFault, EnrolFault, FailFault,
    FinishFault, Mirror, NoteFault, OpenFault, Pending, ReAddFault, RemoveFault, StoreFault,
    TargetFault, WriteMemberFault,
};
pub use md_inflight::{Inflight, PushFault, Refused, Span, Ticket};

// Whole calls.
pub use md_check::{CheckFault, check_array};
pub use md_metadata::{RebuildExtent, StopFault, come_back, stop};
pub use md_read::{UnreadFault, UnresyncedFault, read, read_unresynced};
pub use md_resync::{ResyncFault, resync};
pub use md_write::write;

// A rebuild: its plan, the checker of plans, and what is read for it.
pub use md_cert::{
    Certificate, ChunkList, NoMemory, Plan, Planned, Row, Slot, Slots, Table, Verdict, check,
};
pub use md_collect::{Board, Collector, Refusal, Report, Share, read_chunk};
pub use md_copy::{RebuildFault, Rebuilt, Salvaged, rebuild, salvage, table};
pub use md_plan::plan;

// Where the output of commands goes, where their input comes from, who watches and who is asked.
pub use md_streams::{
    Asker, FillWatch, Gaps, Gate, Input, Messages, Output, ReadWatch, Sink, SinkFault, Source,
    Watch,
};

// Reports.
pub use md_examine::{examine, examine_badblocks, examine_bitmap};
pub use md_report::{check_report, detail, plan_report, rebuilt_report, summary};

// Commands, over images by name.
pub use md_cli::{Session, run};
pub use md_images::{Images, MemImages};
pub use md_nbd::{ClientWatch, RefusedRequest};
pub use md_words::{Request, parse};

// What holds over each life of an array: functions with empty bodies.
pub use md_laws::laws;
