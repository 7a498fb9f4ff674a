// A command that opens an array.
ghost use Rattle.std.specs.Prelude.{◌≡◌, option_map};
ghost use Rattle.md_words.specs.Asks.{access_of, array_ask, device_to_add, is_readonly, leaving_of, may_part};

use crate::form::{CheckForm, DetailForm, RebuildForm};
use crate::loss::Loss;
use md_images::Access;

/// A command with the array that the images make, with the values of its options. `readonly` says that no image may be
/// changed, `json` that the report is a JSON object.
#[derive(Clone, Copy)]
pub enum ArrayCommand<'a> {
    /// Shows the array that the images make in one line.
    Assemble {
        json: bool,
        readonly: bool,
    },
    /// Shows it with each member's state.
    Detail {
        form: DetailForm,
        readonly: bool,
    },
    /// Shows the plan of a rebuild of the member with this index.
    Plan {
        member: u32,
        json: bool,
        readonly: bool,
    },
    /// Puts out so many sectors of it, or all up to its end, from this one on, and with `fill` zeros in the place of those that are not given.
    Read {
        sector: u64,
        count: Option<u64>,
        fill: bool,
        readonly: bool,
    },
    /// Serves it to a client on the input and the output, reading only, and with `fill` zeros in the place of sectors that are not
    /// given.
    Serve {
        fill: bool,
    },
    /// Serves it to a client that may write to it, and stops it.
    ServeWritable,
    /// Counts the chunks in which its members in sync differ, or shows which they are too. With `exit_code` its status says
    /// whether there are any.
    Check {
        form: CheckForm,
        exit_code: bool,
        readonly: bool,
    },
    /// Writes the input to it, from this sector on, which has so many sectors where that is said, and stops it.
    Write {
        sector: u64,
        count: Option<u64>,
    },
    /// Makes its members in sync agree, and stops it.
    Resync,
    /// Stops it: what is to be stored at the end is stored.
    Stop {
        json: bool,
    },
    /// Makes the member with this index faulty, and stops it.
    Fail {
        member: u32,
    },
    /// The member with this index leaves it. It is stopped then.
    Remove {
        member: u32,
    },
    /// The image under this name, which is none of those listed, joins it. It is stopped then.
    Add {
        device: &'a str,
        json: bool,
    },
    /// The image under this name, which is none of those listed, left it. It comes back, and gets what it lacks, which with
    /// `full` is all of it, whatever is marked; the array is stopped then.
    ReAdd {
        device: &'a str,
        full: bool,
        json: bool,
    },
    /// The member with this index gets what it lacks, but for sectors that are lost, or their chunks. The array is stopped then.
    Rebuild {
        member: u32,
        loss: Loss,
        form: RebuildForm,
    },
}

impl<'a> ArrayCommand<'a> {
    /// How its images are opened: whether they may be changed.
    pub fn access(self) -> Access
        ensures { result ≡ access_of (array_ask self.entry) }
    {
        if self.is_readonly() {
            return Access::Look;
        }
        match self {
            // Opening the array may store marks.
            ArrayCommand::Assemble { .. }
            | ArrayCommand::Detail { .. }
            | ArrayCommand::Plan { .. }
            | ArrayCommand::Read { .. }
            | ArrayCommand::Serve { .. }
            | ArrayCommand::Check { .. } => Access::ChangeOrLook,
            ArrayCommand::ServeWritable
            | ArrayCommand::Write { .. }
            | ArrayCommand::Resync
            | ArrayCommand::Stop { .. }
            | ArrayCommand::Fail { .. }
            | ArrayCommand::Remove { .. }
            | ArrayCommand::Add { .. }
            | ArrayCommand::ReAdd { .. }
            | ArrayCommand::Rebuild { .. } => Access::Change,
        }
    }

    /// Whether it was asked to change no image, where it else might.
    pub fn is_readonly(self) -> bool
        ensures { result ≡ is_readonly (array_ask self.entry) }
    {
        match self {
            ArrayCommand::Assemble { readonly, .. } => readonly,
            ArrayCommand::Detail { readonly, .. } => readonly,
            ArrayCommand::Plan { readonly, .. } => readonly,
            ArrayCommand::Read { readonly, .. } => readonly,
            ArrayCommand::Serve { .. } => true,
            ArrayCommand::Check { readonly, .. } => readonly,
            ArrayCommand::ServeWritable
            | ArrayCommand::Write { .. }
            | ArrayCommand::Resync
            | ArrayCommand::Stop { .. }
            | ArrayCommand::Fail { .. }
            | ArrayCommand::Remove { .. }
            | ArrayCommand::Add { .. }
            | ArrayCommand::ReAdd { .. }
            | ArrayCommand::Rebuild { .. } => false,
        }
    }

    /// Whether it may part the array: it can go on without a member in sync that is not among the images, and it asks first. Each
    /// command has an arm of its own, so that a new command needs one too.
    pub fn may_part(self) -> bool
        ensures { result ≡ may_part (array_ask self.entry) }
    {
        match self {
            ArrayCommand::ServeWritable
            | ArrayCommand::Write { .. }
            | ArrayCommand::Resync
            | ArrayCommand::Stop { .. }
            | ArrayCommand::Fail { .. }
            | ArrayCommand::Remove { .. }
            | ArrayCommand::Add { .. }
            | ArrayCommand::ReAdd { .. }
            | ArrayCommand::Rebuild { .. } => true,
            ArrayCommand::Assemble { .. }
            | ArrayCommand::Detail { .. }
            | ArrayCommand::Plan { .. }
            | ArrayCommand::Read { .. }
            | ArrayCommand::Serve { .. }
            | ArrayCommand::Check { .. } => false,
        }
    }

    /// The image that is to join the array.
    pub fn device(self) -> Option<&'a str>
        ensures { option_map (λ s. s.now) result ≡ device_to_add (array_ask self.entry) }
    {
        match self {
            ArrayCommand::Add { device, .. } => Some(device),
            ArrayCommand::ReAdd { device, .. } => Some(device),
            _ => None,
        }
    }

    /// The index of the member that is to leave the array.
    pub fn leaving(self) -> Option<u32>
        ensures { result ≡ leaving_of (array_ask self.entry) }
    {
        match self {
            ArrayCommand::Remove { member } => Some(member),
            _ => None,
        }
    }
}
