// A command, and what it may do with the images.
ghost use Rattle.std.specs.Prelude.{◌≡◌, option_map};
ghost use Rattle.md_words.specs.Asks.{ask_of, device_to_add, failing_of, fills, is_json, leaving_of, long_task_of, loss_of, may_part, member_of, needs_random_bytes, overwritten_by, scan_form, takes_input, tells_by_status, tells_parted};

use crate::array_command::ArrayCommand;
use crate::create_options::CreateOptions;
use crate::image_command::ImageCommand;
use crate::long_task::LongTask;
use crate::loss::Loss;
use crate::overwritten::Overwritten;

/// A command, with the values of its options: with one image, with images that make no array yet, or with the array that they
/// make.
#[derive(Clone, Copy)]
pub enum Command<'a> {
    /// Shows the one image.
    Image(ImageCommand),
    /// Shows of which arrays the images are members.
    Scan { json: bool },
    /// Makes an array of the images, and shows it in one line.
    Create(CreateOptions<'a>),
    /// Gives the members of the array a bitmap of this kind, with chunks of so many KiB, and shows it in one line.
    Grow { bitmap: &'a str, chunk: u32 },
    /// Opens the array that the images make.
    Array(ArrayCommand<'a>),
}

impl<'a> Command<'a> {
    /// Where it tells of which arrays images are members: whether the report is a JSON object.
    pub fn scan_form(self) -> Option<bool>
        ensures { result ≡ scan_form (ask_of self.entry) }
    {
        match self {
            Command::Scan { json } => Some(json),
            _ => None,
        }
    }

    /// Whether it puts out zeros for sectors that are not given.
    pub fn fills(self) -> bool
        ensures { result ≡ fills (ask_of self.entry) }
    {
        match self {
            Command::Array(ArrayCommand::Read { fill, .. }) => fill,
            Command::Array(ArrayCommand::Serve { fill }) => fill,
            _ => false,
        }
    }

    /// The image that is to join the array.
    pub fn device(self) -> Option<&'a str>
        ensures { option_map (λ s. s.now) result ≡ device_to_add (ask_of self.entry) }
    {
        match self {
            Command::Array(command) => command.device(),
            _ => None,
        }
    }

    /// The index of the member that it names.
    pub fn member(self) -> Option<u32>
        ensures { result ≡ member_of (ask_of self.entry) }
    {
        match self {
            Command::Array(ArrayCommand::Plan { member, .. }) => Some(member),
            Command::Array(ArrayCommand::Fail { member }) => Some(member),
            Command::Array(ArrayCommand::Remove { member }) => Some(member),
            Command::Array(ArrayCommand::Rebuild { member, .. }) => Some(member),
            _ => None,
        }
    }

    /// The index of the member that is to leave the array.
    pub fn leaving(self) -> Option<u32>
        ensures { result ≡ leaving_of (ask_of self.entry) }
    {
        match self {
            Command::Array(command) => command.leaving(),
            _ => None,
        }
    }

    /// The index of the member that it makes faulty itself.
    pub fn failing(self) -> Option<u32>
        ensures { result ≡ failing_of (ask_of self.entry) }
    {
        match self {
            Command::Array(ArrayCommand::Fail { member }) => Some(member),
            _ => None,
        }
    }

    /// Whether it says which members were used without those in sync.
    pub fn tells_parted(self) -> bool
        ensures { result ≡ tells_parted (ask_of self.entry) }
    {
        match self {
            Command::Array(
                ArrayCommand::Assemble { .. }
                | ArrayCommand::Detail { .. }
                | ArrayCommand::Plan { .. }
                | ArrayCommand::ReAdd { .. }
                | ArrayCommand::Rebuild { .. },
            ) => true,
            _ => false,
        }
    }

    /// What it overwrites that perhaps should stay: it may be asked of that first. Each command has its arm, so that none is
    /// added without one.
    pub fn overwrites(self) -> Overwritten
        ensures { result ≡ overwritten_by (ask_of self.entry) }
    {
        match self {
            Command::Create(_) => Overwritten::Images,
            Command::Array(ArrayCommand::Add { .. }) => Overwritten::NewDevice,
            Command::Array(ArrayCommand::ReAdd { .. }) => Overwritten::ReturningDevice,
            Command::Array(ArrayCommand::Rebuild { member, .. }) => Overwritten::Member(member),
            Command::Image(_) | Command::Scan { .. } | Command::Grow { .. } => Overwritten::Nothing,
            Command::Array(
                ArrayCommand::Assemble { .. }
                | ArrayCommand::Detail { .. }
                | ArrayCommand::Plan { .. }
                | ArrayCommand::Read { .. }
                | ArrayCommand::Serve { .. }
                | ArrayCommand::ServeWritable
                | ArrayCommand::Check { .. }
                | ArrayCommand::Write { .. }
                | ArrayCommand::Resync
                | ArrayCommand::Stop { .. }
                | ArrayCommand::Fail { .. }
                | ArrayCommand::Remove { .. },
            ) => Overwritten::Nothing,
        }
    }

    /// Whether it can go on without members in sync that are not among the images. Then it asks first.
    pub fn may_part(self) -> bool
        ensures { result ≡ may_part (ask_of self.entry) }
    {
        match self {
            Command::Array(command) => command.may_part(),
            Command::Grow { .. } => true,
            Command::Image(_) | Command::Scan { .. } | Command::Create(_) => false,
        }
    }

    /// Whether its report is a JSON object.
    pub fn is_json(self) -> bool
        ensures { result ≡ is_json (ask_of self.entry) }
    {
        match self {
            Command::Image(command) => command.form().is_json(),
            Command::Scan { json } => json,
            Command::Create(options) => options.json,
            Command::Array(ArrayCommand::Assemble { json, .. }) => json,
            Command::Array(ArrayCommand::Detail { form, .. }) => form.is_json(),
            Command::Array(ArrayCommand::Plan { json, .. }) => json,
            Command::Array(ArrayCommand::Check { form, .. }) => form.is_json(),
            Command::Array(ArrayCommand::Stop { json }) => json,
            Command::Array(ArrayCommand::Add { json, .. }) => json,
            Command::Array(ArrayCommand::ReAdd { json, .. }) => json,
            Command::Array(ArrayCommand::Rebuild { form, .. }) => form.is_json(),
            _ => false,
        }
    }

    /// Whether its status says that chunks differ, where they do.
    pub fn tells_by_status(self) -> bool
        ensures { result ≡ tells_by_status (ask_of self.entry) }
    {
        match self {
            Command::Array(ArrayCommand::Check { exit_code, .. }) => exit_code,
            _ => false,
        }
    }

    /// Whether it reads the input, which it may hold in memory.
    pub fn takes_input(self) -> bool
        ensures { result ≡ takes_input (ask_of self.entry) }
    {
        match self {
            Command::Array(ArrayCommand::Write { .. }) => true,
            _ => false,
        }
    }

    /// Whether it makes a UUID of random bytes.
    pub fn needs_random_bytes(self) -> bool
        ensures { result ≡ needs_random_bytes (ask_of self.entry) }
    {
        match self {
            Command::Create(options) => options.uuid.is_none(),
            _ => false,
        }
    }

    /// What a rebuild that it does loses for a bad sector.
    pub fn loss(self) -> Option<Loss>
        ensures { result ≡ loss_of (ask_of self.entry) }
    {
        match self {
            Command::Array(ArrayCommand::ReAdd { .. }) => Some(Loss::Chunks),
            Command::Array(ArrayCommand::Rebuild { loss, .. }) => Some(loss),
            _ => None,
        }
    }

    /// What it does that takes long.
    pub fn long_task(self) -> Option<LongTask>
        ensures { result ≡ long_task_of (ask_of self.entry) }
    {
        match self {
            Command::Array(ArrayCommand::Read { count, .. }) => Some(LongTask::Read(count)),
            Command::Array(ArrayCommand::Check { .. }) => Some(LongTask::Check),
            Command::Array(ArrayCommand::Resync) => Some(LongTask::Resync),
            Command::Array(ArrayCommand::ReAdd { .. } | ArrayCommand::Rebuild { .. }) => {
                Some(LongTask::Rebuild)
            }
            Command::Array(ArrayCommand::Write { .. }) => Some(LongTask::Write),
            _ => None,
        }
    }
}
