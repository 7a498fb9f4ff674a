// What is said beside a report, where a command is done.
ghost use Rattle.std.specs.Prelude.{◌≡◌, ◌↔◌, ◌&&◌, IfErr, IfOk, IsTrue, None, length, map, slice_get, unwrap_or};
ghost use Rattle.md_array.specs.Consistency.{IsConsistent};
ghost use Rattle.md_words.specs.Asks.{ask_of, loss_of, overwritten_by};
ghost use Rattle.md_state.specs.View.{disk_of};
ghost use Rattle.md_words.specs.declared.overwritten.Overwritten.TheVariants as overwritten;
ghost use Rattle.md_messages.specs.Holding.{IsJoining, IsOwn, NotesHeld, NotesHeldOnEach, one_needs_telling};
ghost use Rattle.md_messages.specs.Noticed.{NotesOpening, asked_of, asks_first, asks_before, first_absent, nothing, parted_members, ungiven_by, was_parted, was_spare, with_dropped, without_stored};

use md_array::Mirror;
use md_assembly::MemberState;
use md_device::Device;
use md_notices::{
    Asked, Held, Lost, MAX_MEMBERS, MAX_ROLES, UngivenChunks, Unready, chunks_ungiven, find_lost,
    first_in_sync, held_on, held_on_each, in_sync_count, is_forgotten, members_dropped,
    members_listing, members_listing_more, members_marked, members_parted, roles_unnamed,
    states_of, unready_for_kernel, was_apart,
};
use md_super::Superblock;
use md_words::{Command, Loss, Overwritten};
use std::alloc::{AllocError, Global};

/// What is noticed of an array as it is opened, and as a command leaves it, by the places of the images among its
/// members, and by its roles: on which images marks were stored, and which member is in sync alone; which members were
/// used without those in sync, of which one is named, and which devices were not named; which members dropped out, and
/// how many of how many are in sync then; which chunks a rebuild would list whole; which list more sectors as bad than before, and how many; which sectors of
/// the array no member in sync gives then, and why a kernel may not be given it. It is told after the command: of a refused one it may be nothing but the
/// fault that is told.
#[derive(Drop)]
pub struct Notices {
    pub marked: [bool; MAX_MEMBERS],
    pub alone: Option<usize>,
    pub parted: [bool; MAX_MEMBERS],
    pub source: Option<usize>,
    pub unnamed: [Option<u32>; MAX_ROLES],
    pub states: [Option<MemberState>; MAX_MEMBERS],
    pub ungiven: UngivenChunks,
    pub listed: [u64; MAX_MEMBERS],
    pub dropped: [bool; MAX_MEMBERS],
    pub more_listed: [Option<u64>; MAX_MEMBERS],
    pub lost: Lost,
    pub unready: Option<Unready>,
    pub in_sync: usize,
    pub raid_disks: u32,
    pub held: Held,
    pub own: bool,
    pub each: Option<Vec<Held>>,
}

impl Notices {
    /// Nothing.
    pub fn none() -> Notices
        ensures { result ≡ nothing }
    {
        Notices {
            marked: [false; MAX_MEMBERS],
            alone: None,
            parted: [false; MAX_MEMBERS],
            source: None,
            unnamed: [None; MAX_ROLES],
            states: [None; MAX_MEMBERS],
            ungiven: UngivenChunks::none(),
            listed: [0; MAX_MEMBERS],
            dropped: [false; MAX_MEMBERS],
            more_listed: [None; MAX_MEMBERS],
            lost: Lost::none(),
            unready: None,
            in_sync: 0,
            raid_disks: 0,
            held: Held::Nothing,
            own: false,
            each: None,
        }
    }

    /// Notes what the device holds that is to join. It is only read.
    pub fn note_held<D: Device>(&mut self, alloc: Global, device: &mut D)
        ensures { NotesHeld (disk_of D.Device device.old) (disk_of D.Device device.new) self.old self.new }
    {
        self.held = held_on(alloc, device);
    }

    /// Notes what each of the devices holds of which an array is to be made. They are only read, and `AllocError` comes
    /// before any of them is.
    pub fn note_held_on_each<D: Device>(
        &mut self,
        alloc: Global,
        devices: &mut Vec<D>,
    ) -> Result<(), AllocError>
        ensures as_many { length devices.new.items ≡ length devices.old.items }
        ensures looks { IfOk result (λ _. NotesHeldOnEach (map (disk_of D.Device) devices.old.items)
            (map (disk_of D.Device) devices.new.items) self.old self.new) }
        ensures untouched { IfErr result (λ _.
            (devices.new.items ≡ devices.old.items) × (self.new ≡ self.old)) }
    {
        self.each = Some(held_on_each(alloc, devices.as_mut_slice())?);
        Ok(())
    }

    /// Notes what the opening of this mirror tells.
    pub fn note<D: Device + Drop>(&mut self, command: Command<'_>, mirror: &Mirror<D>)
        requires { IsConsistent mirror.now }
        ensures { NotesOpening (ask_of command.entry) mirror.now.array self.old self.new }
    {
        self.own = is_own(command.overwrites(), mirror, &self.held);
        self.marked = members_marked(mirror);
        self.parted = parted_members(command, mirror);
        self.source = first_in_sync(mirror);
        self.alone = if in_sync_count(mirror) == 1 {
            self.source
        } else {
            None
        };
        self.unnamed = roles_unnamed(mirror, joining(mirror.shared(), &self.held));
        self.states = states_of(mirror);
        self.ungiven = ungiven_by(command, mirror);
        self.listed = members_listing(mirror);
    }

    /// Notes which members dropped out in a command, which left the array so, which list more sectors as bad, which
    /// sectors of the array no member in sync gives, and why a kernel may not be given it. `has_left` says whether the member left that the command is to take out.
    pub fn note_dropped<D: Device + Drop>(
        &mut self,
        command: Command<'_>,
        mirror: &Mirror<D>,
        has_left: bool,
    )
        ensures { self.new ≡ with_dropped (ask_of command.entry) mirror.now.array has_left self.old }
    {
        let asked = asked_of(command, has_left);
        self.dropped = members_dropped(&self.states, mirror, asked);
        self.more_listed = members_listing_more(&self.listed, mirror, asked);
        self.lost = find_lost(mirror);
        self.unready = unready_for_kernel(mirror);
        self.in_sync = in_sync_count(mirror);
        self.raid_disks = mirror.shared().raid_disks;
    }

    /// Forgets what was done in memory alone: marks and lists that were stored, and writes that failed.
    pub fn forget_stored(&mut self)
        ensures { self.new ≡ without_stored self.old }
    {
        self.marked = [false; MAX_MEMBERS];
        self.dropped = [false; MAX_MEMBERS];
        self.more_listed = [None; MAX_MEMBERS];
    }

    /// The first role whose device was not named.
    pub(crate) fn absent_role(&self) -> Option<usize>
        ensures { result ≡ first_absent self.now }
    {
        self.unnamed.iter().position(|number| number.is_some())
    }

    /// Whether a command is asked first, since it would overwrite what perhaps should stay.
    pub(crate) fn asks_first(&self, command: Command<'_>) -> bool
        ensures { result ≡ asks_first (ask_of command.entry) self.now }
    {
        match command.overwrites() {
            Overwritten::Images => one_needs_telling(&self.each),
            Overwritten::NewDevice => self.held.needs_telling(),
            Overwritten::ReturningDevice => self.own || self.held.is_unseen(),
            Overwritten::Member(member) => self.asks_of_member(member as usize),
            Overwritten::Nothing => false,
        }
    }

    // Whether it is asked of a member that is to be rebuilt.
    fn asks_of_member(&self, k: usize) -> bool
        ensures { result ≡ asks_before (overwritten.Member k) self.now }
    {
        self.is_parted_spare(k) || self.ungiven.first.is_some()
    }

    // Whether a member was used without those in sync, and may be rebuilt.
    fn is_parted_spare(&self, k: usize) -> bool
        ensures { result ≡ (was_parted self.now k
            && was_spare (unwrap_or (slice_get self.now.states k) None)) }
    {
        if !self.was_parted(k) {
            return false;
        }
        was_spare(self.states.get(k).copied().unwrap_or(None))
    }

    /// Whether a member was used without those in sync.
    pub(crate) fn was_parted(&self, k: usize) -> bool
        ensures { result ≡ was_parted self.now k }
    {
        self.parted.get(k).copied().unwrap_or(false)
    }
}

// Of each place whether its member was used without those in sync, where the command says that.
fn parted_members<D: Device + Drop>(command: Command<'_>, mirror: &Mirror<D>) -> [bool; MAX_MEMBERS]
    ensures { result ≡ parted_members (ask_of command.entry) mirror.now.array.members }
{
    if !command.tells_parted() {
        return [false; MAX_MEMBERS];
    }
    members_parted(mirror)
}

// The chunks that a rebuild would list whole, which loses chunks for a bad sector.
fn ungiven_by<D: Device + Drop>(command: Command<'_>, mirror: &Mirror<D>) -> UngivenChunks
    requires { IsConsistent mirror.now }
    ensures { result ≡ ungiven_by (overwritten_by (ask_of command.entry)) (loss_of (ask_of command.entry))
        mirror.now.array }
{
    match (command.overwrites(), command.loss()) {
        (Overwritten::Member(member), Some(Loss::Chunks)) => {
            chunks_ungiven(mirror, member as usize)
        }
        _ => UngivenChunks::none(),
    }
}

// Whether the device that is to join is one of the array: in sync there, where it is to be added, and used without the
// members in sync, where it is to come back.
fn is_own<D: Device + Drop>(overwritten: Overwritten, mirror: &Mirror<D>, held: &Held) -> bool
    ensures { IsTrue result ↔ IsOwn overwritten mirror.now.array held.now }
{
    let Held::Member(own) = held else {
        return false;
    };
    match overwritten {
        Overwritten::NewDevice => is_forgotten(mirror.shared(), own),
        Overwritten::ReturningDevice => was_apart(mirror, own),
        Overwritten::Nothing | Overwritten::Images | Overwritten::Member(_) => false,
    }
}

// What a command was asked to do with a member, which left the array or not.
fn asked_of(command: Command<'_>, has_left: bool) -> Asked
    ensures { result ≡ asked_of (ask_of command.entry) has_left }
{
    let left = match command.leaving() {
        Some(member) if has_left => Some(member as usize),
        _ => None,
    };
    let failed = match command.failing() {
        Some(member) => Some(member as usize),
        None => None,
    };
    Asked { left, failed }
}

// Whether one of the devices is to be told of.
fn one_needs_telling(each: &Option<Vec<Held>>) -> bool
    ensures { result ≡ one_needs_telling each.now }
{
    match each {
        Some(each) => each.iter().any(|held| held.needs_telling()),
        None => false,
    }
}

// Whether a member was a spare.
fn was_spare(state: Option<MemberState>) -> bool
    ensures { result ≡ was_spare state }
{
    match state {
        Some(state) => state.is_spare(),
        None => false,
    }
}

// The number of the device that is to join, where its superblock is one of the array.
fn joining(shared: &Superblock, held: &Held) -> Option<u32>
    ensures { IsJoining shared.now held.now result }
{
    let Held::Member(own) = held else {
        return None;
    };
    if own.set_uuid != shared.set_uuid {
        return None;
    }
    Some(own.dev_number)
}
