// Images that show no member: whether each is told of, and by which words.
ghost use Rattle.std.specs.Prelude.{◌≡◌};
ghost use Rattle.md_streams.specs.Sink.{PutsOrFails};
ghost use Rattle.md_examine_commands.specs.Unshown.{fault_word, is_news, is_told_why, may_be_member};

use md_examine::put_member;
use md_images::ImageFault;
use md_members::MemberFault;
use md_streams::{Sink, SinkFault};
use md_super::SuperFault;

/// Why an image shows no member.
#[derive(Debug, Drop)]
pub enum ScanFault {
    /// It can't be opened.
    Image(ImageFault),
    /// Its superblock is not read, or refused.
    Member(MemberFault),
}

impl ScanFault {
    /// Whether the image may be a member all the same: it is not read, or it has a superblock that is refused.
    pub fn may_be_member(&self) -> bool
        ensures { result ≡ may_be_member self.now }
    {
        match self {
            ScanFault::Member(MemberFault::TooShort) => false,
            ScanFault::Member(MemberFault::Super(SuperFault::Magic)) => false,
            _ => true,
        }
    }

    // Whether it is told where nobody named the image: not where that is none, or has no node.
    fn is_news(&self) -> bool
        ensures { result ≡ is_news self.now }
    {
        match self {
            ScanFault::Image(ImageFault::Missing) => false,
            _ => self.may_be_member(),
        }
    }

    /// Puts out the fault alone. It takes no memory, and fails only where the output has failed.
    pub fn put_word<S: Sink>(&self, out: &mut S) -> Result<(), SinkFault>
        ensures { PutsOrFails S.contents S.failed out.old out.new (fault_word self.now) result }
    {
        match self {
            ScanFault::Image(_) => out.put(b"BadImage"),
            ScanFault::Member(fault) => put_member(out, *fault),
        }
    }
}

/// An image that shows no member, and why.
#[derive(Debug, Drop)]
pub struct Refused<'a> {
    pub name: &'a str,
    pub fault: ScanFault,
}

impl<'a> Refused<'a> {
    /// Whether it is told why the image shows no member: where a person named it, or where that is news.
    pub fn is_told_why(&self, is_named: bool) -> bool
        ensures { result ≡ is_told_why is_named self.now }
    {
        is_named || self.fault.is_news()
    }
}
