// Simple replies, without the bytes that a READ gives.
ghost use Rattle.std.specs.Prelude.{◌≡◌};
ghost use Rattle.md_nbd.specs.SimpleReplies.{error_number, error_reply, simple_reply, success_reply};

const REPLY_MAGIC: u32 = 0x67446698;

/// Why a request is not done, as the protocol tells it.
#[derive(Clone, Copy, Debug, PartialEq, Eq)]
pub enum ErrorCode {
    /// EPERM: the export is only read.
    NotPermitted,
    /// EIO: a sector can't be read, or was not written.
    Io,
    /// EINVAL: the server knows no such request.
    Invalid,
    /// ENOSPC: a write goes past the end of the array.
    NoSpace,
    /// EOVERFLOW: more bytes than the server keeps room for.
    TooLarge,
}

impl ErrorCode {
    ghost use Rattle.md_nbd.specs.SimpleReplies.{error_number};

    /// The number of the error on the wire.
    pub fn number(self) -> u32
        ensures { result ≡ error_number self }
    {
        match self {
            ErrorCode::NotPermitted => 1,
            ErrorCode::Io => 5,
            ErrorCode::Invalid => 22,
            ErrorCode::NoSpace => 28,
            ErrorCode::TooLarge => 75,
        }
    }
}

/// The reply to a request that was done; what a READ gives comes after it.
pub fn success_reply(cookie: u64) -> [u8; 16]
    ensures { result ≡ success_reply cookie }
{
    simple_reply(0, cookie)
}

/// The reply to a request that was not done. No bytes come after it.
pub fn error_reply(error: ErrorCode, cookie: u64) -> [u8; 16]
    ensures { result ≡ error_reply error cookie }
{
    simple_reply(error.number(), cookie)
}

fn simple_reply(error: u32, cookie: u64) -> [u8; 16]
    ensures { result ≡ simple_reply error cookie }
{
    let [a, b, c, d] = REPLY_MAGIC.to_be_bytes();
    let [e, f, g, h] = error.to_be_bytes();
    let [i, j, k, l, m, n, o, p] = cookie.to_be_bytes();
    [a, b, c, d, e, f, g, h, i, j, k, l, m, n, o, p]
}
