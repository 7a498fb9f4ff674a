// What comes before the options.
ghost use Rattle.std.specs.Prelude.{◌≡◌};
ghost use Rattle.md_nbd.specs.Handshake.{greeting_bytes, no_zeroes_of};

/// How many bytes the greeting has.
pub const GREETING_BYTES: usize = 18;

/// What the server sends first: two magic numbers, and that it speaks fixed newstyle and can leave out zeros.
pub fn greeting() -> [u8; 18]
    ensures { result ≡ greeting_bytes }
{
    *b"NBDMAGICIHAVEOPT\x00\x03"
}

/// Whether the client wants no zeros after the answer to EXPORT_NAME, of its flags; none where it has others than the server's.
pub fn no_zeroes_of(client_flags: u32) -> Option<bool>
    ensures { result ≡ no_zeroes_of client_flags }
{
    if client_flags < 4 {
        Some(2 <= client_flags)
    } else {
        None
    }
}
