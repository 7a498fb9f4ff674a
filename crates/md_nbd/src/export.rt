// What clients are told of the array.
ghost use Rattle.std.specs.Prelude.{◌≡◌};
ghost use Rattle.md_nbd.specs.Export.{transmission_flags_of};

/// The most bytes that one request reads or writes: 32 MiB, which a client may send that never asked for block sizes.
pub const MOST_BYTES: u32 = 0x2000000;

/// The array, as clients are told of it.
#[derive(Clone, Copy)]
pub struct Export {
    /// In bytes.
    pub size: u64,
    /// Whether every write is refused.
    pub readonly: bool,
}

/// HAS_FLAGS and SEND_FLUSH, and with them READ_ONLY and CAN_MULTI_CONN, or SEND_FUA.
pub(crate) fn transmission_flags(export: &Export) -> u16
    ensures { result ≡ transmission_flags_of export.now }
{
    if export.readonly { 0x107 } else { 0x0d }
}
