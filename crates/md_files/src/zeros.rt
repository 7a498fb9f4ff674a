// Bytes that are all zeros.
ghost use Rattle.std.specs.Prelude.{◌≡◌, length, replicate, true};

/// How long the blocks are in which zeros are looked for.
pub(crate) const BLOCK: usize = 4096;

const ZEROS: [u8; BLOCK] = [0; BLOCK];

/// Whether a block is all zeros.
pub(crate) fn is_zero(block: &[u8]) -> bool
    ensures { result ≡ true → block.now ≡ replicate 4096 0 }
{
    block == ZEROS.as_slice()
}
