// The buffers through which sectors are copied and compared.
ghost use Rattle.std.specs.Prelude.{◌≡◌, IfOk, length};

use std::alloc::{AllocError, Global};

// 1 MiB.
const BUFFER_BYTES: usize = 0x100000;

/// Room for as many bytes as are copied at once.
pub(crate) fn buffer(alloc: Global) -> Result<Vec<u8>, AllocError>
    ensures { IfOk result (λ bytes. length bytes.items ≡ 1048576) }
{
    vec![in alloc; 0; BUFFER_BYTES]
}
