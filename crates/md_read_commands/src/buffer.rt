// Room for sectors in memory.
ghost use Rattle.std.specs.Prelude.{◌≡◌, ◌*◌, IfOk, length};

use std::alloc::{AllocError, Global};

/// A buffer of so many sectors.
pub(crate) fn buffer(alloc: Global, sectors: u64) -> Result<Vec<u8>, AllocError>
    ensures { IfOk result (λ bytes. length bytes.items ≡ 512 * sectors) }
{
    let Some(len) = sectors.checked_mul(512) else {
        return Err(AllocError);
    };
    vec![in alloc; 0; len as usize]
}
