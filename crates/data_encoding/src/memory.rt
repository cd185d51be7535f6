//! Allocation of the memory for a result.

ghost use Rattle.std.specs.Prelude.{◌≡◌, replicate, IfOk, IsOk};

use std::alloc::{AllocError, Global};

/// Returns `len` zeros.
pub(crate) fn zeros(alloc: Global, len: usize) -> Result<Vec<u8>, AllocError>
    ensures items { IfOk result (λ bytes. bytes.items ≡ replicate len 0) }
    ensures none { len ≡ 0 → IsOk result }
{
    let mut bytes = Vec::with_capacity(alloc, len)?;
    bytes.resize(len, 0)?;
    Ok(bytes)
}
