//! The differences between platforms.
//!
//! The build for WebAssembly replaces this file, and no other.

/// Returns `true` if groups are encoded and decoded with SIMD, and `false` if in words.
// Has no contract, so that callers are proved for either result, and are not proved again on
// another platform.
#[inline(always)]
pub fn has_simd() -> bool {
    true
}
