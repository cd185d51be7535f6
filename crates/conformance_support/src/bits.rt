//! The bits of values, in lists, in either order.

ghost use Rattle.std.specs.Prelude.{◌<◌};

use data_encoding::BitOrder;
use std::alloc::AllocError;

/// Appends the lowest `count` bits of `value`.
pub fn push_bits(
    bits: &mut Vec<bool>,
    order: BitOrder,
    count: u32,
    value: usize,
) -> Result<(), AllocError> {
    for index in 0..count {
        let shift = weight_of_bit(order, count, index);
        bits.push(value.wrapping_shr(shift) % 2 == 1)?;
    }
    Ok(())
}

/// Returns the value of the bits of a symbol of `width` bits. Zeros follow the last bit.
pub fn value_of_bits(order: BitOrder, width: u32, bits: &[bool]) -> usize {
    let mut value = 0usize;
    for index in 0..width {
        if bits.get(index as usize) == Some(&true) {
            value |= 1usize.wrapping_shl(weight_of_bit(order, width, index));
        }
    }
    value
}

/// Returns the weight (as a power of two) of bit `index` of `count`.
fn weight_of_bit(order: BitOrder, count: u32, index: u32) -> u32
    requires inside { index < count }
{
    match order {
        BitOrder::MostSignificantFirst => count - 1 - index,
        BitOrder::LeastSignificantFirst => index,
    }
}

/// Appends the bytes of `bits`.
pub fn push_bytes(bytes: &mut Vec<u8>, order: BitOrder, bits: &[bool]) -> Result<(), AllocError> {
    for eight in bits.chunks(8) {
        bytes.push(byte_of_bits(order, eight))?;
    }
    Ok(())
}

/// Returns the byte of eight bits.
fn byte_of_bits(order: BitOrder, bits: &[bool]) -> u8 {
    let mut byte = 0u8;
    for bit in bits {
        byte = match order {
            BitOrder::MostSignificantFirst => byte.wrapping_mul(2) | u8::from(*bit),
            BitOrder::LeastSignificantFirst => byte >> 1 | u8::from(*bit).wrapping_mul(128),
        };
    }
    byte
}
