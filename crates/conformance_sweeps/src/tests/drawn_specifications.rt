//! Specifications that are drawn at random: any symbols, symbols that are consecutive bytes except
//! for one, and symbols with rows of sixteen bytes that can share a row of the look-up table.

use data_encoding::Specification;
use std::alloc::AllocError;

/// A generator of numbers that are the same in each run of the tests.
#[derive(Drop)]
pub(super) struct Draw {
    pub(super) state: u64,
}

impl Draw {
    /// Returns the next number below `bound`.
    pub(super) fn below(&mut self, bound: usize) -> usize {
        self.state = self
            .state
            .wrapping_mul(6364136223846793005)
            .wrapping_add(1442695040888963407);
        (self.state >> 33) as usize % bound.max(1)
    }

    /// Appends `count` bytes.
    pub(super) fn put_bytes(
        &mut self,
        bytes: &mut Vec<u8>,
        count: usize,
    ) -> Result<(), AllocError> {
        for _ in 0..count {
            bytes.push((self.below(256) % 256) as u8)?;
        }
        Ok(())
    }

    /// Fills `bytes` with the numbers below its length, in a drawn order.
    fn put_order(&mut self, bytes: &mut [u8]) {
        for index in 0..bytes.len() {
            let other = self.below(index.wrapping_add(1)).min(index);
            bytes[index] = bytes[other];
            bytes[other] = (index % 256) as u8;
        }
    }
}

/// Sets `count` symbols, padding and translated bytes. Not every width allows padding.
pub(super) fn specify_drawn(
    specification: &mut Specification,
    draw: &mut Draw,
    count: usize,
) -> Result<(), AllocError> {
    let mut bytes = [0; 128];
    draw.put_order(&mut bytes);
    for (index, byte) in bytes.iter().enumerate() {
        let character = char::from(*byte);
        if index < count {
            specification.symbols.push(character)?;
        } else if index == count {
            specification.padding = Some(character);
        } else if index < count + 9 {
            specification.translate.from.push(character)?;
            let symbol = bytes.get(index % count.max(1)).unwrap_or(byte);
            specification.translate.to.push(char::from(*symbol))?;
        }
    }
    Ok(())
}

/// Sets symbols that are consecutive bytes, in the order of their values, except for `byte`. It
/// comes after the others or before them.
pub(super) fn specify_odd(
    specification: &mut Specification,
    draw: &mut Draw,
    byte: u8,
    count: u8,
    is_after: bool,
) -> Result<(), AllocError> {
    let place = draw.below(count as usize);
    let start = match is_after {
        true => byte.wrapping_sub(count),
        false => byte.wrapping_add(1),
    };
    for index in 0..count {
        let other = start.wrapping_add(index) % 128;
        let symbol = if index as usize == place { byte } else { other };
        specification.symbols.push(char::from(symbol))?;
    }
    Ok(())
}

/// Sets a symbol of `column` in one of the first five rows. Bytes of the column in some of the
/// other four rows are translated to it.
fn put_in_rows(
    specification: &mut Specification,
    draw: &mut Draw,
    column: u8,
) -> Result<(), AllocError> {
    let own = draw.below(5);
    let symbol = char::from(column.wrapping_add((16 * (own % 5)) as u8));
    specification.symbols.push(symbol)?;
    for row in 0..5usize {
        if row != own && draw.below(2) == 0 {
            let byte = column.wrapping_add((16 * row) as u8);
            specification.translate.from.push(char::from(byte))?;
            specification.translate.to.push(symbol)?;
        }
    }
    Ok(())
}

/// Sets symbols with rows that can share one.
///
/// Each of the first sixteen symbols has a column of its own, the lowest four bits of the byte. The
/// others are in the last three rows, and each of these rows has a constant.
pub(super) fn specify_shared(
    specification: &mut Specification,
    draw: &mut Draw,
    count: usize,
) -> Result<(), AllocError> {
    let mut columns = [0; 16];
    draw.put_order(&mut columns);
    for column in columns.iter().take(count) {
        put_in_rows(specification, draw, *column)?;
    }
    let turned = draw.below(3).wrapping_mul(16);
    for index in 16..count {
        let byte = 80 + index.wrapping_add(turned) % 48;
        specification.symbols.push(char::from(byte as u8))?;
    }
    Ok(())
}
