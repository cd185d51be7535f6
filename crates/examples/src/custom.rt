//! Encodings that are built from a specification.

use anyhow::Result;
use data_encoding::{BitOrder, Encoding, Specification, Translate, Wrap};
use std::alloc::Global;

/// Returns Crockford's base32, without check symbols: letters of either case, and hyphens anywhere.
pub fn crockford(alloc: Global) -> Result<Encoding> {
    let mut specification = Specification::new(alloc);
    specification.symbols = String::from_str(alloc, "0123456789ABCDEFGHJKMNPQRSTVWXYZ")?;
    specification.ignore = String::from_str(alloc, "-")?;
    specification.translate.from = String::from_str(alloc, "abcdefghjkmnpqrstvwxyzOoIiLl")?;
    specification.translate.to = String::from_str(alloc, "ABCDEFGHJKMNPQRSTVWXYZ001111")?;
    Ok(specification.encoding()?)
}

/// Returns an encoding with octal digits in lines of 32. Its specification gives every field.
pub fn octal(alloc: Global) -> Result<Encoding> {
    let specification = Specification {
        symbols: String::from_str(alloc, "01234567")?,
        bit_order: BitOrder::MostSignificantFirst,
        check_trailing_bits: true,
        concatenate: false,
        padding: Some('='),
        ignore: String::from_str(alloc, " \t")?,
        wrap: Wrap {
            width: 32,
            separator: String::from_str(alloc, "\n")?,
        },
        translate: Translate {
            from: String::from_str(alloc, "oOlI")?,
            to: String::from_str(alloc, "0011")?,
        },
    };
    Ok(specification.encoding()?)
}
