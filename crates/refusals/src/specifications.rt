//! Specifications, and their copies.

use crate::hog::Hog;
use data_encoding::{BitOrder, Encoding, Specification, SpecificationParts, Translate};

/// The symbols of base32.
const SYMBOLS: &str = "ABCDEFGHIJKLMNOPQRSTUVWXYZ234567";

/// Returns an encoding with lines. No text of its specification is empty.
fn lines_of_base32() -> Option<Encoding> {
    let parts = SpecificationParts {
        symbols: SYMBOLS.as_bytes(),
        bit_order: BitOrder::MostSignificantFirst,
        check_trailing_bits: true,
        concatenate: true,
        padding: None,
        ignore: b" ",
        wrap_width: 64,
        wrap_separator: b"\r\n",
        translate_from: b"0189",
        translate_to: b"OIBP",
    };
    parts.encoding().ok()
}

/// Returns `true` if `specification` is the specification of the encoding.
fn is_right(specification: &Specification) -> bool {
    specification.symbols.as_str() == SYMBOLS
        && specification.ignore.as_str() == "\n\r "
        && specification.wrap.width == 64
        && specification.wrap.separator.as_str() == "\r\n"
        && is_translated(&specification.translate)
}

/// Returns `true` if `translate` is the translation of the encoding.
fn is_translated(translate: &Translate) -> bool {
    translate.from.as_str() == "0189" && translate.to.as_str() == "OIBP"
}

/// Tests `Encoding::specification`.
pub fn specifies(hog: &mut Hog) -> bool {
    let Some(encoding) = lines_of_base32() else {
        return false;
    };
    hog.fill();
    let first = encoding.specification(hog.alloc);
    hog.clear();
    first.is_err() == hog.has_refused(true)
        && match encoding.specification(hog.alloc) {
            Ok(specification) => is_right(&specification),
            Err(_) => false,
        }
}

/// Returns the specification to copy.
fn specification_of(hog: &Hog) -> Option<Specification> {
    lines_of_base32()?.specification(hog.alloc).ok()
}

/// Tests `Specification::try_clone`.
pub fn clones(hog: &mut Hog) -> bool {
    let Some(specification) = specification_of(hog) else {
        return false;
    };
    hog.fill();
    let first = specification.try_clone();
    hog.clear();
    first.is_err() == hog.has_refused(true)
        && match specification.try_clone() {
            Ok(copy) => is_right(&copy) && is_right(&specification),
            Err(_) => false,
        }
}

/// Tests `Translate::try_clone`.
pub fn clones_translate(hog: &mut Hog) -> bool {
    let Some(specification) = specification_of(hog) else {
        return false;
    };
    hog.fill();
    let first = specification.translate.try_clone();
    hog.clear();
    first.is_err() == hog.has_refused(true)
        && match specification.translate.try_clone() {
            Ok(copy) => is_translated(&copy),
            Err(_) => false,
        }
}

/// Tests `Wrap::try_clone`.
pub fn clones_wrap(hog: &mut Hog) -> bool {
    let Some(specification) = specification_of(hog) else {
        return false;
    };
    hog.fill();
    let first = specification.wrap.try_clone();
    hog.clear();
    first.is_err() == hog.has_refused(true)
        && match specification.wrap.try_clone() {
            Ok(copy) => copy.width == 64 && copy.separator.as_str() == "\r\n",
            Err(_) => false,
        }
}
