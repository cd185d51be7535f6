//! Specifications of encodings, and the reasons to refuse one.

pub(crate) mod borrowed_specification;
pub(crate) mod builder;
pub(crate) mod canonical;
pub(crate) mod from_tables;
pub(crate) mod layout;
pub mod meanings;
pub(crate) mod predefined;
pub(crate) mod specification_bytes;

ghost use Rattle.std.specs.Prelude.{◌≡◌, ◌<◌, ◌≤◌, ◌++◌, ◌∷◌, [], length, nat_lt, IsTrue, IfOk, IfErr, OnOk, Ok, Err};
ghost use Rattle.std.specs.List.{list_all};
ghost use Rattle.std.specs.String.{string_bytes};
ghost use Rattle.data_encoding_meaning.specs.specification.Fields.{base_of};
ghost use Rattle.data_encoding_meaning.specs.specification.Layout.{fields_of};
ghost use Rattle.data_encoding_meaning.specs.decoding.Printed.{printed_refusal};
ghost use Rattle.data_encoding.specs.Tables.{HasTables};
ghost use Rattle.data_encoding.specs.Specification.{specified, no_fields, refusal_of, SameTranslate, SameWrap};

use crate::encoding::{ASCII, BitOrder, Encoding, EncodingRef};
use crate::specification::borrowed_specification::SpecificationParts;
use crate::specification::from_tables::{Tables, alphabet_len, character};
use crate::specification::meanings::Refusal;
use std::alloc::{AllocError, Global};
use std::error::Error;
use std::fmt;

/// A translation: each byte of `from` means the same as the byte of `to` at the same index.
#[derive(Debug, Drop)]
pub struct Translate {
    /// The bytes that are translated.
    pub from: String,

    /// The byte for each of them, in the same order.
    pub to: String,
}

/// The lines of a text.
#[derive(Debug, Drop)]
pub struct Wrap {
    /// The number of characters of a line. 0 means no lines.
    pub width: usize,

    /// The separator that follows each line. An empty one means no lines.
    pub separator: String,
}

/// A specification: the parameters from which an encoding is built.
#[derive(Debug, Drop)]
pub struct Specification {
    /// The symbols, in order of value: 2, 4, 8, 16, 32 or 64 ASCII characters.
    pub symbols: String,

    /// The order of the bits of a byte.
    pub bit_order: BitOrder,

    /// `true` if the trailing bits of a text must be zeros.
    pub check_trailing_bits: bool,

    /// `true` if concatenated padded texts are decoded as one. Otherwise a text ends with its first
    /// padded group. Without padding this has no effect.
    pub concatenate: bool,

    /// The character that fills the last group of a text.
    pub padding: Option<char>,

    /// The ignored bytes: they may be anywhere in a text, and add nothing to it.
    pub ignore: String,

    /// The lines of a text.
    pub wrap: Wrap,

    /// The bytes that are translated to others.
    pub translate: Translate,
}

/// The reason why a specification is refused.
#[derive(Clone, Copy, Debug)]
pub struct SpecificationError {
    pub(crate) refusal: Refusal,
}

impl Specification {
    /// Returns a specification without symbols, padding, ignored bytes, lines and translations.
    ///
    /// The most significant bit comes first, trailing bits are checked, and texts may be
    /// concatenated. Nothing is allocated.
    pub fn new(alloc: Global) -> Specification
        ensures { specified result ≡ no_fields }
    {
        Specification {
            symbols: String::new(alloc),
            bit_order: BitOrder::MostSignificantFirst,
            check_trailing_bits: true,
            concatenate: true,
            padding: None,
            ignore: String::new(alloc),
            wrap: Wrap {
                width: 0,
                separator: String::new(alloc),
            },
            translate: Translate {
                from: String::new(alloc),
                to: String::new(alloc),
            },
        }
    }

    /// Returns the encoding that the specification describes, or the first reason to refuse it.
    ///
    /// Nothing is allocated. The checks are, in this order: the number of symbols, the symbols, the
    /// padding, the ignored bytes, the lines if there are any, and the translations. A translation
    /// may use the result of an earlier one. If eight bits are whole symbols, trailing bits are
    /// always checked.
    ///
    /// ```
    /// let mut octal = Specification::new(alloc);
    /// octal.symbols = String::from_str(alloc, "01234567")?;
    /// octal.padding = Some('=');
    /// assert!(rt; octal.encoding()?.encode(alloc, b"Hi")?.as_str() == "220644==");
    /// ```
    pub fn encoding(&self) -> Result<Encoding, SpecificationError>
        ensures is_built { IfOk result (λ base. base_of (specified self.now) ≡ Ok base) }
        ensures refused { IfErr result
            (λ error. base_of (specified self.now) ≡ Err (refusal_of error)) }
    {
        let parts = SpecificationParts {
            symbols: self.symbols.as_bytes(),
            bit_order: self.bit_order,
            check_trailing_bits: self.check_trailing_bits,
            concatenate: self.concatenate,
            padding: self.padding,
            ignore: self.ignore.as_bytes(),
            wrap_width: self.wrap.width,
            wrap_separator: self.wrap.separator.as_bytes(),
            translate_from: self.translate.from.as_bytes(),
            translate_to: self.translate.to.as_bytes(),
        };
        parts.encoding()
    }

    /// Returns a copy of the specification. Returns an error only if memory runs out.
    pub fn try_clone(&self) -> Result<Specification, AllocError>
        ensures { IfOk result (λ copy. specified copy ≡ specified self.now) }
    {
        Ok(Specification {
            symbols: self.symbols.clone()?,
            bit_order: self.bit_order,
            check_trailing_bits: self.check_trailing_bits,
            concatenate: self.concatenate,
            padding: self.padding,
            ignore: self.ignore.clone()?,
            wrap: self.wrap.try_clone()?,
            translate: self.translate.try_clone()?,
        })
    }
}

impl SpecificationError {
    /// Returns the first check that failed, with the byte or the number that is the cause.
    pub fn refusal(&self) -> Refusal
        ensures { result ≡ refusal_of self.now }
    {
        self.refusal
    }
}

impl EncodingRef<'_> {
    /// Like [`Encoding::specification`].
    pub fn specification(&self, alloc: Global) -> Result<Specification, AllocError>
        ensures { IfOk result (λ specification. specified specification ≡ fields_of self.now) }
    {
        let tables = self.tables();
        let translations = tables.translations();
        Ok(Specification {
            symbols: ascii_text(alloc, tables.symbols)?,
            bit_order: self.fields.order(),
            check_trailing_bits: self.fields.checks_trailing_bits,
            concatenate: self.fields.concatenates,
            padding: character(self.fields.padding_character()),
            ignore: ascii_text(alloc, tables.ignored().as_slice())?,
            wrap: Wrap {
                width: self.fields.column as usize,
                separator: ascii_text(alloc, self.separator)?,
            },
            translate: Translate {
                from: ascii_text(alloc, translations.from.as_slice())?,
                to: ascii_text(alloc, translations.to.as_slice())?,
            },
        })
    }

    /// Returns the tables, with one entry for each symbol.
    pub(crate) fn tables(&self) -> Tables<'_>
        ensures tables { HasTables self.now result }
        ensures long { length result.values.now ≡ 128 }
        ensures few { length result.symbols.now ≤ 64 }
        ensures ascii { IsTrue (list_all (λ symbol. nat_lt symbol 128) result.symbols.now) }
    {
        Tables {
            symbols: &self.fields.symbols.entries[..alphabet_len(self.fields.width)],
            values: &self.fields.values.entries[..ASCII as usize],
            padding: self.fields.padding_character(),
        }
    }
}

/// Appends an ASCII character.
fn push_ascii(text: &mut String, byte: u8) -> Result<(), AllocError>
    requires { byte < 128 }
    ensures { OnOk result (string_bytes text.new ≡ string_bytes text.old ++ byte ∷ []) }
{
    text.push(char::from(byte))
}

/// Returns ASCII characters as text.
fn ascii_text(alloc: Global, bytes: &[u8]) -> Result<String, AllocError>
    requires { IsTrue (list_all (λ byte. nat_lt byte 128) bytes.now) }
    ensures { IfOk result (λ text. string_bytes text ≡ bytes.now) }
{
    let mut text = String::new(alloc);
    for byte in bytes {
        push_ascii(&mut text, *byte)?;
    }
    Ok(text)
}

impl Translate {
    /// Returns a copy of the translation. Returns an error only if memory runs out.
    pub fn try_clone(&self) -> Result<Translate, AllocError>
        ensures { IfOk result (λ copy. SameTranslate copy self.now) }
    {
        Ok(Translate {
            from: self.from.clone()?,
            to: self.to.clone()?,
        })
    }
}

impl Wrap {
    /// Returns a copy of the line settings. Returns an error only if memory runs out.
    pub fn try_clone(&self) -> Result<Wrap, AllocError>
        ensures { IfOk result (λ copy. SameWrap copy self.now) }
    {
        Ok(Wrap {
            width: self.width,
            separator: self.separator.clone()?,
        })
    }
}

impl fmt::Display for SpecificationError {
    ghost output = { λ error. printed_refusal error.refusal };

    fn fmt<W: fmt::Write>(&self, f: &mut fmt::Formatter<W>) -> fmt::Result {
        match self.refusal {
            Refusal::BadSize => f.write_str("invalid number of symbols"),
            Refusal::NotAscii => f.write_str("non-ascii character"),
            Refusal::Duplicate(byte) => {
                let character = char::from(byte);
                write!(f, "{character:?} has conflicting definitions")
            }
            Refusal::ExtraPadding => f.write_str("unnecessary padding"),
            Refusal::WrapLength => f.write_str("invalid wrap width or separator length"),
            Refusal::WrapWidth(count) => write!(f, "wrap width not a multiple of {count}"),
            Refusal::FromTo => f.write_str("translate from/to length mismatch"),
            Refusal::Undefined(byte) => {
                let character = char::from(byte);
                write!(f, "{character:?} is undefined")
            }
        }
    }
}

impl Error for SpecificationError {}
