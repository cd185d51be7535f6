//! An encoding as bytes, and back.

ghost use Rattle.std.specs.Prelude.{◌≡◌, ◌+◌, ◌/◌, ◌%◌, ◌==◌, ◌<◌, ◌≤◌, ◌++◌, length, drop, slice_index, if◌then◌else◌, Some, None, IfSome, IsSome};
ghost use Rattle.arrayvec.specs.ArrayVec.{array_vec_len};
ghost use Rattle.data_encoding_meaning.specs.declared.encoding.BitOrder.TheVariants.{MostSignificantFirst, LeastSignificantFirst};
ghost use Rattle.data_encoding_meaning.specs.text.Base.{Base};
ghost use Rattle.data_encoding_meaning.specs.specification.Fields.{IsSpecified};
ghost use Rattle.data_encoding_meaning.specs.specification.Layout.{layout, order_flag};

use crate::encoding::plain_encoding::padding_of;
use crate::encoding::{BitOrder, Encoding, EncodingRef, INVALID};
use crate::specification::borrowed_specification::SpecificationParts;
use crate::specification::builder::build;
use crate::specification::from_tables::{Tables, alphabet_len, character};
use arrayvec::ArrayVec;

impl Encoding {
    /// Returns the encoding with the layout `implementation`, or `None` if there is none.
    ///
    /// [`internal_implementation`](Encoding::internal_implementation) describes layouts. The bytes
    /// are copied, and nothing is allocated.
    pub fn internal_new(implementation: &[u8]) -> Option<Encoding>
        ensures base { IfSome result IsSpecified }
        ensures layout { IfSome result (λ base. layout base ≡ implementation.now) }
        ensures accepted { (base : Base) → IsSpecified base → layout base ≡ implementation.now
            → IsSome result }
    {
        if implementation.len() < 514 || implementation.len() > 770 {
            return None;
        }
        let encoding = parse_layout(implementation)?;
        if encoding.internal_implementation().as_slice() == implementation {
            Some(encoding)
        } else {
            None
        }
    }
}

impl EncodingRef<'_> {
    /// Like [`Encoding::internal_implementation`].
    pub fn internal_implementation(&self) -> ArrayVec<u8, 770>
        ensures { result.items ≡ layout self.now }
    {
        let mut bytes = ArrayVec::new();
        put(&mut bytes, &self.fields.symbols.entries);
        put(&mut bytes, &self.fields.values.entries);
        put(
            &mut bytes,
            &[self.fields.padding.min(INVALID), self.flags()],
        );
        if self.fields.column != 0 {
            put(&mut bytes, &[self.fields.column]);
            put(&mut bytes, self.separator);
        } else if self.fields.ignores {
            put(&mut bytes, &[0]);
        }
        bytes
    }

    /// Returns the width, plus 8 for the order, 16 if trailing bits are checked, and 32 if texts
    /// may not be concatenated.
    fn flags(&self) -> u8
        ensures { result ≡ self.now.width + order_flag self.now.order
            + (if self.now.checks_trailing_bits then 16 else 0)
            + (if self.now.concatenates then 0 else 32) }
    {
        let order = match self.fields.order() {
            BitOrder::MostSignificantFirst => 8,
            BitOrder::LeastSignificantFirst => 0,
        };
        let check = if self.fields.checks_trailing_bits {
            16
        } else {
            0
        };
        let single = if self.fields.concatenates { 0 } else { 32 };
        self.fields.width + order + check + single
    }
}

/// Appends bytes. There is room for them.
fn put(layout: &mut ArrayVec<u8, 770>, bytes: &[u8])
    requires { array_vec_len layout.old + length bytes.now ≤ 770 }
    ensures { layout.new.items ≡ layout.old.items ++ bytes.now }
{
    layout.try_extend_from_slice(bytes).unwrap();
}

/// Returns the encoding that has these bytes as its layout, if there is one.
fn parse_layout(bytes: &[u8]) -> Option<Encoding>
    requires { 514 ≤ length bytes.now }
    ensures base { IfSome result IsSpecified }
    ensures found { (base : Base) → IsSpecified base → layout base ≡ bytes.now
        → result ≡ Some base }
{
    let flags = bytes[513];
    let width = flags % 8;
    if width == 0 || width > 6 {
        return None;
    }
    let tables = Tables {
        symbols: &bytes[..alphabet_len(width)],
        values: &bytes[256..384],
        padding: padding_of(bytes[512]),
    };
    let ignored = tables.ignored();
    let translations = tables.translations();
    let parts = SpecificationParts {
        symbols: tables.symbols,
        bit_order: order_of(flags),
        check_trailing_bits: flags / 16 % 2 == 1,
        concatenate: flags / 32 % 2 == 0,
        padding: character(tables.padding),
        ignore: ignored.as_slice(),
        wrap_width: column_of(bytes) as usize,
        wrap_separator: separator_of(bytes),
        translate_from: translations.from.as_slice(),
        translate_to: translations.to.as_slice(),
    };
    build(&parts).ok()
}

/// Returns the order of the bits, by bit 8 of the flags.
fn order_of(flags: u8) -> BitOrder
    ensures { result
        ≡ (if flags / 8 % 2 == 1 then MostSignificantFirst else LeastSignificantFirst) }
{
    if flags / 8 % 2 == 1 {
        BitOrder::MostSignificantFirst
    } else {
        BitOrder::LeastSignificantFirst
    }
}

/// Returns the length of a line, or 0 for a layout without lines.
fn column_of(bytes: &[u8]) -> u8
    ensures { result ≡ slice_index bytes.now 514 }
{
    if bytes.len() <= 514 {
        return 0;
    }
    bytes[514]
}

/// Returns the bytes after the length of a line.
fn separator_of(bytes: &[u8]) -> &[u8]
    ensures { result.now ≡ drop 515 bytes.now }
{
    if bytes.len() <= 515 {
        return b"";
    }
    &bytes[515..]
}
