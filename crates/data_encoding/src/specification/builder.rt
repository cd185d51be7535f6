//! The construction of an encoding from a specification. It gives the bytes their meanings one
//! after another.

ghost use Rattle.std.specs.Prelude.{◌≡◌, ◌/◌, ◌%◌, ◌^◌, ◌==◌, ◌||◌, ◌<◌, [], length, replicate, if◌then◌else◌, is_none, IfOk, IfErr, IfSome, IsTrue, Ok, Err, Some, None};
ghost use Rattle.std.specs.List.{concat};
ghost use Rattle.data_encoding_meaning.specs.text.Base.{IsWidth};
ghost use Rattle.data_encoding_meaning.specs.specification.Fields.{Fields, base_of, base_by, judgements, meanings_of, width_of, wraps};
ghost use Rattle.data_encoding.specs.PlainTables.{order_by, padding_by};
ghost use Rattle.data_encoding.specs.Specification.{fields_of_parts};

use crate::encoding::plain_encoding::PlainFields;
use crate::encoding::{BitOrder, Encoding, INVALID, copied};
use crate::specification::borrowed_specification::SpecificationParts;
use crate::specification::meanings::{Meanings, Refusal, wraps};
use data_encoding_kernel::symbol_table::SymbolTable;
use data_encoding_kernel::value_table::ValueTable;

// The numbers of symbols, in order of their bits; a single symbol has none.
const SIZES: [usize; 7] = [1, 2, 4, 8, 16, 32, 64];

/// Returns the number of bits of a symbol if there are `count` symbols, or `None` for a single one.
fn width_of(count: usize) -> Option<usize>
    ensures { result ≡ width_of count }
{
    SIZES.iter().position(|size| *size == count)
}

/// Returns the number of bits of a symbol if there are `count` symbols and it is not 0, or the
/// refusal.
fn bits_of_symbol(count: usize) -> Result<u8, Refusal>
    ensures width { IfOk result (λ width. width_of count ≡ Some width) }
    ensures bits { IfOk result IsWidth }
    ensures count { IfOk result (λ width. 2 ^ width ≡ count) }
    ensures refused { IfErr result
        (λ refusal. (fields : Fields) → base_by (width_of count) fields ≡ Err refusal) }
{
    match width_of(count) {
        None | Some(0) => Err(Refusal::BadSize),
        Some(width) => Ok(width as u8),
    }
}

/// Returns the symbols, repeated until the table is full.
// The filled prefix is appended to itself.
fn repeated(symbols: &[u8], width: u8) -> [u8; 256]
    requires width { IsWidth width }
    requires count { length symbols.now ≡ 2 ^ width }
    ensures { result ≡ concat (replicate (256 / 2 ^ width) symbols.now) }
{
    let mut table = [0; 256];
    let mut filled = symbols.len();
    table[..filled].copy_from_slice(symbols);
    for _ in width..8 {
        table.copy_within(..filled, filled);
        filled *= 2;
    }
    table
}

/// Returns `true` if trailing bits are checked: always, if eight bits are whole symbols.
fn checks_trailing_bits(check: bool, width: u8) -> bool
    requires { 0 < width }
    ensures { result ≡ (check || (8 % width == 0)) }
{
    check || 8 % width == 0
}

/// Returns `true` if texts may be concatenated: always, without padding.
fn concatenates(concatenate: bool, padding: Option<char>) -> bool
    ensures { result ≡ (concatenate || is_none padding) }
{
    concatenate || padding.is_none()
}

/// Returns the padding character, or 128.
fn padding_entry(padding: Option<char>) -> u8
    requires { IfSome padding (λ character. character < 128) }
    ensures { padding_by result ≡ padding }
{
    match padding {
        Some(character) => character as u32 as u8,
        None => INVALID,
    }
}

/// Returns `true` if the bit of weight 1 comes first.
fn is_least_first(order: BitOrder) -> bool
    ensures { order_by result ≡ order }
{
    match order {
        BitOrder::LeastSignificantFirst => true,
        BitOrder::MostSignificantFirst => false,
    }
}

/// Returns the length of a line and the separator, or 0 and nothing without lines.
fn lines_of(column: usize, separator: &[u8]) -> (u8, &[u8])
    requires column { IsTrue (wraps column separator.now) → column < 256 }
    requires separator { IsTrue (wraps column separator.now) → length separator.now < 256 }
    ensures column { result.0 ≡ (if wraps column separator.now then column else 0) }
    ensures separator { result.1.now ≡ (if wraps column separator.now then separator.now else []) }
    ensures short { length result.1.now < 256 }
{
    if wraps(column, separator) {
        return (column as u8, separator);
    }
    (0, b"")
}

/// Returns the meanings of the bytes after all checks, or the first refusal.
fn judge(parts: &SpecificationParts<'_>, width: u8) -> Result<Meanings, Refusal>
    requires width { IsWidth width }
    requires count { 2 ^ width ≡ length parts.now.symbols.now }
    ensures meanings { IfOk result (λ meanings.
        meanings_of (judgements width (fields_of_parts parts.now)) ≡ Ok meanings) }
    ensures refused { IfErr result (λ refusal.
        meanings_of (judgements width (fields_of_parts parts.now)) ≡ Err refusal) }
{
    let mut meanings = Meanings::new();
    meanings.define_symbols(parts.symbols)?;
    meanings.define_padding(width, parts.padding)?;
    meanings.define_ignored(parts.ignore)?;
    meanings.define_wrapping(width, parts.wrap_width, parts.wrap_separator)?;
    meanings.translate(parts.translate_from, parts.translate_to)?;
    Ok(meanings)
}

/// Returns the encoding of a valid specification.
fn assembled(parts: &SpecificationParts<'_>, width: u8, meanings: Meanings) -> Encoding
    requires sized { width_of (length parts.now.symbols.now) ≡ Some width }
    requires width { IsWidth width }
    requires count { 2 ^ width ≡ length parts.now.symbols.now }
    requires judged { meanings_of (judgements width (fields_of_parts parts.now)) ≡ Ok meanings }
    ensures { base_of (fields_of_parts parts.now) ≡ Ok result }
{
    let ignores = meanings.ignores_some();
    let (column, separator) = lines_of(parts.wrap_width, parts.wrap_separator);
    Encoding {
        fields: PlainFields {
            symbols: SymbolTable::new(repeated(parts.symbols, width)),
            values: ValueTable::new(meanings.into_values(), 1 << width),
            width,
            column,
            padding: padding_entry(parts.padding),
            least_significant_first: is_least_first(parts.bit_order),
            checks_trailing_bits: checks_trailing_bits(parts.check_trailing_bits, width),
            concatenates: concatenates(parts.concatenate, parts.padding),
            ignores,
        },
        separator: copied(separator),
    }
}

/// Returns the encoding that is built from the fields, or the first refusal.
pub(crate) fn build(parts: &SpecificationParts<'_>) -> Result<Encoding, Refusal>
    ensures is_built { IfOk result (λ base. base_of (fields_of_parts parts.now) ≡ Ok base) }
    ensures refused { IfErr result
        (λ refusal. base_of (fields_of_parts parts.now) ≡ Err refusal) }
{
    let width = bits_of_symbol(parts.symbols.len())?;
    let meanings = judge(parts, width)?;
    Ok(assembled(parts, width, meanings))
}
