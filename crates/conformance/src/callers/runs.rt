//! Runs without ignored bytes, and the symbols of a group.

ghost use Rattle.std.specs.Prelude.{◌≡◌, ◌≤◌, true, length, is_some, None, Some, Ok, IfErr, IfSome, IsTrue, OnOk};
ghost use Rattle.data_encoding.specs.Fault.{fault_of};
ghost use Rattle.data_encoding.specs.Layers.{IgnoresNone, TellsSymbols};
ghost use Rattle.data_encoding.specs.Lengths.{decoded_len, is_valid_count, is_valid_length};
ghost use Rattle.data_encoding.specs.Partial.{ignoring_nothing, partial_of};

use super::keys::is_no_symbol;
use data_encoding::laws::{run_told, symbols_told};
use data_encoding::{DECODE_LIMIT, DecodePartial, Encoding};

/// Returns `true` if the encoding ignores no byte of the run.
fn ignores_none(encoding: &Encoding, run: &[u8]) -> bool
    ensures sound { IsTrue result → IgnoresNone encoding.now run.now }
    ensures complete { IgnoresNone encoding.now run.now → IsTrue result }
{
    run.iter()
        .all(|byte| !encoding.interpret_byte(*byte).is_ignored())
}

/// Decodes a run, if none of its bytes is ignored and `output` has the length that `decode_len`
/// returns.
///
/// If the run has a valid length, its fault and the numbers of bytes read and written are the same
/// as if ignored bytes were invalid.
pub fn decode_run(
    encoding: &Encoding,
    run: &[u8],
    output: &mut [u8],
) -> Option<Result<usize, DecodePartial>>
    ensures fault { is_valid_length encoding.now (length run.now) ≡ true
        → IfSome result (λ decoded. IfErr decoded
        (λ partial. partial_of (ignoring_nothing encoding.now) run.now ≡ Some partial)) }
    ensures sound { is_valid_length encoding.now (length run.now) ≡ true
        → IfSome result (λ decoded. OnOk decoded
        (fault_of (ignoring_nothing encoding.now) run.now ≡ None)) }
    ensures some { IgnoresNone encoding.now run.now → length run.now ≤ DECODE_LIMIT
        → decoded_len encoding.now (length run.now) ≡ Ok (length output.old)
        → IsTrue (is_some result) }
{
    run_told();
    if run.len() > DECODE_LIMIT {
        return None;
    }
    if encoding.decode_len(run.len()) != Ok(output.len()) {
        return None;
    }
    if !ignores_none(encoding, run) {
        return None;
    }
    Some(encoding.decode_mut(run, output))
}

/// Returns the index of the first byte that is not a symbol.
///
/// A group of a valid number of bytes has an invalid symbol there. If each byte is a symbol, they
/// mean bytes, whatever the trailing bits are.
pub fn first_no_symbol(encoding: &Encoding, group: &[u8]) -> Option<usize>
    ensures { is_valid_count encoding.now.width (length group.now) ≡ true
        → TellsSymbols encoding.now group.now result }
{
    let _width = encoding.bit_width();
    symbols_told();
    group.iter().position(|byte| is_no_symbol(encoding, *byte))
}
