//! Encodings that are stored as bytes, and texts that are appended.

ghost use Rattle.std.specs.Prelude.{◌≡◌, ◌↔◌, ◌≤◌, ℕ, List, ◌++◌, length, ⊤, Some, IfErr, IsOk, IsTrue, OnErr, OnOk};
ghost use Rattle.std.specs.Borrow.{follows_so, sem};
ghost use Rattle.std.specs.contracts.alloc.Global.{the_row as global_row};
ghost use Rattle.std.specs.contracts.impls.GlobalAllocator.TheImpl.{ghosts};
ghost use Rattle.std.specs.contracts.string.String.{the_row as string_row};
ghost use Rattle.std.specs.String.{string_bytes};
ghost use Rattle.data_encoding.specs.Encoder.{HasTaken, base_of_encoder, capacity, name_handed_back, output_name};
ghost use Rattle.data_encoding.specs.OneLayout.{IsLayout};
ghost use Rattle.data_encoding.specs.Text.{text_of};

use data_encoding::laws::one_layout;
use data_encoding::{ENCODE_LIMIT, Encoder, Encodes, Encoding};
use std::alloc::AllocError;
use std::fmt;
use std::fmt::Display;

/// Returns the encoding, built again from its layout. This always succeeds.
pub fn restored(encoding: &Encoding) -> Option<Encoding>
    ensures { result ≡ Some encoding.now }
{
    let _width = encoding.bit_width();
    one_layout();
    Encoding::internal_new(encoding.internal_implementation().as_slice())
}

/// Returns `true` if the layouts of two encodings are equal. This is so if and only if the
/// encodings are.
pub fn is_stored_alike(encoding: &Encoding, other: &Encoding) -> bool
    ensures { IsTrue result ↔ (encoding.now ≡ other.now) }
{
    let _width = encoding.bit_width();
    let _other_width = other.bit_width();
    one_layout();
    encoding.internal_implementation().as_slice() == other.internal_implementation().as_slice()
}

/// Returns `true` if the bytes are the layout of an encoding. This is so if and only if they keep
/// the rules of layouts.
pub fn stands_for_some(bytes: &[u8]) -> bool
    ensures { IsTrue result ↔ IsLayout bytes.now }
{
    one_layout();
    Encoding::internal_new(bytes).is_some()
}

/// Displays empty data: nothing is written, and no writer fails.
pub fn show_nothing<W: fmt::Write>(encoding: &Encoding, f: &mut fmt::Formatter<W>) -> fmt::Result
    ensures { IsOk result × (f.new ≡ f.old) }
{
    encoding.encode_display(b"").fmt(f)
}

/// Appends the text of `input` to `output`.
pub fn write_at_end(encoding: &Encoding, input: &[u8], output: &mut String) -> fmt::Result
    ensures { OnOk result (string_bytes output.new
        ≡ string_bytes output.old ++ text_of encoding.now input.now) }
{
    encoding.encode_write(input, output)
}

/// Appends `input`. If memory runs out, tries once more.
fn append_again(encoder: &mut Encoder, input: &[u8]) -> Result<(), AllocError>
    requires limit { length input.now ≤ ENCODE_LIMIT }
    ensures output { output_name encoder.new ≡ output_name encoder.old }
    ensures base { base_of_encoder encoder.new ≡ base_of_encoder encoder.old }
    ensures taken { OnOk result ((before bytes : List ℕ) → HasTaken encoder.old before bytes
        → HasTaken encoder.new before (bytes ++ input.now)) }
    ensures kept { OnErr result ((before bytes : List ℕ) → HasTaken encoder.old before bytes
        → HasTaken encoder.new before bytes) }
    ensures capacity { OnErr result (capacity encoder.new ≡ capacity encoder.old) }
{
    if encoder.append(input).is_ok() {
        return Ok(());
    }
    encoder.append(input)
}

/// Appends the text of data that comes in two pieces, and repeats each call that runs out of memory
/// once.
///
/// The text is the text of the joined pieces, even if a call was repeated. If a repeated call also
/// runs out of memory, the text of some blocks may have been appended.
pub fn encoded_at_second_try(
    encoding: &Encoding,
    one: &[u8],
    other: &[u8],
    output: &mut String,
) -> Result<(), AllocError>
    requires one { length one.now ≤ ENCODE_LIMIT }
    requires other { length other.now ≤ ENCODE_LIMIT }
    ensures { OnOk result (string_bytes output.new
        ≡ string_bytes output.old ++ text_of encoding.now (one.now ++ other.now)) }
{
    let mut encoder = encoding.new_encoder(output);
    if append_again(&mut encoder, one).is_err() || append_again(&mut encoder, other).is_err() {
        encoder.abandon();
        return Err(AllocError);
    }
    match encoder.finalize() {
        Ok(()) => Ok(()),
        Err(encoder) => match encoder.finalize() {
            Ok(()) => Ok(()),
            Err(encoder) => {
                encoder.abandon();
                Err(AllocError)
            }
        },
    }
}

/// Finalizes an encoder.
///
/// If memory runs out, the text is as the returned encoder leaves it, and its capacity is the same.
pub fn finalized<'a, E: Encodes>(encoder: Encoder<'a, E>) -> Result<(), Encoder<'a, E>>
    ensures* text { sem 𝓛 (follows_so (string_row global_row ghosts) (string_row global_row ghosts)
        (output_name encoder.entry) (name_handed_back result)
        (λ last now. OnErr result (now ≡ last)) (λ _. ⊤)) }
    ensures capacity { IfErr result (λ returned. capacity returned ≡ capacity encoder.entry) }
{
    encoder.finalize()
}
