//! A function with its own contract, proved from the contracts of its calls.

ghost use Rattle.std.specs.Prelude.{◌≡◌, ◌++◌, ◌≤◌, length, string_bytes, IfOk};
ghost use Rattle.data_encoding.specs.Text.{text_of};

use data_encoding::{ENCODE_LIMIT, Encoding};
use std::alloc::{AllocError, Global};

/// Returns a line with the name and the text of the data. Returns an error only if memory runs out.
pub fn labelled(
    alloc: Global,
    encoding: &Encoding,
    name: &str,
    data: &[u8],
) -> Result<String, AllocError>
    requires limit { length data.now ≤ ENCODE_LIMIT }
    ensures line { IfOk result (λ line. string_bytes line
        ≡ name.now ++ text_of encoding.now data.now) }
{
    let mut line = String::from_str(alloc, name)?;
    encoding.encode_append(data, &mut line)?;
    Ok(line)
}
