//! The request that the arguments of a command line make.

ghost use Rattle.std.specs.Prelude.{◌≡◌, ◌↔◌, [], ◌∷◌, IfErr, IfOk, IsErr, None};
ghost use Rattle.basecode.specs.Arguments.{AreRequest, Asks, IsWrong, ask_of, request_of, texts};

use crate::fault::WordFault;
use data_encoding::{Encoding, predefined};

/// A conversion.
#[derive(Clone, Copy)]
pub enum Verb {
    /// Encode the input.
    Encode,

    /// Decode the input.
    Decode,
}

/// The request of a verb.
#[derive(Clone, Copy)]
pub enum Ask {
    /// Convert the input.
    Conversion(Verb),

    /// Report if the encoding is canonical.
    Question,
}

/// A request about an encoding.
#[derive(Drop)]
pub struct Task {
    /// The request.
    pub ask: Ask,

    /// The encoding.
    pub encoding: Encoding,
}

/// The request of a command line.
#[derive(Drop)]
pub enum Request {
    /// List the names of the encodings.
    List,

    /// Do a task with an encoding.
    Of(Task),
}

/// Returns the request of the verb `word`, or `None` if it is not a verb.
fn ask_named(word: &str) -> Option<Ask>
    ensures { result ≡ ask_of word.now }
{
    match word {
        "encode" => Some(Ask::Conversion(Verb::Encode)),
        "decode" => Some(Ask::Conversion(Verb::Decode)),
        "canonical" => Some(Ask::Question),
        _ => None,
    }
}

/// Returns the request that the arguments `words` make, or their fault.
///
/// The number of the arguments and the first of them are checked before the name.
pub fn request_named(words: &[String]) -> Result<Request, WordFault<'_>>
    ensures asked { IfOk result (AreRequest (texts words.now)) }
    ensures wrong { IsErr result ↔ (request_of (texts words.now) ≡ None) }
    ensures fault { IfErr result (IsWrong (texts words.now)) }
{
    match words {
        [word] if word.as_str() == "list" => Ok(Request::List),
        [word, name] => match task_named(word.as_str(), name.as_str()) {
            Ok(task) => Ok(Request::Of(task)),
            Err(fault) => Err(fault),
        },
        _ => Err(WordFault::Usage),
    }
}

/// Returns the request that two arguments make, or their fault.
fn task_named<'a>(word: &str, name: &'a str) -> Result<Task, WordFault<'a>>
    ensures asked { IfOk result (λ task. Asks (word.now ∷ name.now ∷ []) task.ask task.encoding) }
    ensures wrong { IsErr result ↔ (request_of (word.now ∷ name.now ∷ []) ≡ None) }
    ensures fault { IfErr result (IsWrong (word.now ∷ name.now ∷ [])) }
{
    let Some(ask) = ask_named(word) else {
        return Err(WordFault::Usage);
    };
    match predefined(name) {
        Some(encoding) => Ok(Task {
            ask,
            encoding: encoding.encoding(),
        }),
        None => Err(WordFault::UnknownName(name)),
    }
}
