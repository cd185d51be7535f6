//! `basecode`: encodes standard input as text over an alphabet of symbols, and decodes such text.
//!
//! `basecode encode NAME` reads data and writes its text. `basecode decode NAME` reads a text and
//! writes the data that it means. `NAME` is one of the predefined encodings of `data_encoding`, in
//! upper case, such as `BASE64_MIME`. `basecode list` writes these names, each on a line. `basecode
//! canonical NAME` writes `true` if no two different texts mean the same data, and `false`
//! otherwise. The exit status is 0 on success, 1 if the input has a fault or is too long, 2 if the
//! usage is wrong, 3 if a read, a write or a flush failed, and 4 if memory ran out for the
//! arguments.
#![tactic(auto)]

mod arguments;
mod command;
mod fault;
mod proved_callers;
mod run;

use arguments::arguments_of;
pub use encoding_stream::Watch;
use fault::print_fault;
pub use run::run;
use std::process::ExitCode;

// The exit status if memory runs out for the arguments.
const OUT_OF_MEMORY: u8 = 4;

fn main(rt: HostRuntime) -> ExitCode {
    let mut faults = rt.stderr();
    let Ok(words) = arguments_of(&rt) else {
        let _ = print_fault(&mut faults, &"out of memory");
        return ExitCode::from(OUT_OF_MEMORY);
    };
    let mut reader = Watch::new(rt.reader());
    let mut writer = Watch::new(rt.stdout());
    ExitCode::from(run(rt.alloc(), &words, &mut reader, &mut writer, &mut faults))
}
