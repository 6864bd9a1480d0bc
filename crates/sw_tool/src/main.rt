//! The program: reads JSON from standard input and writes it anew through a nest of adapters.
#![tactic(auto)]

mod calls;
mod command;
mod input;
mod log;
mod memory;
mod names;
mod nest;
mod nests;
mod outcome;
mod output;
mod path;
mod profile;
mod report;
mod run;
mod settings;
mod settings_schema;
mod sink;
mod source;
mod standard;
mod status;
#[cfg(test)]
mod tests;

use run::run;
use standard::{StdNotes, StdSink, StdSource};
use std::env;
use std::env::Env;
use std::io::ErrorKind;
use std::process::ExitCode;

/// The exit code where the machine doesn't give the words, or memory for them is wanting.
const NO_WORDS: u8 = 15;

/// Runs the words after the program's name over the standard streams, and ends with the status.
fn main(rt: HostRuntime) -> ExitCode {
    let Some(words) = words_after_name(&rt) else {
        return ExitCode::from(NO_WORDS);
    };
    let mut source = StdSource::new(rt.stdin());
    let mut sink = StdSink::new(rt.stdout());
    let mut notes = StdNotes::new(rt.stderr());
    let status = run(
        rt.alloc(),
        words.as_slice(),
        &mut source,
        &mut sink,
        &mut notes,
    );
    ExitCode::from(status as u8)
}

/// The words after the program's name, if the machine gives them and there is memory for them. Where one
/// isn't UTF-8 there are no words, which is no command either.
fn words_after_name(rt: &(impl Env + AllocGlobal)) -> Option<Vec<String>> {
    match env::args(rt) {
        Ok(all) => all.skip(1).collect(rt.alloc()).ok(),
        Err(error) => {
            if error.kind() == ErrorKind::InvalidData {
                Some(Vec::new(rt.alloc()))
            } else {
                None
            }
        }
    }
}
