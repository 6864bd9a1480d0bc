ghost use Rattle.std.specs.Prelude.{◌≡◌, ◌≢◌, map, string_bytes, Some, None};
ghost use Rattle.sw_tool.specs.Command.{command_in};
ghost use Rattle.sw_tool.specs.Nests.{blame_of};
ghost use Rattle.sw_tool.specs.Run.{IsRun};
ghost use Rattle.sw_tool.specs.declared.command.Profile.{Profile};
ghost use Rattle.sw_tool.specs.declared.command.Command.TheVariants.{Recode};

use crate::command::{Command, command_of};
use crate::outcome::Outcome;
use crate::profile::{check, recode, schema};
use crate::report::report;
use crate::sink::Sink;
use crate::source::Source;
use crate::status::Status;
use std::alloc::Global;

/// Does what the words command, and answers how it ended.
///
/// For `recode P` it checks, in this order, the words and the nest of the profile, reads the source to
/// its end, recodes what came through the nest, and writes the new text and a line feed to the sink.
/// Where the nest isn't sound nothing is read. For `check P` it writes the grade of the nest, and for `schema P`
/// the schema of what the nest writes, sound or not. The notes gain the outcome's line, none where the output is
/// written whole and nothing was passed over.
pub fn run<S: Source, K: Sink, N: Sink>(
    alloc: Global,
    words: &[String],
    source: &mut S,
    sink: &mut K,
    notes: &mut N,
) -> Status
    ensures run { IsRun (record {
      words = map (λ w. string_bytes w) words.now;
      status = result;
      source = record { old = S.left source.old; new = S.left source.new; before = S.faults source.old; after = S.faults source.new };
      sink = record { old = K.taken sink.old; new = K.taken sink.new; before = K.faults sink.old; after = K.faults sink.new };
      notes = record { old = N.taken notes.old; new = N.taken notes.new; before = N.faults notes.old; after = N.faults notes.new };
    }) }
    // Where the words are no command, source and sink aren't touched.
    ensures untouched { command_in (map (λ w. string_bytes w) words.now) ≡ None → (source.new ≡ source.old) × (sink.new ≡ sink.old) }
    // Where the nest of the profile isn't sound, neither are they.
    ensures unread { (p : Profile) → command_in (map (λ w. string_bytes w) words.now) ≡ Some (Recode p) → blame_of p ≢ None → (source.new ≡ source.old) × (sink.new ≡ sink.old) }
{
    let outcome = match command_of(words) {
        None => Outcome::Usage,
        Some(Command::Recode(profile)) => recode(alloc, profile, source, sink),
        Some(Command::Check(profile)) => check(alloc, profile, sink),
        Some(Command::Schema(profile)) => schema(alloc, profile, sink),
    };
    report(notes, &outcome)
}
