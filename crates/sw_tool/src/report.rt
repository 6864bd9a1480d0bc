ghost use Rattle.std.specs.Prelude.{◌≡◌, [], ◌∷◌, map, codes, decimal};
ghost use Rattle.sw_tool.specs.Log.{skipped_line};
ghost use Rattle.sw_tool.specs.Outcome.{status_of, line_of};
ghost use Rattle.sw_tool.specs.Output.{Notes, line};

use crate::names::{kind_name, reason_name, rule_name};
use crate::outcome::Outcome;
use crate::output::write_line;
use crate::sink::Sink;
use crate::status::Status;
use itoa::Buffer;

/// Writes the outcome's line to the notes, and answers its status, which a fault of the notes
/// doesn't change.
pub fn report<N: Sink>(notes: &mut N, outcome: &Outcome) -> Status
    ensures status { result ≡ status_of outcome.now }
    ensures noted { Notes
        (record { old = N.taken notes.old; new = N.taken notes.new; before = N.faults notes.old; after = N.faults notes.new })
        (line_of outcome.now) }
{
    note_outcome(notes, outcome);
    outcome.status()
}

/// Writes the outcome's line, in pieces that take no memory.
fn note_outcome<N: Sink>(notes: &mut N, outcome: &Outcome)
    ensures { Notes
        (record { old = N.taken notes.old; new = N.taken notes.new; before = N.faults notes.old; after = N.faults notes.new })
        (line_of outcome.now) }
{
    match outcome {
        Outcome::Done(log) => note_log(notes, log.as_str()),
        Outcome::Usage => note_word(notes, "usage: recode P, check P, schema P or demo N"),
        Outcome::Syntax => note_word(notes, "syntax"),
        Outcome::NotWhole(at) => note_offset(notes, "not whole at ", *at),
        Outcome::TooDeep(at) => note_offset(notes, "too deep at ", *at),
        Outcome::Refused(kind, path) => note_at(notes, "refused ", kind_name(*kind), path.as_str()),
        Outcome::Unwritable(reason) => note_pair(notes, "unwritable ", reason_name(*reason)),
        Outcome::Blamed(rule, path) => note_at(notes, "blamed ", rule_name(*rule), path.as_str()),
        Outcome::ReadFault => note_word(notes, "read fault"),
        Outcome::WriteFault => note_word(notes, "write fault"),
        Outcome::Memory => note_word(notes, "memory"),
        Outcome::TooLong => note_word(notes, "too long"),
    }
}

/// Writes the line of a log by its text; none where the text is empty.
fn note_log<N: Sink>(notes: &mut N, log: &str)
    ensures { Notes
        (record { old = N.taken notes.old; new = N.taken notes.new; before = N.faults notes.old; after = N.faults notes.new })
        (skipped_line log.now) }
{
    if !log.is_empty() {
        note_pair(notes, "skipped ", log);
    }
}

/// Writes the line of one word.
fn note_word<N: Sink>(notes: &mut N, word: &str)
    ensures { Notes
        (record { old = N.taken notes.old; new = N.taken notes.new; before = N.faults notes.old; after = N.faults notes.new })
        (line (word.now ∷ [])) }
{
    note(notes, &[word.as_bytes()]);
}

/// Writes the line of a fault of the input and its offset.
fn note_offset<N: Sink>(notes: &mut N, fault: &str, at: usize)
    ensures { Notes
        (record { old = N.taken notes.old; new = N.taken notes.new; before = N.faults notes.old; after = N.faults notes.new })
        (line (fault.now ∷ decimal at ∷ [])) }
{
    let mut digits = Buffer::new();
    note_pair(notes, fault, digits.format(at));
}

/// Writes the line of two words.
fn note_pair<'a, N: Sink>(notes: &mut N, first: &'a str, second: &'a str)
    ensures { Notes
        (record { old = N.taken notes.old; new = N.taken notes.new; before = N.faults notes.old; after = N.faults notes.new })
        (line (first.now ∷ second.now ∷ [])) }
{
    note(notes, &[first.as_bytes(), second.as_bytes()]);
}

/// Writes the line of what is refused or blamed, by its name and its path.
fn note_at<'a, N: Sink>(notes: &mut N, verb: &'a str, name: &'a str, path: &'a str)
    ensures { Notes
        (record { old = N.taken notes.old; new = N.taken notes.new; before = N.faults notes.old; after = N.faults notes.new })
        (line (verb.now ∷ name.now ∷ codes " at " ∷ path.now ∷ [])) }
{
    let at: &'a str = " at ";
    note(
        notes,
        &[
            verb.as_bytes(),
            name.as_bytes(),
            at.as_bytes(),
            path.as_bytes(),
        ],
    );
}

/// Writes a line. After a fault of the notes a front of it is written.
fn note<N: Sink>(notes: &mut N, pieces: &[&[u8]])
    ensures { Notes
        (record { old = N.taken notes.old; new = N.taken notes.new; before = N.faults notes.old; after = N.faults notes.new })
        (line (map (λ p. p.now) pieces.now)) }
{
    let _ = write_line(notes, pieces);
}
