//! What is told of a row, and how it is printed.

use crate::names::{error_name, grade_name, kind_name, reason_name, rule_name};
use std::fmt;
use std::str::from_utf8;
use sw_check::grade::Grade;
use sw_check::rule::Rule;
use sw_core::RecodeError;
use sw_tree::fail::{DeError, Refusal};

#[derive(Drop)]
pub(crate) enum Answer {
    /// The JSON text of the value that was read.
    Text(Vec<u8>),
    /// Why there is none.
    Fails(RecodeError),
    /// What a store keeps of the value isn't what recoding gave.
    Differs,
    /// How faithful the nest is.
    Sound(Grade),
    /// The rule that the nest fails, and the path of the part at which it does.
    Blamed(Rule, String),
    Memory,
    NoSuchNest,
}

impl fmt::Display for Answer {
    fn fmt<W: fmt::Write>(&self, f: &mut fmt::Formatter<W>) -> fmt::Result {
        match self {
            Answer::Text(bytes) => f.write_str(from_utf8(bytes.as_slice()).unwrap_or("no text")),
            Answer::Fails(error) => write_failure(f, *error),
            Answer::Differs => f.write_str("differs"),
            Answer::Sound(grade) => f.write_str(grade_name(*grade)),
            Answer::Blamed(rule, path) => write!(f, "blamed {} at {path}", rule_name(*rule)),
            Answer::Memory => f.write_str("memory"),
            Answer::NoSuchNest => f.write_str("no such nest"),
        }
    }
}

fn write_failure<W: fmt::Write>(f: &mut fmt::Formatter<W>, error: RecodeError) -> fmt::Result {
    match error {
        RecodeError::Syntax => f.write_str("syntax"),
        RecodeError::NotWhole { at } => write!(f, "not whole at byte {at}"),
        RecodeError::TooDeep { at } => write!(f, "too deep at byte {at}"),
        RecodeError::Refused(refusal) => write_refusal(f, refusal),
        RecodeError::Unwritable(reason) => write!(f, "unwritable {}", reason_name(reason)),
        RecodeError::Memory => f.write_str("memory"),
    }
}

/// The error with what it holds, and the number of the node.
fn write_refusal<W: fmt::Write>(f: &mut fmt::Formatter<W>, refusal: Refusal) -> fmt::Result {
    let name = error_name(refusal.error.kind());
    write!(f, "refused {name}")?;
    match refusal.error {
        DeError::InvalidType(kind) => write!(f, " {}", kind_name(kind))?,
        DeError::MissingField(number) => write!(f, " {number}")?,
        DeError::InvalidLength(count) => write!(f, " {count}")?,
        DeError::NoVariant(refused) => {
            for kind in refused {
                if let Some(kind) = kind {
                    write!(f, " {}", error_name(kind))?;
                }
            }
        }
        _ => {}
    }
    write!(f, " at node {}", refusal.place)
}
