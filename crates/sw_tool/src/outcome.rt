use crate::status::Status;
use sw_check::rule::Rule;
use sw_tree::fail::{DeKind, SerError};

/// What became of a command, with all that its line on the notes says.
#[derive(Drop)]
pub enum Outcome {
    /// The output is written whole; with the text of the log of what was passed over, empty where nothing was.
    Done(String),
    /// The words are no command.
    Usage,
    /// The input is no text of the wire's grammar.
    Syntax,
    /// The number at that offset isn't a whole number from -2^127 to 2^128 - 1.
    NotWhole(usize),
    /// The node at that offset opens a 129th level.
    TooDeep(usize),
    /// The nest refuses the input's tree, by an error of that kind, at the node of that path.
    Refused(DeKind, String),
    /// The nest doesn't write the value.
    Unwritable(SerError),
    /// The nest isn't sound: that rule fails at the subexpression of that path.
    Blamed(Rule, String),
    /// The source failed.
    ReadFault,
    /// The sink failed.
    WriteFault,
    /// Memory was wanting.
    Memory,
    /// The source gave as many bytes as are too many.
    TooLong,
}

impl Outcome {
    ghost use Rattle.std.specs.Prelude.{◌≡◌};
    ghost use Rattle.sw_tool.specs.Outcome.{status_of};

    /// The status that the program ends with.
    pub fn status(&self) -> Status
        ensures { result ≡ status_of self.now }
    {
        match self {
            Outcome::Done(_) => Status::Ok,
            Outcome::Usage => Status::Usage,
            Outcome::Syntax => Status::Syntax,
            Outcome::NotWhole(_) => Status::NotWhole,
            Outcome::TooDeep(_) => Status::TooDeep,
            Outcome::Refused(_, _) => Status::Refused,
            Outcome::Unwritable(_) => Status::Unwritable,
            Outcome::Blamed(_, _) => Status::Blamed,
            Outcome::ReadFault => Status::ReadFault,
            Outcome::WriteFault => Status::WriteFault,
            Outcome::Memory => Status::Memory,
            Outcome::TooLong => Status::TooLong,
        }
    }
}
