use sw_tree::fail::{DeFail, PrintError, Refusal, SerError, SerFail, WireError};

/// Why bytes aren't recoded, numbered from 1 to 6 in this order.
#[derive(Clone, Copy, PartialEq, Eq)]
pub enum RecodeError {
    /// The bytes are no text of the wire's grammar.
    Syntax,
    /// The node at that offset is a number that isn't a whole number from -2^127 to 2^128 - 1.
    NotWhole { at: usize },
    /// The node at that offset opens a 129th level.
    TooDeep { at: usize },
    /// The adapter refuses the tree.
    Refused(Refusal),
    /// The adapter doesn't write the value. With a token never `Key`, which stands for a tree that the wire
    /// doesn't print.
    Unwritable(SerError),
    Memory,
}

impl From<WireError> for RecodeError {
    ghost use Rattle.std.specs.Prelude.{◌≡◌};
    ghost use Rattle.sw_core.specs.Recoding.{wire_error};

    ghost from_gives = { λ x e. e ≡ wire_error x };

    fn from(error: WireError) -> RecodeError {
        match error {
            WireError::Syntax => RecodeError::Syntax,
            WireError::NotWhole { at } => RecodeError::NotWhole { at },
            WireError::TooDeep { at } => RecodeError::TooDeep { at },
            WireError::Memory => RecodeError::Memory,
        }
    }
}

impl From<DeFail> for RecodeError {
    ghost use Rattle.std.specs.Prelude.{◌≡◌};
    ghost use Rattle.sw_core.specs.Recoding.{read_error};

    ghost from_gives = { λ x e. e ≡ read_error x };

    fn from(fail: DeFail) -> RecodeError {
        match fail {
            DeFail::Refused(refusal) => RecodeError::Refused(refusal),
            DeFail::Memory => RecodeError::Memory,
        }
    }
}

impl From<SerFail> for RecodeError {
    ghost use Rattle.std.specs.Prelude.{◌≡◌};
    ghost use Rattle.sw_core.specs.Recoding.{write_error};

    ghost from_gives = { λ x e. e ≡ write_error x };

    fn from(fail: SerFail) -> RecodeError {
        match fail {
            SerFail::Unwritable(error) => RecodeError::Unwritable(error),
            SerFail::Memory => RecodeError::Memory,
        }
    }
}

impl From<PrintError> for RecodeError {
    ghost use Rattle.std.specs.Prelude.{◌≡◌};
    ghost use Rattle.sw_core.specs.Recoding.{print_error};

    ghost from_gives = { λ x e. e ≡ print_error x };

    fn from(error: PrintError) -> RecodeError {
        match error {
            PrintError::Key => RecodeError::Unwritable(SerError::Key),
            PrintError::Memory => RecodeError::Memory,
        }
    }
}
