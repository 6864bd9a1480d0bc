use crate::mode::Kind;
use std::alloc::{AllocError, AllocFailed};

/// The name of a refusal, numbered from 1.
#[derive(Clone, Copy, PartialEq, Eq)]
pub enum DeKind {
    InvalidType = 1,
    InvalidValue = 2,
    InvalidLength = 3,
    MissingField = 4,
    UnknownField = 5,
    UnknownVariant = 6,
    DuplicateKey = 7,
    DuplicateValue = 8,
    DuplicateField = 9,
    NoVariant = 10,
    Text = 11,
    Convert = 12,
}

/// Why a tree isn't read.
#[derive(Clone, Copy, PartialEq, Eq)]
pub enum DeError {
    /// The node has this kind, which isn't taken there.
    InvalidType(Kind),
    /// The node has the right kind, and no value of the type.
    InvalidValue,
    /// There are so many items, bytes or entries, which isn't the number that is taken.
    InvalidLength(usize),
    /// The required field of that number, in the order of their declaration, isn't there.
    MissingField(u16),
    /// A name that isn't known, where names aren't passed over.
    UnknownField,
    /// A tagged value has an unknown name.
    UnknownVariant,
    /// An equal key came before.
    DuplicateKey,
    /// An equal item came before.
    DuplicateValue,
    /// A known name came before.
    DuplicateField,
    /// None of the forms is there; the refusals of the forms in order.
    NoVariant([Option<DeKind>; 4]),
    /// A text that doesn't parse or decode.
    Text,
    /// A conversion refused the value.
    Convert,
}

impl DeError {
    ghost use Rattle.std.specs.Prelude.{◌≡◌};
    ghost use Rattle.sw_tree.specs.Fail.{kind_of_error};

    /// The error's name, without what it holds.
    pub fn kind(self) -> DeKind
        ensures { result ≡ kind_of_error self }
    {
        match self {
            DeError::InvalidType(_) => DeKind::InvalidType,
            DeError::InvalidValue => DeKind::InvalidValue,
            DeError::InvalidLength(_) => DeKind::InvalidLength,
            DeError::MissingField(_) => DeKind::MissingField,
            DeError::UnknownField => DeKind::UnknownField,
            DeError::UnknownVariant => DeKind::UnknownVariant,
            DeError::DuplicateKey => DeKind::DuplicateKey,
            DeError::DuplicateValue => DeKind::DuplicateValue,
            DeError::DuplicateField => DeKind::DuplicateField,
            DeError::NoVariant(_) => DeKind::NoVariant,
            DeError::Text => DeKind::Text,
            DeError::Convert => DeKind::Convert,
        }
    }
}

/// Why a tree isn't read, and the place of the node that is refused.
#[derive(Clone, Copy, PartialEq, Eq)]
pub struct Refusal {
    pub error: DeError,
    pub place: usize,
}

/// How reading a tree fails.
#[derive(Clone, Copy, PartialEq, Eq)]
pub enum DeFail {
    Refused(Refusal),
    Memory,
}

impl From<AllocError> for DeFail {
    ghost use Rattle.std.specs.Prelude.{◌≡◌};
    ghost use Rattle.sw_tree.specs.declared.fail.DeFail.TheVariants.{Memory};

    ghost from_gives = { λ _ e. e ≡ Memory };

    fn from(_: AllocError) -> DeFail {
        DeFail::Memory
    }
}

impl<T: Drop> From<AllocFailed<T>> for DeFail {
    ghost use Rattle.std.specs.Prelude.{◌≡◌};
    ghost use Rattle.sw_tree.specs.declared.fail.DeFail.TheVariants.{Memory};

    ghost from_gives = { λ _ e. e ≡ Memory };

    fn from(_: AllocFailed<T>) -> DeFail {
        DeFail::Memory
    }
}

/// Why a value isn't written, numbered from 1.
#[derive(Clone, Copy, PartialEq, Eq)]
pub enum SerError {
    /// A list or map would have more than 128 levels.
    TooDeep = 1,
    /// The value is beyond its format.
    OutOfRange = 2,
    /// A conversion refused the value.
    Convert = 3,
    /// A key has no image on the wire.
    Key = 4,
}

/// How writing a value fails.
#[derive(Clone, Copy, PartialEq, Eq)]
pub enum SerFail {
    Unwritable(SerError),
    Memory,
}

impl From<AllocError> for SerFail {
    ghost use Rattle.std.specs.Prelude.{◌≡◌};
    ghost use Rattle.sw_tree.specs.declared.fail.SerFail.TheVariants.{Memory};

    ghost from_gives = { λ _ e. e ≡ Memory };

    fn from(_: AllocError) -> SerFail {
        SerFail::Memory
    }
}

/// How a wire fails to read bytes; `at` is the offset of a node's first byte.
#[derive(Clone, Copy, PartialEq, Eq)]
pub enum WireError {
    /// The bytes are no text of the wire's grammar.
    Syntax,
    /// A number that isn't a whole number from -2^127 to 2^128 - 1.
    NotWhole { at: usize },
    /// A node that opens a 129th level.
    TooDeep { at: usize },
    Memory,
}

/// How a wire fails to print a tree.
#[derive(Clone, Copy, PartialEq, Eq)]
pub enum PrintError {
    /// A key has no image on the wire.
    Key,
    Memory,
}

impl From<AllocError> for PrintError {
    ghost use Rattle.std.specs.Prelude.{◌≡◌};
    ghost use Rattle.sw_tree.specs.declared.fail.PrintError.TheVariants.{Memory};

    ghost from_gives = { λ _ e. e ≡ Memory };

    fn from(_: AllocError) -> PrintError {
        PrintError::Memory
    }
}

impl<T: Drop> From<AllocFailed<T>> for PrintError {
    ghost use Rattle.std.specs.Prelude.{◌≡◌};
    ghost use Rattle.sw_tree.specs.declared.fail.PrintError.TheVariants.{Memory};

    ghost from_gives = { λ _ e. e ≡ Memory };

    fn from(_: AllocFailed<T>) -> PrintError {
        PrintError::Memory
    }
}

/// A list or map would have more than 128 levels.
#[derive(Clone, Copy, PartialEq, Eq)]
pub struct TooDeep;
