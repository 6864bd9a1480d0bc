use crate::grade::Grade;
use sw_tree::{Kinds, Mode, Place, WireKind};

/// In which modes a leaf stands: the four of JSON, and Compact.
#[derive(Clone, Copy, PartialEq, Eq)]
pub struct Claims {
    pub value: bool,
    pub buffered_value: bool,
    pub key: bool,
    pub buffered_key: bool,
    pub compact: bool,
}

impl Claims {
    ghost use Rattle.std.specs.Prelude.{◌≡◌};
    ghost use Rattle.sw_check.specs.Facts.{claims_at};

    /// Whether the mode is among them.
    pub(crate) fn has(self, mode: Mode) -> bool
        ensures { result ≡ claims_at self mode }
    {
        match mode.wire {
            WireKind::Compact => self.compact,
            WireKind::Json => match mode.place {
                Place::Value => {
                    if mode.buffered {
                        self.buffered_value
                    } else {
                        self.value
                    }
                }
                Place::Key => {
                    if mode.buffered {
                        self.buffered_key
                    } else {
                        self.key
                    }
                }
            },
        }
    }
}

/// What is known of a leaf: the modes that it claims, the kinds that it writes, the kinds that it reads
/// as a value, as a key and as a buffered key of JSON, and its grade. On Compact it reads what it reads as a value.
#[derive(Clone, Copy, PartialEq, Eq)]
pub struct Facts {
    pub claims: Claims,
    pub written: Kinds,
    pub read_value: Kinds,
    pub read_key: Kinds,
    pub read_buffered_key: Kinds,
    pub grade: Grade,
}

impl Facts {
    ghost use Rattle.std.specs.Prelude.{◌≡◌};
    ghost use Rattle.sw_check.specs.Facts.{read_at};

    /// The kinds that it reads in the mode.
    pub(crate) fn read(self, mode: Mode) -> Kinds
        ensures { result ≡ read_at self mode }
    {
        match mode.wire {
            WireKind::Compact => self.read_value,
            WireKind::Json => match mode.place {
                Place::Value => self.read_value,
                Place::Key => {
                    if mode.buffered {
                        self.read_buffered_key
                    } else {
                        self.read_key
                    }
                }
            },
        }
    }
}
