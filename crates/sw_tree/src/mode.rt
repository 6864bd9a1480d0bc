/// What kind of tree a node is.
#[derive(Clone, Copy, PartialEq, Eq)]
pub enum Kind {
    Null,
    Bool,
    Int,
    Text,
    Bytes,
    List,
    Map,
}

/// A wire, by its name.
#[derive(Clone, Copy, PartialEq, Eq)]
pub enum WireKind {
    Json,
    Compact,
}

/// Whether a node stands as a value or as the key of a map.
#[derive(Clone, Copy, PartialEq, Eq)]
pub enum Place {
    Value,
    Key,
}

/// How a part is read and written: on which wire, in which place, and whether
/// it is read from a tree that was set aside before (buffered), as where one of
/// several forms is looked for.
#[derive(Clone, Copy, PartialEq, Eq)]
pub struct Mode {
    pub wire: WireKind,
    pub place: Place,
    pub buffered: bool,
}

impl Mode {
    ghost use Rattle.std.specs.Prelude.{◌≡◌};
    ghost use Rattle.sw_tree.specs.Mode.{plain, at_value, at_key, marked};

    /// The mode of a whole document: in value place, not buffered.
    pub fn plain(wire: WireKind) -> Mode
        ensures { result ≡ plain wire }
    {
        Mode {
            wire,
            place: Place::Value,
            buffered: false,
        }
    }

    /// This mode in value place.
    pub fn value(self) -> Mode
        ensures { result ≡ at_value self }
    {
        Mode {
            wire: self.wire,
            place: Place::Value,
            buffered: self.buffered,
        }
    }

    /// This mode in key place.
    pub fn key(self) -> Mode
        ensures { result ≡ at_key self }
    {
        Mode {
            wire: self.wire,
            place: Place::Key,
            buffered: self.buffered,
        }
    }

    /// This mode, buffered.
    pub fn buffer(self) -> Mode
        ensures { result ≡ marked self }
    {
        Mode {
            wire: self.wire,
            place: self.place,
            buffered: true,
        }
    }
}
