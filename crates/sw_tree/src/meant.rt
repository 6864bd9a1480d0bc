/// Names the meaning of a value as plain data, and which meanings the type has.
pub trait Named {
    ghost use Rattle.sw_tree.specs.Meaning.{Meaning};

    ghost meaning: { Self → Meaning };

    ghost is_meaning: { Meaning → Type 0 };
}

/// The meaning of a value in hand is one of its type's.
pub trait Meant: Named + Drop {
    /// Does nothing. Its contract says that the value's meaning is one of the type's.
    fn in_hand(&self)
        ensures { Self.is_meaning (Self.meaning self.now) };
}
