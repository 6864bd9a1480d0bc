/// A rule of the check, by its name.
#[derive(Clone, Copy, PartialEq, Eq)]
pub enum Rule {
    /// A leaf or a conversion claims the mode.
    S1,
    /// As a key of JSON it writes no kind but text, number and truth value.
    S2,
    /// The part of `OneOrMany`, buffered, reads no list.
    S3,
    /// The part of `Option` or `DefaultOnNull` writes no null.
    S4,
    /// What tells items or entries apart is exact.
    S5,
    /// The texts that are joined are never empty and share no byte with the separator.
    S6,
    /// A text that stands beside the empty one is never empty.
    S7,
    /// A conversion gives back what it was given.
    S8,
}
