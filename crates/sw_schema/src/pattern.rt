/// A named pattern of texts.
#[derive(Clone, Copy, PartialEq, Eq)]
pub enum Pattern {
    /// `^(?:[0-9A-Fa-f]{2})*$`
    Hex,
    /// `^[0-9]+(\.[0-9]+)?([eE][+-]?[0-9]+)?$`
    Time,
    /// `^-?[0-9]+(\.[0-9]+)?([eE][+-]?[0-9]+)?$`
    SignedTime,
}
