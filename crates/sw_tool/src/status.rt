/// How the program ends, numbered as its exit code.
#[derive(Clone, Copy, PartialEq, Eq)]
pub enum Status {
    /// The output is written whole.
    Ok = 0,
    /// The words are no command.
    Usage = 1,
    /// The input is no text of the wire's grammar.
    Syntax = 2,
    /// A number of the input isn't a whole number from -2^127 to 2^128 - 1.
    NotWhole = 3,
    /// A node of the input opens a 129th level.
    TooDeep = 4,
    /// The adapter doesn't read the input's tree.
    Refused = 5,
    /// The adapter doesn't write the value.
    Unwritable = 6,
    /// The nest isn't sound.
    Blamed = 7,
    /// The source failed.
    ReadFault = 8,
    /// The sink failed.
    WriteFault = 9,
    /// Memory was wanting.
    Memory = 10,
    /// The source gave 4,194,305 bytes.
    TooLong = 11,
}
