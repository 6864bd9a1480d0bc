/// The two versions of the compact wire, which differ in how a length or a count is spelled, and in the mark in front.
#[derive(Clone, Copy)]
pub enum Version {
    /// Eight bytes, the highest first; no mark.
    One,
    /// Groups of seven bits, the lowest first; behind the byte C2.
    Two,
}
