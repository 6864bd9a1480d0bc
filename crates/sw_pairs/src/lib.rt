//! Collections of pairs as maps, of which entries with equal keys are all kept; and maps as lists of pairs. Each with its schema.
#![tactic(auto)]

pub mod array;
mod each;
pub mod free;
pub mod map;
pub mod optional;
mod schema;
pub mod seq;
mod seq_schema;
pub mod sequences;
pub mod sets;

pub use map::Map;
pub use seq::Seq;
