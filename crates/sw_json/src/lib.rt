//! JSON texts (RFC 8259): the trees that they spell, and the one compact text of a tree.
#![tactic(auto)]

mod building;
mod class;
mod leaf;
mod level;
mod lexer;
mod numeral;
mod piece;
mod place;
mod plain;
mod print;
mod quick;
mod quoted;
mod reader;
mod short;
pub mod spelling;
mod turn;
pub mod wire;
pub mod writer;

pub use wire::JsonWire;
pub use writer::TextWriter;

#[cfg(test)]
mod tests;
