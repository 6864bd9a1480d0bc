//! The compact wire: the bytes that spell trees, in two versions.
#![tactic(auto)]

mod head;
pub mod laws;
mod length;
mod level;
mod number;
mod print;
mod reader;
mod upgrading;
pub mod version;
pub mod wire;
pub mod writer;

pub use upgrading::upgrade;
pub use wire::{CompactWire, CompactWire1};
pub use writer::CompactWriter;

#[cfg(test)]
mod tests;
