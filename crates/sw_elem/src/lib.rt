//! The types that stand at the leaves of a nest, and the words in which readers and writers answer.
#![tactic(auto)]

pub mod any;
mod classes;
mod digits;
pub mod element;
pub mod facts;
pub mod free;
pub mod integer;
mod key_place;
mod leaf_texts;
mod leaves;
pub mod numbers;
pub mod refuse;
mod sealed;
pub mod serialize;
mod signed;
mod strings;
pub mod text;
mod truths;
mod unsigned;

pub use any::Any;
pub use element::Element;
pub use refuse::refused_at;
pub use serialize::{Deserialize, Serialize};
pub use text::{ParseFail, TextForm};

#[cfg(test)]
mod own_element;
#[cfg(test)]
mod tests;
