//! JSON schemas as plain data, the trees that are valid for them, the trees that they are themselves, and the schemas of the types
//! that write themselves.
#![tactic(auto)]

mod copy;
pub mod elements;
pub mod json_schema;
pub mod lists;
mod matching;
mod part;
pub mod pattern;
mod same;
pub mod schema;
pub mod to_node;
mod validity;

pub use elements::NumberSchema;
pub use json_schema::JsonSchema;
pub use lists::{FieldList, SchemaList};
pub use pattern::Pattern;
pub use schema::{SchemaField, SchemaForm, SchemaTree};
pub use to_node::ToNodeFail;
pub use validity::valid;

#[cfg(test)]
mod tests;
