//! The schemas of the adapters of std's types: what each writes as JSON is valid for its schema.
#![tactic(auto)]

mod array;
mod bound;
mod boxed;
mod boxed_slice;
mod deque;
mod hashed_map;
mod hashed_set;
pub mod laws;
mod leaves;
mod linked;
mod map_list;
pub mod names;
mod option;
mod optional_pair;
mod ordered_map;
mod ordered_set;
mod pair_list;
mod range;
mod result;
mod row;
pub mod schema;
pub mod schema_as;
mod tuple;
mod variants;
mod vec;

pub use schema::Schema;
pub use schema_as::{JsonSchemaAs, SchemaAdapter};
