//! Trees, the documents that they are read from, and what reading and writing them answers.
#![tactic(auto)]

mod borrowed;
pub mod builder;
pub mod builds;
mod cases;
mod cell;
mod containers;
pub mod content;
pub mod doc;
mod doc_writer;
pub mod fail;
pub mod foreign;
mod from_node;
mod hashed;
mod held;
pub mod images;
mod kept;
pub mod kinds;
mod known;
mod leaves;
mod levels;
pub mod meant;
pub mod mode;
pub mod node;
pub mod node_builder;
pub mod number;
mod ordered;
mod part;
pub mod path;
mod ranges;
pub mod ranked;
mod sequences;
mod sheet;
mod signed;
pub mod skipped;
mod to_node;
mod tuples;
mod unsigned;
pub mod view;
pub mod whole;
pub mod wire;
pub mod write;

pub use builder::DocBuilder;
pub use builds::Builds;
pub use content::Content;
pub use doc::Doc;
pub use fail::{
    DeError, DeFail, DeKind, PrintError, Refusal, SerError, SerFail, TooDeep, WireError,
};
pub use foreign::foreign_in;
pub use images::image;
pub use kinds::Kinds;
pub use meant::{Meant, Named};
pub use mode::{Kind, Mode, Place, WireKind};
pub use node::Node;
pub use node_builder::NodeBuilder;
pub use number::{key_number, short_value, whole_of_spelling, whole_text};
pub use path::{NodePath, Step, node_at, path_of};
pub use ranked::{Keyed, Ranked};
pub use skipped::Skipped;
pub use view::{Entries, Items, View};
pub use whole::Whole;
pub use wire::Wire;
pub use write::{write_node, write_view};

#[cfg(test)]
mod tests;
