//! Adapters: how a value is written as a tree and read from one, and how bytes are recoded by them.
#![tactic(auto)]

pub mod adapter;
pub mod array;
pub mod as_;
pub mod bound;
pub mod boxed;
pub mod boxed_slice;
pub mod deque;
pub mod display;
mod each;
pub mod entries;
pub mod entry_array;
pub mod faithful;
pub mod fields;
pub mod formats;
pub mod free;
pub mod hashed_map;
pub mod hashed_set;
pub mod linked;
pub mod map_list;
pub mod option;
pub mod optional_pair;
pub mod ordered_map;
pub mod ordered_set;
pub mod pair_list;
mod parts;
pub mod range;
pub mod recode;
pub mod record;
pub mod result;
pub mod same;
mod tagged;
pub mod token;
pub mod tuple;
pub mod vec;
pub mod wrap;

pub use adapter::{Adapter, DeserializeAs, SerializeAs};
pub use as_::As;
pub use display::DisplayFromStr;
pub use recode::RecodeError;
pub use same::Same;
pub use token::Faithful;
