//! Choice: the first of several forms of a value that is found.
#![tactic(auto)]

pub mod free;
pub mod one_or_many;
pub mod one_or_many_list;
pub mod one_or_many_set;
mod options;
pub mod pick_first;
pub mod preference;
mod schema_many;
mod schema_pick;
mod sealed;

pub use one_or_many::OneOrMany;
pub use pick_first::PickFirst;
pub use preference::Preference;
