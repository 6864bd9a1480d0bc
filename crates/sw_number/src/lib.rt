//! Number types without 0, as elements.
#![tactic(auto)]

pub mod nonzero;
mod schema;

pub use nonzero::{
    NonZero, NonZeroI8, NonZeroI16, NonZeroI32, NonZeroI64, NonZeroI128, NonZeroIsize, NonZeroU8,
    NonZeroU16, NonZeroU32, NonZeroU64, NonZeroU128, NonZeroUsize,
};

#[cfg(test)]
mod tests;
