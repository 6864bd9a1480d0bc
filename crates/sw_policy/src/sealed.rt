use sw_core::formats::{PreferMany, PreferOne};

/// Keeps a trait to the types of this crate that have it.
pub trait Sealed {}

impl Sealed for PreferOne {}

impl Sealed for PreferMany {}
