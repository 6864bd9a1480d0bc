//! Tests of the adapters by their public calls. They stand in a crate of their own, so that the adapters' crates are proved once.
#![tactic(auto)]

#[cfg(test)]
mod tests;
