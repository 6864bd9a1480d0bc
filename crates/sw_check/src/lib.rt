//! Expressions of adapters, and the check of what is said of them.
#![tactic(auto)]

pub mod blame;
mod checks;
mod children;
pub mod class;
pub mod expr;
pub mod exprs;
pub mod facts;
mod found;
pub mod grade;
mod grades;
mod kinds;
mod options;
mod parts;
pub mod rule;
mod rules;

pub use blame::{Blame, CheckFail, Path};
pub use checks::check;
pub use class::TextClass;
pub use expr::Expr;
pub use exprs::ExprList;
pub use facts::{Claims, Facts};
pub use grade::Grade;
pub use rule::Rule;

#[cfg(test)]
mod tests;
