//! The patterns of `include` and `exclude`: how they are read and which paths they match.
#![tactic(auto)]

mod cover;
mod fronts;
mod parts;
mod pattern;
mod reading;
mod rows;
mod segments;
mod walk;

pub use parts::UseOf;
pub use pattern::{Pattern, matches};
