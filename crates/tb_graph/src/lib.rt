//! The order in which projects are built: what a project references comes before it.
#![tactic(auto)]

mod orders;
mod visits;

pub use orders::{OrderFault, order};
