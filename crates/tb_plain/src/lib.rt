//! Plain files: which files of the whole grammar they are.
#![tactic(auto)]

mod constants;
mod differing;
mod members;
mod names;
mod plain;
mod written;

pub use plain::is_plain;
