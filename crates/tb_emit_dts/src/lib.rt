//! The layout of declaration files.
#![tactic(auto)]

mod bodies;
mod declarations;
mod headings;
mod layout;
mod names;
mod texts;

pub use layout::dts;
