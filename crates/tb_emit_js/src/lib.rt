//! The layout of JavaScript.
#![tactic(auto)]

mod classes;
mod items;
mod layout;
mod names;
mod signs;
mod texts;
mod trees;

pub use layout::js;
