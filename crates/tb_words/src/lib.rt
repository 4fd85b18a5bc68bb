//! The words after the program's name, read as a command or as the first fault of the words.
#![tactic(auto)]

mod commands;
mod numbers;
mod parse;
mod roots;

pub use commands::{Command, WordsFault, read_words};
