//! The tokens of a text: words, numbers, strings, templates and marks, between blanks and comments.
#![tactic(auto)]

mod braces;
mod characters;
mod digits;
mod escapes;
mod fronts;
mod inside;
mod laws;
mod marks;
mod numbers;
mod pieces;
mod scanner;
mod spacing;
mod token;

pub use braces::{Braces, Bracket};
pub use laws::tokens_are_determined;
pub use scanner::{next_token, scan};
pub use token::{Kind, Token};
