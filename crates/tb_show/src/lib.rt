//! The text of types and strings, and copies of types whose strings have their one spelling.
#![tactic(auto)]

mod copying;
mod parts;
mod showing;
mod strings;
mod texts;

pub use copying::{quoted_bases, quoted_members, quoted_type, quoted_type_params};
pub use showing::{type_text, write_arguments, write_member, write_type, write_type_params};
pub use strings::{quoted, write_quoted};
