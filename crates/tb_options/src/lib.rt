//! The members of a config and its options: their forms, the values that are accepted, the paths that their texts name, and
//! what is wrong in them.
#![tactic(auto)]

mod faults;
mod members;
mod objects;
mod options;
mod texts;

pub use faults::{Fault, check_texts, push_fault, push_unless};
pub use members::{PathList, extends_texts, path_lists, reference_texts, texts_of};
pub use objects::check_object;
pub use texts::TextOf;
