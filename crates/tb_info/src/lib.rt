//! The build-info format, both ways: each info has one text, and no text is of two infos.
#![tactic(auto)]

mod exact;
mod faults;
mod fitting;
mod reading;
mod writing;

pub use exact::{one_text, read_info};
pub use writing::write_info;
