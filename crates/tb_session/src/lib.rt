//! A run of the program: from words and a tree of texts to outputs, a report and a status. Its promise, the headline,
//! is stated in `specs/Headline.antt`.
#![tactic(auto)]

mod builds;
mod ended;
mod opening;
mod prepares;
mod publishes;
mod reports;
mod runs;
mod scripts;
mod sources;
mod words;

pub use ended::Ended;
pub use runs::{run, run_alone};
