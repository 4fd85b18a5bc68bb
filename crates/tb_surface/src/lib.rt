//! What others see of a file, and where the file lacks annotations for it.
#![tactic(auto)]

mod annotations;
mod declaring;
mod known;
mod laws;
mod literals;
mod names;
mod surfaces;

pub use annotations::annotation_findings;
pub use laws::kept_names_are_least;
pub use surfaces::surface;
