//! The vocabulary of the whole project: paths, texts, lists, digests, findings and their printed lines, edges,
//! statuses, counters. Every other crate stands on this one.
#![tactic(auto)]

mod codes;
mod digests;
mod edges;
mod findings;
mod folders;
mod joins;
mod lines;
mod lists;
mod maps;
mod messages;
mod names;
mod no_memory;
mod paths;
mod statuses;
mod steps;
mod texts;

pub use digests::Digest;
pub use edges::{Edge, Edges, Target};
pub use findings::{Code, Diag, Finding};
pub use lines::line_col;
pub use lists::List;
pub use maps::Texts;
pub use messages::diag_text;
pub use names::Name;
pub use no_memory::NoMemory;
pub use paths::{Path, PathFault};
pub use statuses::{Status, UsageFault, Which};
pub use steps::Steps;
pub use texts::Text;
