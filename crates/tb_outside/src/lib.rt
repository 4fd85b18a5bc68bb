//! The world outside the program: a tree of sources, a disk, a feed of edits, a sink for reports, and a gate. Each of
//! the first four counts its faults, so that whoever calls one can say whose fault an answer was.
#![tactic(auto)]

mod disks;
mod errors;
mod feeds;
mod gates;
mod playing;
mod sinks;
mod trees;

pub use disks::{Disk, DiskStep};
pub use errors::{Failed, Trouble};
pub use feeds::{Change, Edit, Feed, Turn};
pub use gates::Gate;
pub use playing::play;
pub use sinks::Sink;
pub use trees::Tree;
