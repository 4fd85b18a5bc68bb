//! The outside in memory: a tree, a disk, a feed and a sink whose calls can be made to fail, and an open gate.
#![tactic(auto)]

mod crashes;
mod disks;
mod feeds;
mod files;
mod gates;
mod plans;
mod sinks;
#[cfg(test)]
mod tests;
mod trees;

pub use crashes::Crash;
pub use disks::MemDisk;
pub use feeds::ScriptFeed;
pub use gates::OpenGate;
pub use sinks::MemSink;
pub use trees::MemTree;
