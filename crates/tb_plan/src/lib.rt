//! Plans: which projects the roots reach, in which order they are built, and what is wrong with them.
#![tactic(auto)]

mod covers;
mod faults;
mod first;
mod folders;
mod inputs;
mod keys;
mod limits;
mod nested;
mod numbers;
mod outputs;
mod plans;
mod projects;
mod reach;
mod readings;
mod second;
mod settings;
mod shared;
mod sources;
mod statuses;
mod upstream;
mod visit;
mod within;

pub use plans::{Plan, PlanFault, Project, make_plan};
