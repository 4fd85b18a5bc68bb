//! Tests of the crates that plan a build: words, configs, patterns, orders and plans, and what a build keeps.
#![tactic(auto)]

#[cfg(test)]
mod commands;
#[cfg(test)]
mod infos;
#[cfg(test)]
mod json;
#[cfg(test)]
mod orders;
#[cfg(test)]
mod outputs;
#[cfg(test)]
mod patterns;
#[cfg(test)]
mod plans;
#[cfg(test)]
mod settings;
#[cfg(test)]
mod shared;
