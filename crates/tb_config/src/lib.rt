//! The setting of a config: what it and its bases give, or the list of their faults.
#![tactic(auto)]

mod chains;
mod configs;
mod contents;
mod givens;
mod judging;
mod parts;
mod reading;
mod setting;
mod walks;

pub use reading::read_setting;
pub use setting::{PathRule, Setting, SettingFault};
