//! JSON with comments and trailing commas, as the TypeScript compiler's configs have them: a text is blanked and then
//! read with `serde_json`.
#![tactic(auto)]

mod blanking;
mod bytes;
mod commas;
mod fault;
mod pieces;
mod reading;

pub use blanking::blanked;
pub use fault::JsonFault;
pub use reading::read_json;
