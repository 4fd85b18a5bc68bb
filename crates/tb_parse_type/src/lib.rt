//! Reads types: the longest front of a list of tokens that is one, within the depth that a type may have.
#![tactic(auto)]

ghost use Rattle.std.specs.Prelude.{◌≤◌, length, IfOk, IsErrOf};
ghost use Rattle.tb_parse_type.specs.Fronts.{IsReading, HasNoReading};

mod parse;
mod parts;
mod reader;
mod symbols;
mod words;

pub use parse::{type_at, type_members_at, type_params_at};
pub use reader::{Limits, Read, Reader};
use std::alloc::Global;
pub use symbols::{Symbol, spelled, symbol_of};
use tb_scan::Token;
use tb_text::NoMemory;
use tb_tree::TypeExpr;
use thiserror::Error;

/// No type has a greater own count, and no item is deeper.
pub const MAX_COUNT: usize = 200;

/// Why nothing was read.
#[derive(Clone, Copy, Debug, PartialEq, Eq, Error)]
pub enum ReadFault {
    /// No front of the tokens is derived.
    #[error("nothing is derived here")]
    NotDerived,
    #[error("out of memory")]
    NoMemory,
}

/// Reads the longest front of the tokens from `at` on that derives a type, and says the first place behind it. The tokens
/// are those of `text`.
pub fn read_type(
    alloc: Global,
    tokens: &[Token],
    text: &str,
    at: usize,
) -> Result<(TypeExpr, usize), ReadFault>
    requires { at ≤ length tokens.now }
    ensures found { IfOk result (λ x. IsReading tokens.now text.now at x.0 x.1) }
    ensures none { IsErrOf result ReadFault.NotDerived → HasNoReading tokens.now text.now at }
{
    let reader = Reader {
        alloc,
        tokens,
        text,
    };
    let limits = Limits {
        own: MAX_COUNT,
        depth: MAX_COUNT,
    };
    match type_at(reader, at, limits) {
        Ok(Some(read)) => Ok((read.tree, read.next)),
        Ok(None) => Err(ReadFault::NotDerived),
        Err(NoMemory) => Err(ReadFault::NoMemory),
    }
}
