//! Reads expressions and statements: the longest front of a list of tokens that is one, within the depth that an item may
//! have.
#![tactic(auto)]

ghost use Rattle.std.specs.Prelude.{◌≤◌, length, IfOk, IsErrOf};
ghost use Rattle.tb_tree.specs.Exprs.{DerivesExpr, DerivesStmt};
ghost use Rattle.tb_parse_body.specs.Fronts.{IsReading, HasNoReading};

mod arrows;
mod blocks;
mod bodies;
mod chains;
mod exprs;
mod fors;
mod fronts;
mod levels;
mod lists;
mod nests;
mod operators;
mod params;
mod parts;
mod primaries;
mod statements;
mod stmts;
mod switches;
mod vars;

pub use fronts::{Around, Front, StmtFront};
use nests::expr_at;
pub use nests::{block_at, stmt_at};
pub use operators::{larger, name_at};
pub use params::{annotation_at, question_at};
pub use parts::{body_at, function_at, signature_at, value_at, var_at};
use std::alloc::Global;
use tb_parse_type::{ReadFault, Reader};
use tb_scan::Token;
use tb_text::NoMemory;
use tb_tree::{Expr, Stmt};

/// No item is deeper.
pub const MAX_DEPTH: usize = 200;

/// Reads the longest front of the tokens from `at` on that derives an expression, and says the first place behind it. The
/// tokens are those of `text`.
pub fn read_expr(
    alloc: Global,
    tokens: &[Token],
    text: &str,
    at: usize,
) -> Result<(Expr, usize), ReadFault>
    requires { at ≤ length tokens.now }
    ensures found { IfOk result (λ x. IsReading DerivesExpr tokens.now text.now at x.0 x.1) }
    ensures none { IsErrOf result ReadFault.NotDerived → HasNoReading DerivesExpr tokens.now text.now at }
{
    let reader = Reader {
        alloc,
        tokens,
        text,
    };
    match expr_at(reader, at, true, MAX_DEPTH) {
        Ok(Some(read)) => Ok((read.tree, read.next)),
        Ok(None) => Err(ReadFault::NotDerived),
        Err(NoMemory) => Err(ReadFault::NoMemory),
    }
}

/// Reads the longest front of the tokens from `at` on that derives a statement that stands in no loop and no switch, and
/// in a body exactly where `in_body` is true; and says the first place behind it. The tokens are those of `text`.
pub fn read_stmt(
    alloc: Global,
    tokens: &[Token],
    text: &str,
    at: usize,
    in_body: bool,
) -> Result<(Stmt, usize), ReadFault>
    requires { at ≤ length tokens.now }
    ensures found { IfOk result (λ x. IsReading (DerivesStmt in_body) tokens.now text.now at x.0 x.1) }
    ensures none { IsErrOf result ReadFault.NotDerived → HasNoReading (DerivesStmt in_body) tokens.now text.now at }
{
    let reader = Reader {
        alloc,
        tokens,
        text,
    };
    let around = Around {
        in_body,
        in_loop: false,
        in_switch: false,
    };
    match stmt_at(reader, at, around, MAX_DEPTH) {
        Ok(Some(read)) => Ok((read.tree, read.next)),
        Ok(None) => Err(ReadFault::NotDerived),
        Err(NoMemory) => Err(ReadFault::NoMemory),
    }
}
