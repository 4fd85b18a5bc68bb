//! The rules that items are made of, each with the depth that its expressions and blocks may have.

ghost use Rattle.std.specs.Prelude.{◌≤◌, true, length, IfOk};
ghost use Rattle.tb_tree.specs.Longest.{Never};
ghost use Rattle.tb_parse_body.specs.Reading.{Reads, ReadsOne};
ghost use Rattle.tb_parse_body.specs.Rules as rules;

use crate::fronts::Front;
use crate::nests::{Grammar, block_at, expr_at};
use sqlite_items::{Boxed, Items};
use tb_parse_type::Reader;
use tb_text::NoMemory;
use tb_tree::{Block, Expr, Function, Param, TypeExpr, Var};

/// `const` or `let`, declarators, and `;`.
pub fn var_at(reader: Reader<'_>, at: usize, limit: usize) -> Result<Option<Front<Var>>, NoMemory>
    ensures { IfOk result (λ o. Reads (rules.VarUpto limit) Never reader.entry at o) }
{
    Grammar {
        reader,
        bound: limit,
        inner: 0,
        expr: expr_at,
        block: (),
        stmt: (),
    }
    .var_at(at, limit)
}

/// `function Name ( Param,* )`, an optional `: Type`, and the body.
pub fn function_at(
    reader: Reader<'_>,
    at: usize,
    limit: usize,
) -> Result<Option<Front<Function>>, NoMemory>
    ensures { IfOk result (λ o. Reads (rules.FunctionUpto limit) rules.InBody reader.entry at o) }
{
    Grammar {
        reader,
        bound: limit,
        inner: 0,
        expr: expr_at,
        block: block_at,
        stmt: (),
    }
    .function_at(at, limit)
}

/// Parameters in parentheses.
pub fn signature_at(
    reader: Reader<'_>,
    at: usize,
    limit: usize,
) -> Result<Option<Front<Items<Param>>>, NoMemory>
    ensures { IfOk result (λ o. Reads (rules.SignatureUpto limit) Never reader.entry at o) }
{
    Grammar {
        reader,
        bound: limit,
        inner: 0,
        expr: expr_at,
        block: (),
        stmt: (),
    }
    .signature_at(at, limit)
}

/// An optional `: Type`, and a body behind it.
pub fn body_at(
    reader: Reader<'_>,
    at: usize,
    limit: usize,
) -> Result<Option<Front<(Option<TypeExpr>, Block)>>, NoMemory>
    requires { at ≤ length reader.tokens.now }
    ensures { IfOk result (λ o. Reads (rules.BodyUpto limit) rules.InBody reader.entry at o) }
{
    Grammar {
        reader,
        bound: limit,
        inner: 0,
        expr: expr_at,
        block: block_at,
        stmt: (),
    }
    .body_at(at, limit)
}

/// An optional `= Expr`.
pub fn value_at(
    reader: Reader<'_>,
    at: usize,
    limit: usize,
) -> Result<Front<Option<Boxed<Expr>>>, NoMemory>
    requires { at ≤ length reader.tokens.now }
    ensures { IfOk result (λ x. ReadsOne (rules.ValueUpto limit) (rules.InExpr true) reader.entry at x) }
{
    Grammar {
        reader,
        bound: limit,
        inner: 0,
        expr: expr_at,
        block: (),
        stmt: (),
    }
    .value_at(at, limit)
}
