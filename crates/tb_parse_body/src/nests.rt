//! The readers that hand one another over.

ghost use Rattle.std.specs.Prelude.{◌≡◌, ◌≤◌, ◌<◌, true, false, length, IfOk};
ghost use Rattle.tb_tree.specs.Longest.{Never};
ghost use Rattle.tb_parse_type.specs.Reading.{rest};
ghost use Rattle.tb_parse_body.specs.Nests.{NestsExpr, NestsBlock, NestsStmt};
ghost use Rattle.tb_parse_body.specs.Reading.{Reads, ReadsStmt};
ghost use Rattle.tb_parse_body.specs.Rules as rules;

use crate::fronts::{Around, Front, StmtFront};
use tb_parse_type::Reader;
use tb_text::NoMemory;
use tb_tree::{Block, Expr};

/// The rules take the readers of what stands inside as parameters, so that each is proved by itself.
#[derive(Clone, Copy)]
pub struct Grammar<'a, E, B, S> {
    pub reader: Reader<'a>,
    /// The expressions and blocks inside are as deep as this at most.
    pub bound: usize,
    /// The statements inside are less deep than this.
    pub inner: usize,
    pub expr: E,
    pub block: B,
    pub stmt: S,
}

impl<E: Fn(Reader<'_>, usize, bool, usize) -> Result<Option<Front<Expr>>, NoMemory>, B, S> Grammar<
    '_,
    E,
    B,
    S,
> {
    /// An expression, as deep as the bound at most.
    pub(crate) fn expr_inside(
        &self,
        at: usize,
        typed: bool,
        limit: usize,
    ) -> Result<Option<Front<Expr>>, NoMemory>
        requires exprs { NestsExpr self.now.bound (E.pre self.now.expr) (E.post self.now.expr) }
        requires within { at ≤ length self.now.reader.tokens.now }
        requires below { limit ≤ self.now.bound }
        ensures { IfOk result (λ o. Reads (rules.ExprUpto typed limit) (rules.InExpr typed) self.now.reader at o) }
    {
        (self.expr)(self.reader, at, typed, limit)
    }
}

impl<
    E,
    B: Fn(Reader<'_>, usize, Around, usize) -> Result<Option<Front<Block>>, NoMemory>,
    S,
> Grammar<'_, E, B, S> {
    /// A block, as deep as the bound at most.
    pub(crate) fn block_inside(
        &self,
        at: usize,
        around: Around,
        limit: usize,
    ) -> Result<Option<Front<Block>>, NoMemory>
        requires blocks { NestsBlock self.now.bound (B.pre self.now.block) (B.post self.now.block) }
        requires within { at ≤ length self.now.reader.tokens.now }
        requires below { limit ≤ self.now.bound }
        ensures { IfOk result (λ o. Reads (rules.BlockUpto (rules.around_of around) limit) Never self.now.reader at o) }
    {
        (self.block)(self.reader, at, around, limit)
    }
}

impl<E, B, S: Fn(Reader<'_>, usize, Around, usize) -> Result<Option<StmtFront>, NoMemory>> Grammar<
    '_,
    E,
    B,
    S,
> {
    /// A statement, less deep than the bound of statements.
    pub(crate) fn stmt_inside(
        &self,
        at: usize,
        around: Around,
        limit: usize,
    ) -> Result<Option<StmtFront>, NoMemory>
        requires stmts { NestsStmt self.now.inner (S.pre self.now.stmt) (S.post self.now.stmt) }
        requires within { at ≤ length self.now.reader.tokens.now }
        requires below { limit < self.now.inner }
        ensures { IfOk result (λ o. ReadsStmt (rules.around_of around) limit self.now.reader at o) }
    {
        (self.stmt)(self.reader, at, around, limit)
    }
}

/// An expression; where `typed` is false, without an arrow that has a result type outside brackets.
#[cycle(nest)]
pub fn expr_at(
    reader: Reader<'_>,
    at: usize,
    typed: bool,
    limit: usize,
) -> Result<Option<Front<Expr>>, NoMemory>
    requires { at ≤ length reader.tokens.now }
    ensures { IfOk result (λ o. Reads (rules.ExprUpto typed limit) (rules.InExpr typed) reader.entry at o) }
{
    if limit == 0 {
        return Ok(None);
    }
    Grammar {
        reader,
        bound: limit - 1,
        inner: 0,
        expr: expr_at,
        block: block_at,
        stmt: (),
    }
    .whole_at(at, typed, limit)
}

#[cycle(nest)]
pub fn block_at(
    reader: Reader<'_>,
    at: usize,
    around: Around,
    limit: usize,
) -> Result<Option<Front<Block>>, NoMemory>
    requires { at ≤ length reader.tokens.now }
    ensures { IfOk result (λ o. Reads (rules.BlockUpto (rules.around_of around) limit) Never reader.entry at o) }
{
    if limit == 0 {
        return Ok(None);
    }
    Grammar {
        reader,
        bound: limit - 1,
        inner: limit,
        expr: expr_at,
        block: block_at,
        stmt: stmt_at,
    }
    .braces_at(at, around, limit)
}

#[cycle(nest)]
pub fn stmt_at(
    reader: Reader<'_>,
    at: usize,
    around: Around,
    limit: usize,
) -> Result<Option<StmtFront>, NoMemory>
    requires { at ≤ length reader.tokens.now }
    ensures { IfOk result (λ o. ReadsStmt (rules.around_of around) limit reader.entry at o) }
{
    Grammar {
        reader,
        bound: limit,
        inner: limit,
        expr: expr_at,
        block: block_at,
        stmt: stmt_at,
    }
    .statement_at(at, around, limit)
}
