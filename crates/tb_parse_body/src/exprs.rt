//! Whole expressions.

ghost use Rattle.std.specs.Prelude.{◌≡◌, ◌≤◌, ◌<◌, ◌+◌, length, IfOk};
ghost use Rattle.tb_parse_type.specs.Reading.{rest};
ghost use Rattle.tb_parse_body.specs.Nests.{NestsExpr, NestsBlock};
ghost use Rattle.tb_parse_body.specs.Reading.{Reads};
ghost use Rattle.tb_parse_body.specs.Rules as rules;

use crate::fronts::{Around, Front, Start};
use crate::nests::Grammar;
use tb_parse_type::Reader;
use tb_text::NoMemory;
use tb_tree::{Block, Expr};

impl<
    E: Fn(Reader<'_>, usize, bool, usize) -> Result<Option<Front<Expr>>, NoMemory>,
    B: Fn(Reader<'_>, usize, Around, usize) -> Result<Option<Front<Block>>, NoMemory>,
    S,
> Grammar<'_, E, B, S> {
    /// An expression.
    pub(crate) fn whole_at(
        &self,
        at: usize,
        typed: bool,
        limit: usize,
    ) -> Result<Option<Front<Expr>>, NoMemory>
        requires exprs { NestsExpr self.now.bound (E.pre self.now.expr) (E.post self.now.expr) }
        requires blocks { NestsBlock self.now.bound (B.pre self.now.block) (B.post self.now.block) }
        requires some { 0 < limit }
        requires within { at ≤ length self.now.reader.tokens.now }
        requires below { limit ≤ self.now.bound + 1 }
        ensures { IfOk result (λ o. Reads (rules.ExprUpto typed limit) (rules.InExpr typed) self.now.reader at o) }
    {
        match self.start_at(at, typed, limit)? {
            Start::Arrow(arrow) => Ok(Some(arrow)),
            Start::Neither => Ok(None),
            Start::Primary(first) => {
                let chain = self.chain_from(at, first, limit)?;
                let unary = self.update_from(at, chain, limit)?;
                let whole = self.expr_from(at, typed, unary, limit)?;
                Ok(Some(whole))
            }
            Start::Open => {
                let Some(unary) = self.prefixed_at(at, limit)? else {
                    return Ok(None);
                };
                let whole = self.expr_from(at, typed, unary, limit)?;
                Ok(Some(whole))
            }
        }
    }
}
