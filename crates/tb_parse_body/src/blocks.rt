//! Blocks, and what stands in them.

ghost use Rattle.std.specs.Prelude.{◌≡◌, ◌≤◌, ◌<◌, ◌+◌, length, IfOk};
ghost use Rattle.tb_tree.specs.Longest.{Never};
ghost use Rattle.tb_parse_type.specs.Reading.{rest};
ghost use Rattle.tb_parse_body.specs.Nests.{NestsExpr, NestsBlock, NestsStmt};
ghost use Rattle.tb_parse_body.specs.Reading.{Reads, ReadsOne};
ghost use Rattle.tb_parse_body.specs.ItemReadings.{ReadsItem};
ghost use Rattle.tb_parse_body.specs.Rules as rules;

use crate::fronts::{Around, Front, StmtFront};
use crate::nests::Grammar;
use crate::operators::larger;
use sqlite_items::{Boxed, Items};
use tb_parse_type::Reader;
use tb_text::NoMemory;
use tb_tree::{Block, BlockItem, Expr, Mark};

impl<
    E: Fn(Reader<'_>, usize, bool, usize) -> Result<Option<Front<Expr>>, NoMemory>,
    B: Fn(Reader<'_>, usize, Around, usize) -> Result<Option<Front<Block>>, NoMemory>,
    S: Fn(Reader<'_>, usize, Around, usize) -> Result<Option<StmtFront>, NoMemory>,
> Grammar<'_, E, B, S> {
    /// A variable, a function or a statement.
    fn block_item_at(
        &self,
        at: usize,
        around: Around,
        limit: usize,
    ) -> Result<Option<Front<BlockItem>>, NoMemory>
        requires exprs { NestsExpr self.now.bound (E.pre self.now.expr) (E.post self.now.expr) }
        requires blocks { NestsBlock self.now.bound (B.pre self.now.block) (B.post self.now.block) }
        requires stmts { NestsStmt self.now.inner (S.pre self.now.stmt) (S.post self.now.stmt) }
        requires within { at ≤ length self.now.reader.tokens.now }
        requires below { limit ≤ self.now.bound }
        requires inner { limit < self.now.inner }
        ensures { IfOk result (λ o. ReadsItem (rules.around_of around) limit self.now.reader at o) }
    {
        if let Some(var) = self.var_at(at, limit)? {
            return Ok(Some(Front {
                tree: BlockItem::Var(Boxed::new(self.reader.alloc, var.tree)?),
                depth: var.depth,
                next: var.next,
            }));
        }
        if let Some(function) = self.function_at(at, limit)? {
            return Ok(Some(Front {
                tree: BlockItem::Function(Boxed::new(self.reader.alloc, function.tree)?),
                depth: function.depth,
                next: function.next,
            }));
        }
        let Some(stmt) = self.stmt_inside(at, around, limit)? else {
            return Ok(None);
        };
        Ok(Some(Front {
            tree: BlockItem::Stmt(Boxed::new(self.reader.alloc, stmt.tree)?),
            depth: stmt.depth,
            next: stmt.next,
        }))
    }

    /// Any number of variables, functions and statements.
    pub(crate) fn block_items_at(
        &self,
        at: usize,
        around: Around,
        limit: usize,
    ) -> Result<Front<Items<BlockItem>>, NoMemory>
        requires exprs { NestsExpr self.now.bound (E.pre self.now.expr) (E.post self.now.expr) }
        requires blocks { NestsBlock self.now.bound (B.pre self.now.block) (B.post self.now.block) }
        requires stmts { NestsStmt self.now.inner (S.pre self.now.stmt) (S.post self.now.stmt) }
        requires within { at ≤ length self.now.reader.tokens.now }
        requires below { limit ≤ self.now.bound }
        requires inner { limit < self.now.inner }
        ensures { IfOk result (λ x. ReadsOne (rules.BlockItemsUpto (rules.around_of around) limit) rules.InItems self.now.reader at x) }
    {
        let mut items = Items::new(self.reader.alloc);
        let mut depth = 0;
        let mut next = at;
        while let Some(item) = self.block_item_at(next, around, limit)? {
            items.push(item.tree)?;
            depth = larger(depth, item.depth);
            next = item.next;
        }
        Ok(Front {
            tree: items,
            depth,
            next,
        })
    }

    /// A block.
    pub(crate) fn braces_at(
        &self,
        at: usize,
        around: Around,
        limit: usize,
    ) -> Result<Option<Front<Block>>, NoMemory>
        requires exprs { NestsExpr self.now.bound (E.pre self.now.expr) (E.post self.now.expr) }
        requires blocks { NestsBlock self.now.bound (B.pre self.now.block) (B.post self.now.block) }
        requires stmts { NestsStmt self.now.inner (S.pre self.now.stmt) (S.post self.now.stmt) }
        requires some { 0 < limit }
        requires below { limit ≤ self.now.bound + 1 }
        requires inner { limit ≤ self.now.inner }
        ensures { IfOk result (λ o. Reads (rules.BlockUpto (rules.around_of around) limit) Never self.now.reader at o) }
    {
        if !self.reader.is_mark(at, Mark::OpenBrace) {
            return Ok(None);
        }
        let items = self.block_items_at(at + 1, around, limit - 1)?;
        if !self.reader.is_mark(items.next, Mark::CloseBrace) {
            return Ok(None);
        }
        Ok(Some(Front {
            tree: Block {
                at: self.reader.start_at(at),
                items: items.tree,
            },
            depth: items.depth + 1,
            next: items.next + 1,
        }))
    }
}
