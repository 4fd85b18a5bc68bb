//! Statements: those without statements inside, and the choice between all.

ghost use Rattle.std.specs.Prelude.{◌≡◌, ◌≤◌, ◌<◌, ℕ, List, ◌∷◌, true, false, length, IfOk, Some};
ghost use Rattle.tb_tree.specs.Sym as sym;
ghost use Rattle.tb_tree.specs.Shapes as shapes;
ghost use Rattle.tb_tree.specs.Exprs as exprs;
ghost use Rattle.tb_parse_type.specs.Reading.{rest, text_at, start_at, Stands};
ghost use Rattle.tb_parse_body.specs.Nests.{NestsExpr, NestsBlock, NestsStmt};
ghost use Rattle.tb_parse_body.specs.Reading.{ReadsStmt};
ghost use Rattle.tb_parse_body.specs.Rules as rules;

use crate::fronts::{Around, Front, StmtFront};
use crate::nests::Grammar;
use sqlite_items::Boxed;
use tb_parse_type::{Reader, Symbol};
use tb_text::NoMemory;
use tb_tree::{Block, Class, Expr, Mark, Stmt, Word};

impl<
    E: Fn(Reader<'_>, usize, bool, usize) -> Result<Option<Front<Expr>>, NoMemory>,
    B: Fn(Reader<'_>, usize, Around, usize) -> Result<Option<Front<Block>>, NoMemory>,
    S: Fn(Reader<'_>, usize, Around, usize) -> Result<Option<StmtFront>, NoMemory>,
> Grammar<'_, E, B, S> {
    fn block_stmt_at(
        &self,
        at: usize,
        around: Around,
        limit: usize,
    ) -> Result<Option<StmtFront>, NoMemory>
        requires blocks { NestsBlock self.now.bound (B.pre self.now.block) (B.post self.now.block) }
        requires below { limit ≤ self.now.bound }
        requires stands { Stands self.now.reader at (sym.Mark Mark.OpenBrace (start_at self.now.reader at)) }
        ensures { IfOk result (λ o. ReadsStmt (rules.around_of around) limit self.now.reader at o) }
    {
        let Some(block) = self.block_inside(at, around, limit)? else {
            return Ok(None);
        };
        Ok(Some(StmtFront {
            tree: Stmt::Block(Boxed::new(self.reader.alloc, block.tree)?),
            depth: block.depth,
            next: block.next,
            closed: true,
        }))
    }

    fn return_at(
        &self,
        at: usize,
        around: Around,
        limit: usize,
    ) -> Result<Option<StmtFront>, NoMemory>
        requires exprs { NestsExpr self.now.bound (E.pre self.now.expr) (E.post self.now.expr) }
        requires below { limit ≤ self.now.bound }
        requires stands { Stands self.now.reader at (shapes.word Word.Return (text_at self.now.reader at) (start_at self.now.reader at)) }
        ensures { IfOk result (λ o. ReadsStmt (rules.around_of around) limit self.now.reader at o) }
    {
        if !around.in_body {
            return Ok(None);
        }
        let Some(value) = self.closed_at(at + 1, Mark::Semicolon, limit)? else {
            return Ok(None);
        };
        Ok(Some(StmtFront {
            tree: Stmt::Return {
                at: self.reader.start_at(at),
                value: value.tree,
            },
            depth: value.depth,
            next: value.next,
            closed: true,
        }))
    }

    fn break_at(&self, at: usize, around: Around, limit: usize) -> Option<StmtFront>
        requires stands { Stands self.now.reader at (shapes.word Word.Break (text_at self.now.reader at) (start_at self.now.reader at)) }
        ensures { ReadsStmt (rules.around_of around) limit self.now.reader at result }
    {
        if !around.takes_break() {
            return None;
        }
        if !self.reader.is_mark(at + 1, Mark::Semicolon) {
            return None;
        }
        Some(StmtFront {
            tree: Stmt::Break {
                at: self.reader.start_at(at),
            },
            depth: 0,
            next: at + 2,
            closed: true,
        })
    }

    fn continue_at(&self, at: usize, around: Around, limit: usize) -> Option<StmtFront>
        requires stands { Stands self.now.reader at (shapes.word Word.Continue (text_at self.now.reader at) (start_at self.now.reader at)) }
        ensures { ReadsStmt (rules.around_of around) limit self.now.reader at result }
    {
        if !around.in_loop {
            return None;
        }
        if !self.reader.is_mark(at + 1, Mark::Semicolon) {
            return None;
        }
        Some(StmtFront {
            tree: Stmt::Continue {
                at: self.reader.start_at(at),
            },
            depth: 0,
            next: at + 2,
            closed: true,
        })
    }

    fn throw_at(
        &self,
        at: usize,
        around: Around,
        limit: usize,
    ) -> Result<Option<StmtFront>, NoMemory>
        requires exprs { NestsExpr self.now.bound (E.pre self.now.expr) (E.post self.now.expr) }
        requires below { limit ≤ self.now.bound }
        requires stands { Stands self.now.reader at (shapes.word Word.Throw (text_at self.now.reader at) (start_at self.now.reader at)) }
        ensures { IfOk result (λ o. ReadsStmt (rules.around_of around) limit self.now.reader at o) }
    {
        let Some(value) = self.sentence_at(at + 1, limit)? else {
            return Ok(None);
        };
        Ok(Some(StmtFront {
            tree: Stmt::Throw {
                at: self.reader.start_at(at),
                value: Boxed::new(self.reader.alloc, value.tree)?,
            },
            depth: value.depth,
            next: value.next,
            closed: true,
        }))
    }

    /// `Expr ;`, where no other statement begins.
    fn expr_stmt_at(
        &self,
        at: usize,
        around: Around,
        limit: usize,
    ) -> Result<Option<StmtFront>, NoMemory>
        requires exprs { NestsExpr self.now.bound (E.pre self.now.expr) (E.post self.now.expr) }
        requires within { at ≤ length self.now.reader.tokens.now }
        requires below { limit ≤ self.now.bound }
        requires other { rules.begins_other_stmt (rest self.now.reader at) ≡ false }
        ensures { IfOk result (λ o. ReadsStmt (rules.around_of around) limit self.now.reader at o) }
    {
        let Some(value) = self.sentence_at(at, limit)? else {
            return Ok(None);
        };
        Ok(Some(StmtFront {
            tree: Stmt::Expr {
                at: self.reader.start_at(at),
                value: Boxed::new(self.reader.alloc, value.tree)?,
            },
            depth: value.depth,
            next: value.next,
            closed: true,
        }))
    }

    /// A statement that begins with a word.
    fn word_stmt_at(
        &self,
        at: usize,
        word: Word,
        around: Around,
        limit: usize,
    ) -> Result<Option<StmtFront>, NoMemory>
        requires exprs { NestsExpr self.now.bound (E.pre self.now.expr) (E.post self.now.expr) }
        requires blocks { NestsBlock self.now.bound (B.pre self.now.block) (B.post self.now.block) }
        requires stmts { NestsStmt self.now.inner (S.pre self.now.stmt) (S.post self.now.stmt) }
        requires below { limit ≤ self.now.bound }
        requires inner { limit ≤ self.now.inner }
        requires stands { Stands self.now.reader at (shapes.word word (text_at self.now.reader at) (start_at self.now.reader at)) }
        ensures { IfOk result (λ o. ReadsStmt (rules.around_of around) limit self.now.reader at o) }
    {
        match word {
            Word::If => self.if_at(at, around, limit),
            Word::While => self.while_at(at, around, limit),
            Word::Do => self.do_at(at, around, limit),
            Word::For => self.for_at(at, around, limit),
            Word::Return => self.return_at(at, around, limit),
            Word::Break => Ok(self.break_at(at, around, limit)),
            Word::Continue => Ok(self.continue_at(at, around, limit)),
            Word::Throw => self.throw_at(at, around, limit),
            Word::Switch => self.switch_at(at, around, limit),
            _ => self.expr_stmt_at(at, around, limit),
        }
    }

    /// `;`.
    fn empty_at(&self, at: usize, around: Around, limit: usize) -> StmtFront
        requires stands { Stands self.now.reader at (sym.Mark Mark.Semicolon (start_at self.now.reader at)) }
        ensures { ReadsStmt (rules.around_of around) limit self.now.reader at (Some result) }
    {
        StmtFront {
            tree: Stmt::Empty {
                at: self.reader.start_at(at),
            },
            depth: 0,
            next: at + 1,
            closed: true,
        }
    }

    /// A statement that begins with a mark.
    fn mark_stmt_at(
        &self,
        at: usize,
        mark: Mark,
        around: Around,
        limit: usize,
    ) -> Result<Option<StmtFront>, NoMemory>
        requires exprs { NestsExpr self.now.bound (E.pre self.now.expr) (E.post self.now.expr) }
        requires blocks { NestsBlock self.now.bound (B.pre self.now.block) (B.post self.now.block) }
        requires below { limit ≤ self.now.bound }
        requires stands { Stands self.now.reader at (sym.Mark mark (start_at self.now.reader at)) }
        ensures { IfOk result (λ o. ReadsStmt (rules.around_of around) limit self.now.reader at o) }
    {
        match mark {
            Mark::OpenBrace => self.block_stmt_at(at, around, limit),
            Mark::Semicolon => Ok(Some(self.empty_at(at, around, limit))),
            _ => self.expr_stmt_at(at, around, limit),
        }
    }

    /// A statement.
    pub(crate) fn statement_at(
        &self,
        at: usize,
        around: Around,
        limit: usize,
    ) -> Result<Option<StmtFront>, NoMemory>
        requires exprs { NestsExpr self.now.bound (E.pre self.now.expr) (E.post self.now.expr) }
        requires blocks { NestsBlock self.now.bound (B.pre self.now.block) (B.post self.now.block) }
        requires stmts { NestsStmt self.now.inner (S.pre self.now.stmt) (S.post self.now.stmt) }
        requires within { at ≤ length self.now.reader.tokens.now }
        requires below { limit ≤ self.now.bound }
        requires inner { limit ≤ self.now.inner }
        ensures { IfOk result (λ o. ReadsStmt (rules.around_of around) limit self.now.reader at o) }
    {
        match self.reader.symbol(at) {
            Some(Symbol::Class(Class::Word(word))) => self.word_stmt_at(at, word, around, limit),
            Some(Symbol::Mark(mark)) => self.mark_stmt_at(at, mark, around, limit),
            _ => self.expr_stmt_at(at, around, limit),
        }
    }
}
