//! Statements.

ghost use Rattle.std.specs.Prelude.{◌||◌, ◌≡◌, ◌≤◌, ◌<◌, ◌+◌, ℕ, List, ◌∷◌, true, length, MatchOption, IfOk};
ghost use Rattle.tb_tree.specs.Sym as sym;
ghost use Rattle.tb_tree.specs.Words as words;
ghost use Rattle.tb_tree.specs.Shapes as shapes;
ghost use Rattle.tb_tree.specs.Exprs as exprs;
ghost use Rattle.tb_tree.specs.Longest.{Never};
ghost use Rattle.tb_parse_type.specs.Reading.{rest, text_at, start_at, Stands, LacksSym};
ghost use Rattle.tb_parse_body.specs.Nests.{NestsExpr, NestsBlock, NestsStmt};
ghost use Rattle.tb_parse_body.specs.Reading.{Reads, ReadsOne, ReadsStmt};
ghost use Rattle.tb_parse_body.specs.Elses.{ReadsElse, ReadsBoxed};
ghost use Rattle.tb_parse_body.specs.Rules as rules;

use crate::fronts::{Around, Front, StmtFront};
use crate::nests::Grammar;
use crate::operators::{kind_at, larger, name_at};
use sqlite_items::{Boxed, Items};
use tb_parse_type::{Reader, Symbol};
use tb_text::NoMemory;
use tb_tree::{Block, Class, Clause, Expr, ForStart, Identifier, Mark, Stmt, VarKind, Word};

/// A statement that was read, in a box.
#[derive(Drop)]
pub struct BoxedStmtFront {
    pub tree: Boxed<Stmt>,
    pub depth: usize,
    pub next: usize,
    pub closed: bool,
}

impl Around {
    /// Whether a `break` may stand there.
    pub(crate) fn takes_break(self) -> bool
        ensures { result ≡ ((rules.around_of self).in_loop || (rules.around_of self).in_switch) }
    {
        self.in_loop || self.in_switch
    }

    pub(crate) fn in_a_loop(self) -> Around
        ensures { rules.around_of result ≡ exprs.a_loop (rules.around_of self) }
    {
        Around {
            in_body: self.in_body,
            in_loop: true,
            in_switch: self.in_switch,
        }
    }

    pub(crate) fn in_a_switch(self) -> Around
        ensures { rules.around_of result ≡ exprs.a_switch (rules.around_of self) }
    {
        Around {
            in_body: self.in_body,
            in_loop: self.in_loop,
            in_switch: true,
        }
    }
}

impl<E: Fn(Reader<'_>, usize, bool, usize) -> Result<Option<Front<Expr>>, NoMemory>, B, S> Grammar<
    '_,
    E,
    B,
    S,
> {
    /// `( Expr )`.
    pub(crate) fn head_at(
        &self,
        at: usize,
        limit: usize,
    ) -> Result<Option<Front<Boxed<Expr>>>, NoMemory>
        requires exprs { NestsExpr self.now.bound (E.pre self.now.expr) (E.post self.now.expr) }
        requires below { limit ≤ self.now.bound }
        ensures { IfOk result (λ o. Reads (rules.HeadUpto limit) Never self.now.reader at o) }
    {
        if !self.reader.is_mark(at, Mark::OpenParen) {
            return Ok(None);
        }
        let Some(of) = self.expr_inside(at + 1, true, limit)? else {
            return Ok(None);
        };
        if !self.reader.is_mark(of.next, Mark::CloseParen) {
            return Ok(None);
        }
        Ok(Some(Front {
            tree: Boxed::new(self.reader.alloc, of.tree)?,
            depth: of.depth,
            next: of.next + 1,
        }))
    }

    /// `Expr?` and a mark that ends expressions.
    pub(crate) fn closed_at(
        &self,
        at: usize,
        mark: Mark,
        limit: usize,
    ) -> Result<Option<Front<Option<Boxed<Expr>>>>, NoMemory>
        requires exprs { NestsExpr self.now.bound (E.pre self.now.expr) (E.post self.now.expr) }
        requires within { at ≤ length self.now.reader.tokens.now }
        requires below { limit ≤ self.now.bound }
        requires ends { (o : ℕ) → rules.is_end (sym.Mark mark o) ≡ true }
        ensures { IfOk result (λ o. Reads (rules.EndedUpto mark limit) Never self.now.reader at o) }
    {
        if self.reader.is_mark(at, mark) {
            return Ok(Some(Front {
                tree: None,
                depth: 0,
                next: at + 1,
            }));
        }
        let Some(of) = self.expr_inside(at, true, limit)? else {
            return Ok(None);
        };
        if !self.reader.is_mark(of.next, mark) {
            return Ok(None);
        }
        Ok(Some(Front {
            tree: Some(Boxed::new(self.reader.alloc, of.tree)?),
            depth: of.depth,
            next: of.next + 1,
        }))
    }

    /// `Expr ;`.
    pub(crate) fn sentence_at(
        &self,
        at: usize,
        limit: usize,
    ) -> Result<Option<Front<Expr>>, NoMemory>
        requires exprs { NestsExpr self.now.bound (E.pre self.now.expr) (E.post self.now.expr) }
        requires within { at ≤ length self.now.reader.tokens.now }
        requires below { limit ≤ self.now.bound }
        ensures { IfOk result (λ o. Reads (rules.SentenceUpto limit) Never self.now.reader at o) }
    {
        let Some(of) = self.expr_inside(at, true, limit)? else {
            return Ok(None);
        };
        if !self.reader.is_mark(of.next, Mark::Semicolon) {
            return Ok(None);
        }
        Ok(Some(Front {
            tree: of.tree,
            depth: of.depth,
            next: of.next + 1,
        }))
    }
}

impl<E, B, S: Fn(Reader<'_>, usize, Around, usize) -> Result<Option<StmtFront>, NoMemory>> Grammar<
    '_,
    E,
    B,
    S,
> {
    /// A statement inside, in a box.
    pub(crate) fn boxed_stmt_at(
        &self,
        at: usize,
        around: Around,
        limit: usize,
    ) -> Result<Option<BoxedStmtFront>, NoMemory>
        requires stmts { NestsStmt self.now.inner (S.pre self.now.stmt) (S.post self.now.stmt) }
        requires within { at ≤ length self.now.reader.tokens.now }
        requires below { limit < self.now.inner }
        ensures { IfOk result (λ o. ReadsBoxed (rules.around_of around) limit self.now.reader at o) }
    {
        let Some(of) = self.stmt_inside(at, around, limit)? else {
            return Ok(None);
        };
        Ok(Some(BoxedStmtFront {
            tree: Boxed::new(self.reader.alloc, of.tree)?,
            depth: of.depth,
            next: of.next,
            closed: of.closed,
        }))
    }

    /// `else` and a statement, which may follow a statement that is closed.
    fn else_at(
        &self,
        at: usize,
        closed: bool,
        around: Around,
        limit: usize,
    ) -> Result<Option<BoxedStmtFront>, NoMemory>
        requires stmts { NestsStmt self.now.inner (S.pre self.now.stmt) (S.post self.now.stmt) }
        requires inner { limit < self.now.inner }
        ensures { IfOk result (λ o. ReadsElse (rules.around_of around) limit closed self.now.reader at o) }
    {
        if !closed {
            return Ok(None);
        }
        if !self.reader.is_word(at, Word::Else) {
            return Ok(None);
        }
        let otherwise = self.boxed_stmt_at(at + 1, around, limit)?;
        Ok(otherwise)
    }
}

impl<
    E: Fn(Reader<'_>, usize, bool, usize) -> Result<Option<Front<Expr>>, NoMemory>,
    B: Fn(Reader<'_>, usize, Around, usize) -> Result<Option<Front<Block>>, NoMemory>,
    S: Fn(Reader<'_>, usize, Around, usize) -> Result<Option<StmtFront>, NoMemory>,
> Grammar<'_, E, B, S> {
    pub(crate) fn if_at(
        &self,
        at: usize,
        around: Around,
        limit: usize,
    ) -> Result<Option<StmtFront>, NoMemory>
        requires exprs { NestsExpr self.now.bound (E.pre self.now.expr) (E.post self.now.expr) }
        requires stmts { NestsStmt self.now.inner (S.pre self.now.stmt) (S.post self.now.stmt) }
        requires below { limit ≤ self.now.bound }
        requires inner { limit ≤ self.now.inner }
        requires stands { Stands self.now.reader at (shapes.word Word.If (text_at self.now.reader at) (start_at self.now.reader at)) }
        ensures { IfOk result (λ o. ReadsStmt (rules.around_of around) limit self.now.reader at o) }
    {
        if limit == 0 {
            return Ok(None);
        }
        let Some(condition) = self.head_at(at + 1, limit - 1)? else {
            return Ok(None);
        };
        let Some(then) = self.boxed_stmt_at(condition.next, around, limit - 1)? else {
            return Ok(None);
        };
        let depth = larger(condition.depth, then.depth);
        let start = self.reader.start_at(at);
        let Some(otherwise) = self.else_at(then.next, then.closed, around, limit - 1)? else {
            return Ok(Some(StmtFront {
                tree: Stmt::If {
                    at: start,
                    condition: condition.tree,
                    then: then.tree,
                    otherwise: None,
                },
                depth: depth + 1,
                next: then.next,
                closed: false,
            }));
        };
        Ok(Some(StmtFront {
            tree: Stmt::If {
                at: start,
                condition: condition.tree,
                then: then.tree,
                otherwise: Some(otherwise.tree),
            },
            depth: larger(depth, otherwise.depth) + 1,
            next: otherwise.next,
            closed: otherwise.closed,
        }))
    }

    pub(crate) fn while_at(
        &self,
        at: usize,
        around: Around,
        limit: usize,
    ) -> Result<Option<StmtFront>, NoMemory>
        requires exprs { NestsExpr self.now.bound (E.pre self.now.expr) (E.post self.now.expr) }
        requires stmts { NestsStmt self.now.inner (S.pre self.now.stmt) (S.post self.now.stmt) }
        requires below { limit ≤ self.now.bound }
        requires inner { limit ≤ self.now.inner }
        requires stands { Stands self.now.reader at (shapes.word Word.While (text_at self.now.reader at) (start_at self.now.reader at)) }
        ensures { IfOk result (λ o. ReadsStmt (rules.around_of around) limit self.now.reader at o) }
    {
        if limit == 0 {
            return Ok(None);
        }
        let Some(condition) = self.head_at(at + 1, limit - 1)? else {
            return Ok(None);
        };
        let Some(body) = self.boxed_stmt_at(condition.next, around.in_a_loop(), limit - 1)? else {
            return Ok(None);
        };
        Ok(Some(StmtFront {
            tree: Stmt::While {
                at: self.reader.start_at(at),
                condition: condition.tree,
                body: body.tree,
            },
            depth: larger(condition.depth, body.depth) + 1,
            next: body.next,
            closed: body.closed,
        }))
    }

    pub(crate) fn do_at(
        &self,
        at: usize,
        around: Around,
        limit: usize,
    ) -> Result<Option<StmtFront>, NoMemory>
        requires exprs { NestsExpr self.now.bound (E.pre self.now.expr) (E.post self.now.expr) }
        requires stmts { NestsStmt self.now.inner (S.pre self.now.stmt) (S.post self.now.stmt) }
        requires below { limit ≤ self.now.bound }
        requires inner { limit ≤ self.now.inner }
        requires stands { Stands self.now.reader at (shapes.word Word.Do (text_at self.now.reader at) (start_at self.now.reader at)) }
        ensures { IfOk result (λ o. ReadsStmt (rules.around_of around) limit self.now.reader at o) }
    {
        if limit == 0 {
            return Ok(None);
        }
        let Some(body) = self.boxed_stmt_at(at + 1, around.in_a_loop(), limit - 1)? else {
            return Ok(None);
        };
        if !self.reader.is_word(body.next, Word::While) {
            return Ok(None);
        }
        let Some(condition) = self.head_at(body.next + 1, limit - 1)? else {
            return Ok(None);
        };
        if !self.reader.is_mark(condition.next, Mark::Semicolon) {
            return Ok(None);
        }
        Ok(Some(StmtFront {
            tree: Stmt::Do {
                at: self.reader.start_at(at),
                body: body.tree,
                condition: condition.tree,
            },
            depth: larger(body.depth, condition.depth) + 1,
            next: condition.next + 1,
            closed: true,
        }))
    }
}
