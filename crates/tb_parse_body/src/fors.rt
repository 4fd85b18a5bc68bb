//! The two forms of `for`.

ghost use Rattle.std.specs.Prelude.{◌≡◌, ◌≤◌, ◌<◌, ◌+◌, ◌-◌, ℕ, List, ◌∷◌, true, length, MatchOption, IfOk, Some};
ghost use Rattle.tb_tree.specs.Sym as sym;
ghost use Rattle.tb_tree.specs.Words as words;
ghost use Rattle.tb_tree.specs.Shapes as shapes;
ghost use Rattle.tb_tree.specs.Exprs as exprs;
ghost use Rattle.tb_tree.specs.Longest.{Never, Lacks};
ghost use Rattle.tb_parse_type.specs.Reading.{rest, text_at, start_at, Stands, LacksSym};
ghost use Rattle.tb_parse_body.specs.Nests.{NestsExpr, NestsStmt};
ghost use Rattle.tb_parse_body.specs.Reading.{Reads, ReadsOne, ReadsStmt};
ghost use Rattle.tb_parse_body.specs.Rules as rules;

use crate::fronts::{Around, Front, StmtFront};
use crate::nests::Grammar;
use crate::operators::{kind_at, larger, name_at};
use sqlite_items::Boxed;
use tb_parse_type::Reader;
use tb_text::NoMemory;
use tb_tree::{Expr, ForStart, Identifier, Mark, Stmt, Var, VarKind, Word};

/// The three parts in the head of a `for`.
#[derive(Drop)]
pub struct ForHead {
    pub start: ForStart,
    pub condition: Option<Boxed<Expr>>,
    pub update: Option<Boxed<Expr>>,
}

/// The parts in the head of a `for` with `of`.
#[derive(Drop)]
pub struct OfHead {
    pub kind: VarKind,
    pub element: Identifier,
    pub subject: Boxed<Expr>,
}

impl<E: Fn(Reader<'_>, usize, bool, usize) -> Result<Option<Front<Expr>>, NoMemory>, B, S> Grammar<
    '_,
    E,
    B,
    S,
> {
    /// An expression inside, in a box.
    fn boxed_expr_at(&self, at: usize, limit: usize) -> Result<Option<Front<Boxed<Expr>>>, NoMemory>
        requires exprs { NestsExpr self.now.bound (E.pre self.now.expr) (E.post self.now.expr) }
        requires within { at ≤ length self.now.reader.tokens.now }
        requires below { limit ≤ self.now.bound }
        ensures { IfOk result (λ o. Reads (rules.ExprUpto true limit) (rules.InExpr true) self.now.reader at o) }
    {
        let Some(of) = self.expr_inside(at, true, limit)? else {
            return Ok(None);
        };
        Ok(Some(Front {
            tree: Boxed::new(self.reader.alloc, of.tree)?,
            depth: of.depth,
            next: of.next,
        }))
    }

    /// Variables, in a box.
    fn boxed_var_at(&self, at: usize, limit: usize) -> Result<Option<Front<Boxed<Var>>>, NoMemory>
        requires exprs { NestsExpr self.now.bound (E.pre self.now.expr) (E.post self.now.expr) }
        requires below { limit ≤ self.now.bound }
        ensures { IfOk result (λ o. Reads (rules.VarUpto limit) Never self.now.reader at o) }
    {
        let Some(of) = self.var_at(at, limit)? else {
            return Ok(None);
        };
        Ok(Some(Front {
            tree: Boxed::new(self.reader.alloc, of.tree)?,
            depth: of.depth,
            next: of.next,
        }))
    }

    /// `( const Name of Expr )`, also with `let`.
    fn of_head_at(&self, at: usize, limit: usize) -> Result<Option<Front<OfHead>>, NoMemory>
        requires exprs { NestsExpr self.now.bound (E.pre self.now.expr) (E.post self.now.expr) }
        requires below { limit ≤ self.now.bound }
        ensures { IfOk result (λ o. Reads (rules.OfHeadUpto limit) Never self.now.reader at o) }
    {
        if !self.reader.is_mark(at, Mark::OpenParen) {
            return Ok(None);
        }
        let Some(kind) = kind_at(&self.reader, at + 1) else {
            return Ok(None);
        };
        let Some(_word) = name_at(&self.reader, at + 2) else {
            return Ok(None);
        };
        if !self.reader.is_word(at + 3, Word::Of) {
            return Ok(None);
        }
        let Some(subject) = self.boxed_expr_at(at + 4, limit)? else {
            return Ok(None);
        };
        if !self.reader.is_mark(subject.next, Mark::CloseParen) {
            return Ok(None);
        }
        let name = self.reader.text_at(at + 2)?;
        Ok(Some(Front {
            tree: OfHead {
                kind,
                element: Identifier {
                    at: self.reader.start_at(at + 2),
                    name,
                },
                subject: subject.tree,
            },
            depth: subject.depth,
            next: subject.next + 1,
        }))
    }

    /// What a `for` begins with: variables, or `Expr? ;`.
    fn for_start_at(&self, at: usize, limit: usize) -> Result<Option<Front<ForStart>>, NoMemory>
        requires exprs { NestsExpr self.now.bound (E.pre self.now.expr) (E.post self.now.expr) }
        requires within { at ≤ length self.now.reader.tokens.now }
        requires below { limit ≤ self.now.bound }
        ensures { IfOk result (λ o. Reads (rules.ForStartUpto limit) Never self.now.reader at o) }
    {
        if let Some(var) = self.boxed_var_at(at, limit)? {
            return Ok(Some(Front {
                tree: ForStart::Var(var.tree),
                depth: var.depth,
                next: var.next,
            }));
        }
        let Some(first) = self.closed_at(at, Mark::Semicolon, limit)? else {
            return Ok(None);
        };
        let Front {
            tree: of,
            depth,
            next,
        } = first;
        let tree = match of {
            Some(of) => ForStart::Expr(of),
            None => ForStart::Nothing,
        };
        Ok(Some(Front { tree, depth, next }))
    }

    /// `(`, what it begins with, `Expr? ; Expr? )`.
    fn for_head_at(&self, at: usize, limit: usize) -> Result<Option<Front<ForHead>>, NoMemory>
        requires exprs { NestsExpr self.now.bound (E.pre self.now.expr) (E.post self.now.expr) }
        requires below { limit ≤ self.now.bound }
        ensures { IfOk result (λ o. Reads (rules.ForHeadUpto limit) Never self.now.reader at o) }
    {
        if !self.reader.is_mark(at, Mark::OpenParen) {
            return Ok(None);
        }
        let Some(start) = self.for_start_at(at + 1, limit)? else {
            return Ok(None);
        };
        let Some(condition) = self.closed_at(start.next, Mark::Semicolon, limit)? else {
            return Ok(None);
        };
        let Some(update) = self.closed_at(condition.next, Mark::CloseParen, limit)? else {
            return Ok(None);
        };
        Ok(Some(Front {
            tree: ForHead {
                start: start.tree,
                condition: condition.tree,
                update: update.tree,
            },
            depth: larger(start.depth, larger(condition.depth, update.depth)),
            next: update.next,
        }))
    }
}

impl<E, B, S: Fn(Reader<'_>, usize, Around, usize) -> Result<Option<StmtFront>, NoMemory>> Grammar<
    '_,
    E,
    B,
    S,
> {
    /// The `for` with `of` whose head was read.
    fn of_body_at(
        &self,
        at: usize,
        head: Front<OfHead>,
        around: Around,
        limit: usize,
    ) -> Result<Option<StmtFront>, NoMemory>
        requires stmts { NestsStmt self.now.inner (S.pre self.now.stmt) (S.post self.now.stmt) }
        requires some { 0 < limit }
        requires inner { limit ≤ self.now.inner }
        requires stands { Stands self.now.reader at (shapes.word Word.For (text_at self.now.reader at) (start_at self.now.reader at)) }
        requires read { ReadsOne (rules.OfHeadUpto (limit - 1)) Never self.now.reader (at + 1) head }
        ensures { IfOk result (λ o. ReadsStmt (rules.around_of around) limit self.now.reader at o) }
    {
        let Some(body) = self.boxed_stmt_at(head.next, around.in_a_loop(), limit - 1)? else {
            return Ok(None);
        };
        Ok(Some(StmtFront {
            tree: Stmt::ForOf {
                at: self.reader.start_at(at),
                kind: head.tree.kind,
                element: head.tree.element,
                subject: head.tree.subject,
                body: body.tree,
            },
            depth: larger(head.depth, body.depth) + 1,
            next: body.next,
            closed: body.closed,
        }))
    }

    /// The `for` without `of` whose head was read.
    fn for_body_at(
        &self,
        at: usize,
        head: Front<ForHead>,
        around: Around,
        limit: usize,
    ) -> Result<Option<StmtFront>, NoMemory>
        requires stmts { NestsStmt self.now.inner (S.pre self.now.stmt) (S.post self.now.stmt) }
        requires some { 0 < limit }
        requires inner { limit ≤ self.now.inner }
        requires stands { Stands self.now.reader at (shapes.word Word.For (text_at self.now.reader at) (start_at self.now.reader at)) }
        requires other { Lacks (rules.OfHeadUpto (limit - 1)) (rest self.now.reader (at + 1)) }
        requires read { ReadsOne (rules.ForHeadUpto (limit - 1)) Never self.now.reader (at + 1) head }
        ensures { IfOk result (λ o. ReadsStmt (rules.around_of around) limit self.now.reader at o) }
    {
        let Some(body) = self.boxed_stmt_at(head.next, around.in_a_loop(), limit - 1)? else {
            return Ok(None);
        };
        Ok(Some(StmtFront {
            tree: Stmt::For {
                at: self.reader.start_at(at),
                start: head.tree.start,
                condition: head.tree.condition,
                update: head.tree.update,
                body: body.tree,
            },
            depth: larger(head.depth, body.depth) + 1,
            next: body.next,
            closed: body.closed,
        }))
    }
}

impl<
    E: Fn(Reader<'_>, usize, bool, usize) -> Result<Option<Front<Expr>>, NoMemory>,
    B,
    S: Fn(Reader<'_>, usize, Around, usize) -> Result<Option<StmtFront>, NoMemory>,
> Grammar<'_, E, B, S> {
    pub(crate) fn for_at(
        &self,
        at: usize,
        around: Around,
        limit: usize,
    ) -> Result<Option<StmtFront>, NoMemory>
        requires exprs { NestsExpr self.now.bound (E.pre self.now.expr) (E.post self.now.expr) }
        requires stmts { NestsStmt self.now.inner (S.pre self.now.stmt) (S.post self.now.stmt) }
        requires below { limit ≤ self.now.bound }
        requires inner { limit ≤ self.now.inner }
        requires stands { Stands self.now.reader at (shapes.word Word.For (text_at self.now.reader at) (start_at self.now.reader at)) }
        ensures { IfOk result (λ o. ReadsStmt (rules.around_of around) limit self.now.reader at o) }
    {
        if limit == 0 {
            return Ok(None);
        }
        if let Some(head) = self.of_head_at(at + 1, limit - 1)? {
            return self.of_body_at(at, head, around, limit);
        }
        let Some(head) = self.for_head_at(at + 1, limit - 1)? else {
            return Ok(None);
        };
        self.for_body_at(at, head, around, limit)
    }
}
