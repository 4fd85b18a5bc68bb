//! `switch` and its clauses.

ghost use Rattle.std.specs.Prelude.{◌≡◌, ◌≤◌, ◌<◌, ◌+◌, true, false, length, IfOk, ◌||◌};
ghost use Rattle.tb_tree.specs.Shapes as shapes;
ghost use Rattle.tb_tree.specs.Exprs as exprs;
ghost use Rattle.tb_tree.specs.Longest.{Never};
ghost use Rattle.tb_parse_type.specs.Reading.{rest, text_at, start_at, Stands};
ghost use Rattle.tb_parse_body.specs.Nests.{NestsExpr, NestsBlock, NestsStmt};
ghost use Rattle.tb_parse_body.specs.Reading.{Reads, ReadsOne, ReadsStmt};
ghost use Rattle.tb_parse_body.specs.Rules as rules;

use crate::fronts::{Around, Front, StmtFront};
use crate::nests::Grammar;
use crate::operators::larger;
use sqlite_items::{Boxed, Items};
use tb_parse_type::Reader;
use tb_text::NoMemory;
use tb_tree::{Block, Clause, Expr, Mark, Stmt, Word};

/// One of both.
fn either(a: bool, b: bool) -> bool
    ensures { result ≡ (a || b) }
{
    a || b
}

impl<E: Fn(Reader<'_>, usize, bool, usize) -> Result<Option<Front<Expr>>, NoMemory>, B, S> Grammar<
    '_,
    E,
    B,
    S,
> {
    /// The value of a `case`, in a box.
    fn case_value_at(&self, at: usize, limit: usize) -> Result<Option<Front<Boxed<Expr>>>, NoMemory>
        requires exprs { NestsExpr self.now.bound (E.pre self.now.expr) (E.post self.now.expr) }
        requires within { at ≤ length self.now.reader.tokens.now }
        requires below { limit ≤ self.now.bound }
        ensures { IfOk result (λ o. Reads (rules.ExprUpto false limit) (rules.InExpr false) self.now.reader at o) }
    {
        let Some(value) = self.expr_inside(at, false, limit)? else {
            return Ok(None);
        };
        Ok(Some(Front {
            tree: Boxed::new(self.reader.alloc, value.tree)?,
            depth: value.depth,
            next: value.next,
        }))
    }
}

impl<
    E: Fn(Reader<'_>, usize, bool, usize) -> Result<Option<Front<Expr>>, NoMemory>,
    B: Fn(Reader<'_>, usize, Around, usize) -> Result<Option<Front<Block>>, NoMemory>,
    S: Fn(Reader<'_>, usize, Around, usize) -> Result<Option<StmtFront>, NoMemory>,
> Grammar<'_, E, B, S> {
    /// `case Expr :`, and what stands behind it.
    fn case_at(
        &self,
        at: usize,
        around: Around,
        limit: usize,
    ) -> Result<Option<Front<Clause>>, NoMemory>
        requires exprs { NestsExpr self.now.bound (E.pre self.now.expr) (E.post self.now.expr) }
        requires blocks { NestsBlock self.now.bound (B.pre self.now.block) (B.post self.now.block) }
        requires stmts { NestsStmt self.now.inner (S.pre self.now.stmt) (S.post self.now.stmt) }
        requires below { limit ≤ self.now.bound }
        requires inner { limit < self.now.inner }
        ensures { IfOk result (λ o. Reads (rules.CaseUpto (rules.around_of around) limit) rules.InItems self.now.reader at o) }
    {
        if !self.reader.is_word(at, Word::Case) {
            return Ok(None);
        }
        let Some(value) = self.case_value_at(at + 1, limit)? else {
            return Ok(None);
        };
        if !self.reader.is_mark(value.next, Mark::Colon) {
            return Ok(None);
        }
        let items = self.block_items_at(value.next + 1, around, limit)?;
        Ok(Some(Front {
            tree: Clause::Case {
                at: self.reader.start_at(at),
                value: value.tree,
                items: items.tree,
            },
            depth: larger(value.depth, items.depth),
            next: items.next,
        }))
    }

    /// `default :`, and what stands behind it.
    fn default_clause_at(
        &self,
        at: usize,
        around: Around,
        limit: usize,
    ) -> Result<Option<Front<Clause>>, NoMemory>
        requires exprs { NestsExpr self.now.bound (E.pre self.now.expr) (E.post self.now.expr) }
        requires blocks { NestsBlock self.now.bound (B.pre self.now.block) (B.post self.now.block) }
        requires stmts { NestsStmt self.now.inner (S.pre self.now.stmt) (S.post self.now.stmt) }
        requires below { limit ≤ self.now.bound }
        requires inner { limit < self.now.inner }
        ensures { IfOk result (λ o. Reads (rules.DefaultClauseUpto (rules.around_of around) limit) rules.InItems self.now.reader at o) }
    {
        if !self.reader.is_word(at, Word::Default) {
            return Ok(None);
        }
        if !self.reader.is_mark(at + 1, Mark::Colon) {
            return Ok(None);
        }
        let items = self.block_items_at(at + 2, around, limit)?;
        Ok(Some(Front {
            tree: Clause::Default {
                at: self.reader.start_at(at),
                items: items.tree,
            },
            depth: items.depth,
            next: items.next,
        }))
    }

    /// A clause, and whether it is `default`; that it may be only where none was before.
    fn clause_at(
        &self,
        at: usize,
        before: bool,
        around: Around,
        limit: usize,
    ) -> Result<Option<Front<(Clause, bool)>>, NoMemory>
        requires exprs { NestsExpr self.now.bound (E.pre self.now.expr) (E.post self.now.expr) }
        requires blocks { NestsBlock self.now.bound (B.pre self.now.block) (B.post self.now.block) }
        requires stmts { NestsStmt self.now.inner (S.pre self.now.stmt) (S.post self.now.stmt) }
        requires below { limit ≤ self.now.bound }
        requires inner { limit < self.now.inner }
        ensures { IfOk result (λ o. Reads (rules.ClauseUpto before (rules.around_of around) limit) rules.InItems self.now.reader at o) }
    {
        if let Some(case) = self.case_at(at, around, limit)? {
            return Ok(Some(Front {
                tree: (case.tree, false),
                depth: case.depth,
                next: case.next,
            }));
        }
        if before {
            return Ok(None);
        }
        let Some(default) = self.default_clause_at(at, around, limit)? else {
            return Ok(None);
        };
        Ok(Some(Front {
            tree: (default.tree, true),
            depth: default.depth,
            next: default.next,
        }))
    }

    /// Clauses, of which one may be `default`.
    fn clauses_at(
        &self,
        at: usize,
        around: Around,
        limit: usize,
    ) -> Result<Front<Items<Clause>>, NoMemory>
        requires exprs { NestsExpr self.now.bound (E.pre self.now.expr) (E.post self.now.expr) }
        requires blocks { NestsBlock self.now.bound (B.pre self.now.block) (B.post self.now.block) }
        requires stmts { NestsStmt self.now.inner (S.pre self.now.stmt) (S.post self.now.stmt) }
        requires within { at ≤ length self.now.reader.tokens.now }
        requires below { limit ≤ self.now.bound }
        requires inner { limit < self.now.inner }
        ensures { IfOk result (λ x. ReadsOne (rules.ClausesUpto false (rules.around_of around) limit) rules.InClauses self.now.reader at x) }
    {
        let mut clauses = Items::new(self.reader.alloc);
        let mut defaulted = false;
        let mut depth = 0;
        let mut next = at;
        while let Some(clause) = self.clause_at(next, defaulted, around, limit)? {
            let (tree, default) = clause.tree;
            clauses.push(tree)?;
            defaulted = either(defaulted, default);
            depth = larger(depth, clause.depth);
            next = clause.next;
        }
        Ok(Front {
            tree: clauses,
            depth,
            next,
        })
    }

    /// Clauses in braces.
    fn clauses_in_braces_at(
        &self,
        at: usize,
        around: Around,
        limit: usize,
    ) -> Result<Option<Front<Items<Clause>>>, NoMemory>
        requires exprs { NestsExpr self.now.bound (E.pre self.now.expr) (E.post self.now.expr) }
        requires blocks { NestsBlock self.now.bound (B.pre self.now.block) (B.post self.now.block) }
        requires stmts { NestsStmt self.now.inner (S.pre self.now.stmt) (S.post self.now.stmt) }
        requires below { limit ≤ self.now.bound }
        requires inner { limit < self.now.inner }
        ensures { IfOk result (λ o. Reads (rules.BracedClausesUpto (rules.around_of around) limit) Never self.now.reader at o) }
    {
        if !self.reader.is_mark(at, Mark::OpenBrace) {
            return Ok(None);
        }
        let clauses = self.clauses_at(at + 1, around, limit)?;
        if !self.reader.is_mark(clauses.next, Mark::CloseBrace) {
            return Ok(None);
        }
        Ok(Some(Front {
            tree: clauses.tree,
            depth: clauses.depth,
            next: clauses.next + 1,
        }))
    }

    pub(crate) fn switch_at(
        &self,
        at: usize,
        around: Around,
        limit: usize,
    ) -> Result<Option<StmtFront>, NoMemory>
        requires exprs { NestsExpr self.now.bound (E.pre self.now.expr) (E.post self.now.expr) }
        requires blocks { NestsBlock self.now.bound (B.pre self.now.block) (B.post self.now.block) }
        requires stmts { NestsStmt self.now.inner (S.pre self.now.stmt) (S.post self.now.stmt) }
        requires below { limit ≤ self.now.bound }
        requires inner { limit ≤ self.now.inner }
        requires stands { Stands self.now.reader at (shapes.word Word.Switch (text_at self.now.reader at) (start_at self.now.reader at)) }
        ensures { IfOk result (λ o. ReadsStmt (rules.around_of around) limit self.now.reader at o) }
    {
        if limit == 0 {
            return Ok(None);
        }
        let Some(subject) = self.head_at(at + 1, limit - 1)? else {
            return Ok(None);
        };
        let Some(clauses) = self.clauses_in_braces_at(
            subject.next,
            around.in_a_switch(),
            limit - 1,
        )?
        else {
            return Ok(None);
        };
        Ok(Some(StmtFront {
            tree: Stmt::Switch {
                at: self.reader.start_at(at),
                subject: subject.tree,
                clauses: clauses.tree,
            },
            depth: larger(subject.depth, clauses.depth) + 1,
            next: clauses.next,
            closed: true,
        }))
    }
}
