//! Declarations of variables.

ghost use Rattle.std.specs.Prelude.{◌≡◌, ◌≤◌, true, length, IfOk};
ghost use Rattle.tb_tree.specs.Exprs as exprs;
ghost use Rattle.tb_tree.specs.Longest.{Never};
ghost use Rattle.tb_parse_type.specs.Reading.{rest};
ghost use Rattle.tb_parse_body.specs.Nests.{NestsExpr};
ghost use Rattle.tb_parse_body.specs.Reading.{Reads};
ghost use Rattle.tb_parse_body.specs.Rules as rules;

use crate::fronts::Front;
use crate::nests::Grammar;
use crate::operators::{kind_at, larger, name_at};
use crate::params::annotation_at;
use sqlite_items::{Boxed, Items};
use tb_parse_type::Reader;
use tb_text::NoMemory;
use tb_tree::{Declarator, Expr, Mark, Var, VarKind};

/// Whether a variable of a kind may have this value or none: a constant has one.
fn is_valued(kind: VarKind, value: &Option<Boxed<Expr>>) -> bool
    ensures { result ≡ exprs.is_valued kind value.now }
{
    match kind {
        VarKind::Const => match value {
            Some(_) => true,
            None => false,
        },
        VarKind::Let => true,
    }
}

impl<E: Fn(Reader<'_>, usize, bool, usize) -> Result<Option<Front<Expr>>, NoMemory>, B, S> Grammar<
    '_,
    E,
    B,
    S,
> {
    fn declarator_at(
        &self,
        kind: VarKind,
        at: usize,
        limit: usize,
    ) -> Result<Option<Front<Declarator>>, NoMemory>
        requires exprs { NestsExpr self.now.bound (E.pre self.now.expr) (E.post self.now.expr) }
        requires below { limit ≤ self.now.bound }
        ensures { IfOk result (λ o. Reads (rules.DeclaratorUpto kind limit) (rules.InExpr true) self.now.reader at o) }
    {
        let Some(_word) = name_at(&self.reader, at) else {
            return Ok(None);
        };
        let annotation = annotation_at(self.reader, at + 1, limit)?;
        let value = self.value_at(annotation.next, limit)?;
        if !is_valued(kind, &value.tree) {
            return Ok(None);
        }
        let name = self.reader.text_at(at)?;
        Ok(Some(Front {
            tree: Declarator {
                at: self.reader.start_at(at),
                name,
                annotation: annotation.tree,
                value: value.tree,
            },
            depth: larger(annotation.depth, value.depth),
            next: value.next,
        }))
    }

    /// `,` and a declarator behind one.
    fn next_declarator_at(
        &self,
        kind: VarKind,
        at: usize,
        limit: usize,
    ) -> Result<Option<Front<Declarator>>, NoMemory>
        requires exprs { NestsExpr self.now.bound (E.pre self.now.expr) (E.post self.now.expr) }
        requires below { limit ≤ self.now.bound }
        ensures { IfOk result (λ o. Reads (rules.NextDeclaratorUpto kind limit) (rules.InExpr true) self.now.reader at o) }
    {
        if !self.reader.is_mark(at, Mark::Comma) {
            return Ok(None);
        }
        let next = self.declarator_at(kind, at + 1, limit)?;
        Ok(next)
    }

    /// Declarators with commas between.
    fn declarators_at(
        &self,
        kind: VarKind,
        at: usize,
        limit: usize,
    ) -> Result<Option<Front<Items<Declarator>>>, NoMemory>
        requires exprs { NestsExpr self.now.bound (E.pre self.now.expr) (E.post self.now.expr) }
        requires below { limit ≤ self.now.bound }
        ensures { IfOk result (λ o. Reads (rules.DeclaratorsUpto kind limit) rules.InDeclarators self.now.reader at o) }
    {
        let Some(first) = self.declarator_at(kind, at, limit)? else {
            return Ok(None);
        };
        let mut declarators = Items::new(self.reader.alloc);
        declarators.push(first.tree)?;
        let mut depth = first.depth;
        let mut next = first.next;
        while let Some(declarator) = self.next_declarator_at(kind, next, limit)? {
            declarators.push(declarator.tree)?;
            depth = larger(depth, declarator.depth);
            next = declarator.next;
        }
        Ok(Some(Front {
            tree: declarators,
            depth,
            next,
        }))
    }

    /// `const` or `let`, declarators, and `;`.
    pub(crate) fn var_at(&self, at: usize, limit: usize) -> Result<Option<Front<Var>>, NoMemory>
        requires exprs { NestsExpr self.now.bound (E.pre self.now.expr) (E.post self.now.expr) }
        requires below { limit ≤ self.now.bound }
        ensures { IfOk result (λ o. Reads (rules.VarUpto limit) Never self.now.reader at o) }
    {
        let Some(kind) = kind_at(&self.reader, at) else {
            return Ok(None);
        };
        let Some(declarators) = self.declarators_at(kind, at + 1, limit)? else {
            return Ok(None);
        };
        if !self.reader.is_mark(declarators.next, Mark::Semicolon) {
            return Ok(None);
        }
        Ok(Some(Front {
            tree: Var {
                kind,
                declarators: declarators.tree,
            },
            depth: declarators.depth,
            next: declarators.next + 1,
        }))
    }
}
