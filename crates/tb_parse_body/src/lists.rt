//! Lists of expressions and of properties, and the spans of a template.

ghost use Rattle.std.specs.Prelude.{◌≡◌, ◌≤◌, ◌<◌, ℕ, true, List, length, IfOk, MatchBool, MatchOption, Some};
ghost use Rattle.tb_tree.specs.Sym as sym;
ghost use Rattle.tb_tree.specs.Shapes as shapes;
ghost use Rattle.tb_tree.specs.Longest.{Never};
ghost use Rattle.tb_parse_type.specs.Reading.{rest, text_at, start_at, Stands, LacksSym};
ghost use Rattle.tb_parse_body.specs.Nests.{NestsExpr};
ghost use Rattle.tb_parse_body.specs.Reading.{Reads, ReadsOne};
ghost use Rattle.tb_parse_body.specs.Rules as rules;

use crate::fronts::Front;
use crate::nests::Grammar;
use crate::operators::{larger, name_at};
use sqlite_items::{Boxed, Items};
use tb_parse_type::Reader;
use tb_text::NoMemory;
use tb_tree::{Class, Expr, Key, Mark, Prop, Template, TemplateSpan};

/// The key at a place.
fn key_at(reader: &Reader<'_>, at: usize) -> Result<Option<Key>, NoMemory>
    ensures { IfOk result (λ o. MatchOption o
        ((s : sym.Sym) (key : Key) → shapes.key_of s ≡ Some key → LacksSym reader.now at s)
        (λ key. (s : sym.Sym) × Stands reader.now at s × (shapes.key_of s ≡ Some key)
        × (sym.at_of s ≡ start_at reader.now at))) }
{
    match reader.class_at(at) {
        Some(Class::Word(_)) => Ok(Some(Key::Word(reader.text_at(at)?))),
        Some(Class::String) => Ok(Some(Key::String(reader.text_at(at)?))),
        _ => Ok(None),
    }
}

/// Whether this part of a template stands at a place.
fn is_template(reader: &Reader<'_>, at: usize, part: Template) -> bool
    ensures { MatchBool result
        (Stands reader.now at (sym.Lex (Class.Template part) (text_at reader.now at) (start_at reader.now at)))
        ((w : List ℕ) (o : ℕ) → LacksSym reader.now at (sym.Lex (Class.Template part) w o)) }
{
    match reader.class_at(at) {
        Some(Class::Template(found)) => found == part,
        _ => false,
    }
}

impl<E: Fn(Reader<'_>, usize, bool, usize) -> Result<Option<Front<Expr>>, NoMemory>, B, S> Grammar<
    '_,
    E,
    B,
    S,
> {
    /// Expressions with commas, and an optional last comma.
    pub(crate) fn exprs_at(&self, at: usize, limit: usize) -> Result<Front<Items<Expr>>, NoMemory>
        requires exprs { NestsExpr self.now.bound (E.pre self.now.expr) (E.post self.now.expr) }
        requires within { at ≤ length self.now.reader.tokens.now }
        requires below { limit ≤ self.now.bound }
        ensures { IfOk result (λ x. ReadsOne (rules.ExprsUpto limit) rules.InList self.now.reader at x) }
    {
        let mut exprs = Items::new(self.reader.alloc);
        let mut depth = 0;
        let mut next = at;
        while let Some(expr) = self.expr_inside(next, true, limit)? {
            exprs.push(expr.tree)?;
            depth = larger(depth, expr.depth);
            if !self.reader.is_mark(expr.next, Mark::Comma) {
                return Ok(Front {
                    tree: exprs,
                    depth,
                    next: expr.next,
                });
            }
            next = expr.next + 1;
        }
        Ok(Front {
            tree: exprs,
            depth,
            next,
        })
    }

    /// A key with its value.
    fn valued_prop_at(&self, at: usize, limit: usize) -> Result<Option<Front<Prop>>, NoMemory>
        requires exprs { NestsExpr self.now.bound (E.pre self.now.expr) (E.post self.now.expr) }
        requires below { limit ≤ self.now.bound }
        ensures { IfOk result (λ o. Reads (rules.ValuedPropUpto limit) (rules.InExpr true) self.now.reader at o) }
    {
        let Some(key) = key_at(&self.reader, at)? else {
            return Ok(None);
        };
        if !self.reader.is_mark(at + 1, Mark::Colon) {
            return Ok(None);
        }
        let Some(value) = self.expr_inside(at + 2, true, limit)? else {
            return Ok(None);
        };
        Ok(Some(Front {
            tree: Prop::Valued {
                at: self.reader.start_at(at),
                key,
                value: Boxed::new(self.reader.alloc, value.tree)?,
            },
            depth: value.depth,
            next: value.next,
        }))
    }

    fn prop_at(&self, at: usize, limit: usize) -> Result<Option<Front<Prop>>, NoMemory>
        requires exprs { NestsExpr self.now.bound (E.pre self.now.expr) (E.post self.now.expr) }
        requires below { limit ≤ self.now.bound }
        ensures { IfOk result (λ o. Reads (rules.PropUpto limit) (rules.InExpr true) self.now.reader at o) }
    {
        if let Some(valued) = self.valued_prop_at(at, limit)? {
            return Ok(Some(valued));
        }
        let Some(_word) = name_at(&self.reader, at) else {
            return Ok(None);
        };
        Ok(Some(Front {
            tree: Prop::Short {
                at: self.reader.start_at(at),
                name: self.reader.text_at(at)?,
            },
            depth: 0,
            next: at + 1,
        }))
    }

    /// Properties with commas, and an optional last comma.
    pub(crate) fn props_at(&self, at: usize, limit: usize) -> Result<Front<Items<Prop>>, NoMemory>
        requires exprs { NestsExpr self.now.bound (E.pre self.now.expr) (E.post self.now.expr) }
        requires within { at ≤ length self.now.reader.tokens.now }
        requires below { limit ≤ self.now.bound }
        ensures { IfOk result (λ x. ReadsOne (rules.PropsUpto limit) rules.InList self.now.reader at x) }
    {
        let mut props = Items::new(self.reader.alloc);
        let mut depth = 0;
        let mut next = at;
        while let Some(prop) = self.prop_at(next, limit)? {
            props.push(prop.tree)?;
            depth = larger(depth, prop.depth);
            if !self.reader.is_mark(prop.next, Mark::Comma) {
                return Ok(Front {
                    tree: props,
                    depth,
                    next: prop.next,
                });
            }
            next = prop.next + 1;
        }
        Ok(Front {
            tree: props,
            depth,
            next,
        })
    }

    /// What follows the head of a template: expressions with middles between, up to a tail.
    pub(crate) fn spans_at(
        &self,
        at: usize,
        limit: usize,
    ) -> Result<Option<Front<Items<TemplateSpan>>>, NoMemory>
        requires exprs { NestsExpr self.now.bound (E.pre self.now.expr) (E.post self.now.expr) }
        requires within { at ≤ length self.now.reader.tokens.now }
        requires below { limit ≤ self.now.bound }
        ensures { IfOk result (λ o. Reads (rules.SpansUpto limit) Never self.now.reader at o) }
    {
        let mut spans = Items::new(self.reader.alloc);
        let mut depth = 0;
        let mut next = at;
        while let Some(value) = self.expr_inside(next, true, limit)? {
            let text = self.reader.text_at(value.next)?;
            spans.push(TemplateSpan {
                value: Boxed::new(self.reader.alloc, value.tree)?,
                text,
            })?;
            depth = larger(depth, value.depth);
            if is_template(&self.reader, value.next, Template::Tail) {
                return Ok(Some(Front {
                    tree: spans,
                    depth,
                    next: value.next + 1,
                }));
            }
            if !is_template(&self.reader, value.next, Template::Middle) {
                return Ok(None);
            }
            next = value.next + 1;
        }
        Ok(None)
    }
}
