//! Primaries: what chains begin with.

ghost use Rattle.std.specs.Prelude.{◌≡◌, ◌≤◌, ◌<◌, ◌+◌, true, length, IfOk, MatchBool};
ghost use Rattle.tb_tree.specs.Sym as sym;
ghost use Rattle.tb_tree.specs.Shapes as shapes;
ghost use Rattle.tb_tree.specs.Types as types;
ghost use Rattle.tb_tree.specs.Longest.{Never};
ghost use Rattle.tb_parse_type.specs.Reading.{rest, text_at, start_at, Stands};
ghost use Rattle.tb_parse_body.specs.Nests.{NestsExpr};
ghost use Rattle.tb_parse_body.specs.Reading.{Reads};
ghost use Rattle.tb_parse_body.specs.Rules as rules;

use crate::fronts::Front;
use crate::nests::Grammar;
use crate::operators::name_at;
use sqlite_items::{Boxed, Items};
use tb_parse_type::{Reader, Symbol};
use tb_text::NoMemory;
use tb_tree::{Class, Expr, Identifier, Mark, Template, Word, is_name};

/// The truth value that a word is.
fn truth_of(word: Word) -> Option<bool>
    ensures { result ≡ types.truth_of word }
{
    match word {
        Word::True => Some(true),
        Word::False => Some(false),
        _ => None,
    }
}

/// The expression that a word is by itself.
fn word_primary(reader: &Reader<'_>, at: usize, word: Word) -> Result<Option<Expr>, NoMemory>
    ensures { IfOk result (λ o. o ≡ rules.word_primary word (text_at reader.now at) (start_at reader.now at)) }
{
    let start = reader.start_at(at);
    if is_name(word) {
        return Ok(Some(Expr::Name {
            at: start,
            name: reader.text_at(at)?,
        }));
    }
    if let Some(value) = truth_of(word) {
        return Ok(Some(Expr::Boolean { at: start, value }));
    }
    match word {
        Word::This => Ok(Some(Expr::This { at: start })),
        Word::Null => Ok(Some(Expr::Null { at: start })),
        Word::Undefined => Ok(Some(Expr::Undefined { at: start })),
        _ => Ok(None),
    }
}

/// The expression that a token is by itself.
fn single_primary(reader: &Reader<'_>, at: usize, class: Class) -> Result<Option<Expr>, NoMemory>
    ensures { IfOk result (λ o. o ≡ rules.single_primary (sym.Lex class (text_at reader.now at) (start_at reader.now at))) }
{
    let start = reader.start_at(at);
    match class {
        Class::Word(word) => word_primary(reader, at, word),
        Class::Number => Ok(Some(Expr::Number {
            at: start,
            spelled: reader.text_at(at)?,
        })),
        Class::String => Ok(Some(Expr::String {
            at: start,
            spelled: reader.text_at(at)?,
        })),
        Class::Template(Template::Whole) => Ok(Some(Expr::Template {
            at: start,
            head: reader.text_at(at)?,
            spans: Items::new(reader.alloc),
        })),
        Class::Template(_) => Ok(None),
        Class::Bad => Ok(None),
    }
}

/// Whether a template with spans begins with such a token.
fn is_head(class: Class) -> bool
    ensures { MatchBool result (class ≡ Class.Template Template.Head) (class ≡ Class.Template Template.Head → ⊥) }
{
    class == Class::Template(Template::Head)
}

fn is_new(class: Class) -> bool
    ensures { MatchBool result (class ≡ Class.Word Word.New) (class ≡ Class.Word Word.New → ⊥) }
{
    class == Class::Word(Word::New)
}

impl<E: Fn(Reader<'_>, usize, bool, usize) -> Result<Option<Front<Expr>>, NoMemory>, B, S> Grammar<
    '_,
    E,
    B,
    S,
> {
    /// `new Name ( Expr,* )`.
    fn new_at(&self, at: usize, limit: usize) -> Result<Option<Front<Expr>>, NoMemory>
        requires exprs { NestsExpr self.now.bound (E.pre self.now.expr) (E.post self.now.expr) }
        requires some { 0 < limit }
        requires below { limit ≤ self.now.bound + 1 }
        requires stands { Stands self.now.reader at (shapes.word Word.New (text_at self.now.reader at) (start_at self.now.reader at)) }
        ensures { IfOk result (λ o. Reads (rules.PrimaryUpto limit) Never self.now.reader at o) }
    {
        let Some(_word) = name_at(&self.reader, at + 1) else {
            return Ok(None);
        };
        if !self.reader.is_mark(at + 2, Mark::OpenParen) {
            return Ok(None);
        }
        let arguments = self.exprs_at(at + 3, limit - 1)?;
        if !self.reader.is_mark(arguments.next, Mark::CloseParen) {
            return Ok(None);
        }
        let name = self.reader.text_at(at + 1)?;
        Ok(Some(Front {
            tree: Expr::New {
                at: self.reader.start_at(at),
                class: Identifier {
                    at: self.reader.start_at(at + 1),
                    name,
                },
                arguments: arguments.tree,
            },
            depth: arguments.depth + 1,
            next: arguments.next + 1,
        }))
    }

    /// A template with spans.
    fn template_at(&self, at: usize, limit: usize) -> Result<Option<Front<Expr>>, NoMemory>
        requires exprs { NestsExpr self.now.bound (E.pre self.now.expr) (E.post self.now.expr) }
        requires some { 0 < limit }
        requires below { limit ≤ self.now.bound + 1 }
        requires stands { Stands self.now.reader at (sym.Lex (Class.Template Template.Head) (text_at self.now.reader at) (start_at self.now.reader at)) }
        ensures { IfOk result (λ o. Reads (rules.PrimaryUpto limit) Never self.now.reader at o) }
    {
        let Some(spans) = self.spans_at(at + 1, limit - 1)? else {
            return Ok(None);
        };
        Ok(Some(Front {
            tree: Expr::Template {
                at: self.reader.start_at(at),
                head: self.reader.text_at(at)?,
                spans: spans.tree,
            },
            depth: spans.depth + 1,
            next: spans.next,
        }))
    }

    /// A primary that begins with a token that is no mark.
    fn class_primary_at(
        &self,
        at: usize,
        class: Class,
        limit: usize,
    ) -> Result<Option<Front<Expr>>, NoMemory>
        requires exprs { NestsExpr self.now.bound (E.pre self.now.expr) (E.post self.now.expr) }
        requires some { 0 < limit }
        requires below { limit ≤ self.now.bound + 1 }
        requires stands { Stands self.now.reader at (sym.Lex class (text_at self.now.reader at) (start_at self.now.reader at)) }
        ensures { IfOk result (λ o. Reads (rules.PrimaryUpto limit) Never self.now.reader at o) }
    {
        if is_head(class) {
            let template = self.template_at(at, limit)?;
            return Ok(template);
        }
        if is_new(class) {
            let new = self.new_at(at, limit)?;
            return Ok(new);
        }
        let Some(tree) = single_primary(&self.reader, at, class)? else {
            return Ok(None);
        };
        Ok(Some(Front {
            tree,
            depth: 1,
            next: at + 1,
        }))
    }

    /// An expression in parentheses.
    pub(crate) fn parens_at(&self, at: usize, limit: usize) -> Result<Option<Front<Expr>>, NoMemory>
        requires exprs { NestsExpr self.now.bound (E.pre self.now.expr) (E.post self.now.expr) }
        requires some { 0 < limit }
        requires below { limit ≤ self.now.bound + 1 }
        requires stands { Stands self.now.reader at (sym.Mark Mark.OpenParen (start_at self.now.reader at)) }
        ensures { IfOk result (λ o. Reads (rules.PrimaryUpto limit) Never self.now.reader at o) }
    {
        let Some(inner) = self.expr_inside(at + 1, true, limit - 1)? else {
            return Ok(None);
        };
        if !self.reader.is_mark(inner.next, Mark::CloseParen) {
            return Ok(None);
        }
        Ok(Some(Front {
            tree: Expr::Parens {
                at: self.reader.start_at(at),
                inner: Boxed::new(self.reader.alloc, inner.tree)?,
            },
            depth: inner.depth + 1,
            next: inner.next + 1,
        }))
    }

    fn array_at(&self, at: usize, limit: usize) -> Result<Option<Front<Expr>>, NoMemory>
        requires exprs { NestsExpr self.now.bound (E.pre self.now.expr) (E.post self.now.expr) }
        requires some { 0 < limit }
        requires below { limit ≤ self.now.bound + 1 }
        requires stands { Stands self.now.reader at (sym.Mark Mark.OpenBracket (start_at self.now.reader at)) }
        ensures { IfOk result (λ o. Reads (rules.PrimaryUpto limit) Never self.now.reader at o) }
    {
        let elements = self.exprs_at(at + 1, limit - 1)?;
        if !self.reader.is_mark(elements.next, Mark::CloseBracket) {
            return Ok(None);
        }
        Ok(Some(Front {
            tree: Expr::Array {
                at: self.reader.start_at(at),
                elements: elements.tree,
            },
            depth: elements.depth + 1,
            next: elements.next + 1,
        }))
    }

    fn object_at(&self, at: usize, limit: usize) -> Result<Option<Front<Expr>>, NoMemory>
        requires exprs { NestsExpr self.now.bound (E.pre self.now.expr) (E.post self.now.expr) }
        requires some { 0 < limit }
        requires below { limit ≤ self.now.bound + 1 }
        requires stands { Stands self.now.reader at (sym.Mark Mark.OpenBrace (start_at self.now.reader at)) }
        ensures { IfOk result (λ o. Reads (rules.PrimaryUpto limit) Never self.now.reader at o) }
    {
        let props = self.props_at(at + 1, limit - 1)?;
        if !self.reader.is_mark(props.next, Mark::CloseBrace) {
            return Ok(None);
        }
        Ok(Some(Front {
            tree: Expr::Object {
                at: self.reader.start_at(at),
                props: props.tree,
            },
            depth: props.depth + 1,
            next: props.next + 1,
        }))
    }

    /// A primary that begins with a mark.
    fn mark_primary_at(
        &self,
        at: usize,
        mark: Mark,
        limit: usize,
    ) -> Result<Option<Front<Expr>>, NoMemory>
        requires exprs { NestsExpr self.now.bound (E.pre self.now.expr) (E.post self.now.expr) }
        requires some { 0 < limit }
        requires below { limit ≤ self.now.bound + 1 }
        requires stands { Stands self.now.reader at (sym.Mark mark (start_at self.now.reader at)) }
        ensures { IfOk result (λ o. Reads (rules.PrimaryUpto limit) Never self.now.reader at o) }
    {
        match mark {
            Mark::OpenParen => self.parens_at(at, limit),
            Mark::OpenBracket => self.array_at(at, limit),
            Mark::OpenBrace => self.object_at(at, limit),
            _ => Ok(None),
        }
    }

    pub(crate) fn primary_at(
        &self,
        at: usize,
        limit: usize,
    ) -> Result<Option<Front<Expr>>, NoMemory>
        requires exprs { NestsExpr self.now.bound (E.pre self.now.expr) (E.post self.now.expr) }
        requires within { at ≤ length self.now.reader.tokens.now }
        requires below { limit ≤ self.now.bound + 1 }
        ensures { IfOk result (λ o. Reads (rules.PrimaryUpto limit) Never self.now.reader at o) }
    {
        if limit == 0 {
            return Ok(None);
        }
        match self.reader.symbol(at) {
            Some(Symbol::Class(class)) => self.class_primary_at(at, class, limit),
            Some(Symbol::Mark(mark)) => self.mark_primary_at(at, mark, limit),
            None => Ok(None),
        }
    }
}
