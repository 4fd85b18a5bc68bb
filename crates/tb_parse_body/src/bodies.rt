//! Functions, and the bodies of functions and methods with the types before them.

ghost use Rattle.std.specs.Prelude.{◌≡◌, ◌≤◌, ◌<◌, ◌-◌, length, IfOk};
ghost use Rattle.tb_tree.specs.Longest.{Never};
ghost use Rattle.tb_parse_type.specs.Reading.{rest};
ghost use Rattle.tb_parse_body.specs.Nests.{NestsExpr, NestsBlock};
ghost use Rattle.tb_parse_body.specs.Reading.{Reads};
ghost use Rattle.tb_parse_body.specs.Bodies as bodies;
ghost use Rattle.tb_parse_body.specs.Rules as rules;

use crate::arrows::BODY;
use crate::fronts::{Around, Front};
use crate::nests::Grammar;
use crate::operators::{larger, name_at};
use crate::params::{annotation_at, shape_at};
use sqlite_items::{Boxed, Items};
use tb_parse_type::Reader;
use tb_text::NoMemory;
use tb_tree::{Block, Expr, Function, Mark, TypeExpr, Word};

/// A `: Type` that ends exactly before `end`.
fn shape_before(
    reader: Reader<'_>,
    at: usize,
    end: usize,
    limit: usize,
) -> Result<Option<Front<TypeExpr>>, NoMemory>
    requires ordered { at ≤ end }
    requires within { end ≤ length reader.tokens.now }
    ensures { IfOk result (λ o. Reads (bodies.CountedUpto (end - at) limit) Never reader.entry at o) }
{
    let cut = Reader {
        alloc: reader.alloc,
        tokens: &reader.tokens[..end],
        text: reader.text,
    };
    let Some(shape) = shape_at(cut, at, limit)? else {
        return Ok(None);
    };
    if shape.next != end {
        return Ok(None);
    }
    Ok(Some(shape))
}

impl<
    E: Fn(Reader<'_>, usize, bool, usize) -> Result<Option<Front<Expr>>, NoMemory>,
    B: Fn(Reader<'_>, usize, Around, usize) -> Result<Option<Front<Block>>, NoMemory>,
    S,
> Grammar<'_, E, B, S> {
    /// A body whose type ends at `end`, with the name `readonly`.
    fn shorter_body_at(
        &self,
        at: usize,
        end: usize,
        limit: usize,
    ) -> Result<Option<Front<(Option<TypeExpr>, Block)>>, NoMemory>
        requires blocks { NestsBlock self.now.bound (B.pre self.now.block) (B.post self.now.block) }
        requires ordered { at < end }
        requires within { end ≤ length self.now.reader.tokens.now }
        requires below { limit ≤ self.now.bound }
        ensures { IfOk result (λ o. Reads (bodies.ShorterUpto (end - at) limit) Never self.now.reader at o) }
    {
        if !self.reader.is_mark(end, Mark::OpenBrace) {
            return Ok(None);
        }
        if !self.reader.is_word(end - 1, Word::Readonly) {
            return Ok(None);
        }
        let Some(block) = self.block_inside(end, BODY, limit)? else {
            return Ok(None);
        };
        let Some(shape) = shape_before(self.reader, at, end, limit)? else {
            return Ok(None);
        };
        Ok(Some(Front {
            tree: (Some(shape.tree), block.tree),
            depth: larger(shape.depth, block.depth),
            next: block.next,
        }))
    }

    /// A body whose type ends before `from`, with the name `readonly`: of these the one whose type ends last.
    fn earlier_body_at(
        &self,
        at: usize,
        from: usize,
        limit: usize,
    ) -> Result<Option<Front<(Option<TypeExpr>, Block)>>, NoMemory>
        requires blocks { NestsBlock self.now.bound (B.pre self.now.block) (B.post self.now.block) }
        requires within { at ≤ length self.now.reader.tokens.now }
        requires ordered { from ≤ length self.now.reader.tokens.now }
        requires below { limit ≤ self.now.bound }
        requires only { bodies.OnlyShorter (from - at) limit (rest self.now.reader at) }
        ensures { IfOk result (λ o. Reads (rules.BodyUpto limit) rules.InBody self.now.reader at o) }
    {
        if from <= at {
            return Ok(None);
        }
        let mut end = from;
        while end > at + 1 {
            end -= 1;
            if let Some(found) = self.shorter_body_at(at, end, limit)? {
                return Ok(Some(found));
            }
        }
        Ok(None)
    }

    /// An optional `: Type`, and a body behind it. Where no body follows the longest type, a shorter one is tried: before
    /// a body the name `readonly` may have been a type, and what was read as a read-only array a body and an array.
    pub(crate) fn body_at(
        &self,
        at: usize,
        limit: usize,
    ) -> Result<Option<Front<(Option<TypeExpr>, Block)>>, NoMemory>
        requires blocks { NestsBlock self.now.bound (B.pre self.now.block) (B.post self.now.block) }
        requires within { at ≤ length self.now.reader.tokens.now }
        requires below { limit ≤ self.now.bound }
        ensures { IfOk result (λ o. Reads (rules.BodyUpto limit) rules.InBody self.now.reader at o) }
    {
        let annotation = annotation_at(self.reader, at, limit)?;
        if let Some(block) = self.block_inside(annotation.next, BODY, limit)? {
            return Ok(Some(Front {
                tree: (annotation.tree, block.tree),
                depth: larger(annotation.depth, block.depth),
                next: block.next,
            }));
        }
        self.earlier_body_at(at, annotation.next, limit)
    }

    /// `function Name ( Param,* )`, an optional `: Type`, and the body.
    pub(crate) fn function_at(
        &self,
        at: usize,
        limit: usize,
    ) -> Result<Option<Front<Function>>, NoMemory>
        requires exprs { NestsExpr self.now.bound (E.pre self.now.expr) (E.post self.now.expr) }
        requires blocks { NestsBlock self.now.bound (B.pre self.now.block) (B.post self.now.block) }
        requires below { limit ≤ self.now.bound }
        ensures { IfOk result (λ o. Reads (rules.FunctionUpto limit) rules.InBody self.now.reader at o) }
    {
        if !self.reader.is_word(at, Word::Function) {
            return Ok(None);
        }
        let Some(_word) = name_at(&self.reader, at + 1) else {
            return Ok(None);
        };
        let Some(params) = self.signature_at(at + 2, limit)? else {
            return Ok(None);
        };
        let Some(body) = self.body_at(params.next, limit)? else {
            return Ok(None);
        };
        let (shape, block) = body.tree;
        let name = self.reader.text_at(at + 1)?;
        Ok(Some(Front {
            tree: Function {
                at: self.reader.start_at(at + 1),
                name,
                variables: Items::new(self.reader.alloc),
                params: params.tree,
                result: shape,
                body: Boxed::new(self.reader.alloc, block)?,
            },
            depth: larger(params.depth, body.depth),
            next: body.next,
        }))
    }
}
