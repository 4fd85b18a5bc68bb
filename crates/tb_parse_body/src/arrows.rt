//! Arrows, and how they are told from parentheses without reading twice.

ghost use Rattle.std.specs.Prelude.{◌≡◌, ◌≤◌, ◌<◌, ◌+◌, ℕ, true, List, ◌∷◌, ◌-◌, length, MatchBool, IfOk};
ghost use Rattle.tb_tree.specs.Sym as sym;
ghost use Rattle.tb_tree.specs.Shapes as shapes;
ghost use Rattle.tb_tree.specs.Words as words;
ghost use Rattle.tb_tree.specs.Longest.{Never};
ghost use Rattle.tb_parse_type.specs.Reading.{rest, text_at, start_at, Stands};
ghost use Rattle.tb_parse_body.specs.Nests.{NestsExpr, NestsBlock};
ghost use Rattle.tb_parse_body.specs.Reading.{Reads, ReadsOne};
ghost use Rattle.tb_parse_body.specs.Starts.{ReadsStart};
ghost use Rattle.tb_parse_body.specs.Rules as rules;

use crate::fronts::{Around, Front, Start};
use crate::nests::Grammar;
use crate::operators::{larger, name_at};
use crate::params::annotation_at;
use sqlite_items::{Boxed, Items};
use tb_parse_type::Reader;
use tb_text::NoMemory;
use tb_tree::{ArrowBody, AssignOperator, Block, Expr, Mark, Param, TypeExpr, Word};

/// What surrounds the statements of a body.
pub(crate) const BODY: Around = Around {
    in_body: true,
    in_loop: false,
    in_switch: false,
};

/// An optional `: Type`, where one may stand.
fn result_at(
    reader: Reader<'_>,
    at: usize,
    typed: bool,
    limit: usize,
) -> Result<Front<Option<TypeExpr>>, NoMemory>
    requires { at ≤ length reader.tokens.now }
    ensures { IfOk result (λ x. ReadsOne (rules.ResultUpto typed limit) rules.InAnnotation reader.entry at x) }
{
    if !typed {
        return Ok(Front {
            tree: None,
            depth: 0,
            next: at,
        });
    }
    let annotation = annotation_at(reader, at, limit)?;
    Ok(annotation)
}

/// A name in parentheses that `=` follows stands at a place.
fn has_default(reader: &Reader<'_>, at: usize) -> bool
    ensures { MatchBool result
        ((k : Word) × (w : List ℕ) × (o : ℕ) × (p : ℕ) × (q : ℕ) × (zs : List sym.Sym) × (words.is_name k ≡ true) × (rest reader.now at ≡ sym.Mark Mark.OpenParen p ∷ shapes.word k w o ∷ sym.Mark Mark.Assign q ∷ zs))
        ((k : Word) (w : List ℕ) (o p q : ℕ) (zs : List sym.Sym) → words.is_name k ≡ true → rest reader.now at ≡ sym.Mark Mark.OpenParen p ∷ shapes.word k w o ∷ sym.Mark Mark.Assign q ∷ zs → ⊥) }
{
    if !reader.is_mark(at, Mark::OpenParen) {
        return false;
    }
    let Some(_word) = name_at(reader, at + 1) else {
        return false;
    };
    if !reader.is_mark(at + 2, Mark::Assign) {
        return false;
    }
    true
}

impl<
    E: Fn(Reader<'_>, usize, bool, usize) -> Result<Option<Front<Expr>>, NoMemory>,
    B: Fn(Reader<'_>, usize, Around, usize) -> Result<Option<Front<Block>>, NoMemory>,
    S,
> Grammar<'_, E, B, S> {
    /// What follows `=>`.
    fn arrow_body_at(
        &self,
        at: usize,
        typed: bool,
        limit: usize,
    ) -> Result<Option<Front<ArrowBody>>, NoMemory>
        requires exprs { NestsExpr self.now.bound (E.pre self.now.expr) (E.post self.now.expr) }
        requires blocks { NestsBlock self.now.bound (B.pre self.now.block) (B.post self.now.block) }
        requires within { at ≤ length self.now.reader.tokens.now }
        requires below { limit ≤ self.now.bound }
        ensures { IfOk result (λ o. Reads (rules.ArrowBodyUpto typed limit) (rules.InExpr typed) self.now.reader at o) }
    {
        if self.reader.is_mark(at, Mark::OpenBrace) {
            let Some(block) = self.block_inside(at, BODY, limit)? else {
                return Ok(None);
            };
            return Ok(Some(Front {
                tree: ArrowBody::Block(Boxed::new(self.reader.alloc, block.tree)?),
                depth: block.depth,
                next: block.next,
            }));
        }
        let Some(expr) = self.expr_inside(at, typed, limit)? else {
            return Ok(None);
        };
        Ok(Some(Front {
            tree: ArrowBody::Expr(Boxed::new(self.reader.alloc, expr.tree)?),
            depth: expr.depth,
            next: expr.next,
        }))
    }

    /// What follows the parameters of an arrow: an optional `: Type`, `=>`, and the body.
    fn arrow_rest_at(
        &self,
        at: usize,
        typed: bool,
        limit: usize,
    ) -> Result<Option<Front<(Option<TypeExpr>, ArrowBody)>>, NoMemory>
        requires exprs { NestsExpr self.now.bound (E.pre self.now.expr) (E.post self.now.expr) }
        requires blocks { NestsBlock self.now.bound (B.pre self.now.block) (B.post self.now.block) }
        requires within { at ≤ length self.now.reader.tokens.now }
        requires below { limit ≤ self.now.bound }
        ensures { IfOk result (λ o. Reads (rules.ArrowRestUpto typed limit) (rules.InExpr typed) self.now.reader at o) }
    {
        let shape = result_at(self.reader, at, typed, limit)?;
        if !self.reader.is_mark(shape.next, Mark::Arrow) {
            return Ok(None);
        }
        let Some(body) = self.arrow_body_at(shape.next + 1, typed, limit)? else {
            return Ok(None);
        };
        Ok(Some(Front {
            tree: (shape.tree, body.tree),
            depth: larger(shape.depth, body.depth),
            next: body.next,
        }))
    }

    /// `Name =>` and the body.
    fn short_arrow_at(
        &self,
        at: usize,
        typed: bool,
        limit: usize,
    ) -> Result<Option<Front<Expr>>, NoMemory>
        requires exprs { NestsExpr self.now.bound (E.pre self.now.expr) (E.post self.now.expr) }
        requires blocks { NestsBlock self.now.bound (B.pre self.now.block) (B.post self.now.block) }
        requires some { 0 < limit }
        requires below { limit ≤ self.now.bound + 1 }
        requires open { (p : ℕ) (zs : List sym.Sym) → rest self.now.reader at ≡ sym.Mark Mark.OpenParen p ∷ zs → ⊥ }
        ensures { IfOk result (λ o. Reads (rules.ArrowUpto typed limit) (rules.InExpr typed) self.now.reader at o) }
    {
        let Some(_word) = name_at(&self.reader, at) else {
            return Ok(None);
        };
        if !self.reader.is_mark(at + 1, Mark::Arrow) {
            return Ok(None);
        }
        let Some(body) = self.arrow_body_at(at + 2, typed, limit - 1)? else {
            return Ok(None);
        };
        let start = self.reader.start_at(at);
        let name = self.reader.text_at(at)?;
        let mut params = Items::new(self.reader.alloc);
        params.push(Param {
            at: start,
            name,
            optional: false,
            annotation: None,
            value: None,
        })?;
        Ok(Some(Front {
            tree: Expr::Arrow {
                at: start,
                params,
                result: None,
                body: body.tree,
            },
            depth: body.depth + 1,
            next: body.next,
        }))
    }

    /// An arrow, of which the parameters were read.
    fn arrow_from(
        &self,
        at: usize,
        params: Front<Items<Param>>,
        typed: bool,
        limit: usize,
    ) -> Result<Option<Front<Expr>>, NoMemory>
        requires exprs { NestsExpr self.now.bound (E.pre self.now.expr) (E.post self.now.expr) }
        requires blocks { NestsBlock self.now.bound (B.pre self.now.block) (B.post self.now.block) }
        requires some { 0 < limit }
        requires below { limit ≤ self.now.bound + 1 }
        requires stands { Stands self.now.reader at (sym.Mark Mark.OpenParen (start_at self.now.reader at)) }
        requires params { ReadsOne (rules.SignatureUpto (limit - 1)) Never self.now.reader at params }
        ensures { IfOk result (λ o. Reads (rules.ArrowUpto typed limit) (rules.InExpr typed) self.now.reader at o) }
    {
        let Some(rest) = self.arrow_rest_at(params.next, typed, limit - 1)? else {
            return Ok(None);
        };
        let (shape, body) = rest.tree;
        Ok(Some(Front {
            tree: Expr::Arrow {
                at: self.reader.start_at(at),
                params: params.tree,
                result: shape,
                body,
            },
            depth: larger(params.depth, rest.depth) + 1,
            next: rest.next,
        }))
    }

    /// The expression in parentheses that a parameter with a default is.
    fn assigned_parens(
        &self,
        at: usize,
        param: Front<(Param, bool)>,
        limit: usize,
    ) -> Result<Option<Front<Expr>>, NoMemory>
        requires some { 0 < limit }
        requires stands { Stands self.now.reader at (sym.Mark Mark.OpenParen (start_at self.now.reader at)) }
        requires default { (k : Word) × (w : List ℕ) × (o : ℕ) × (p : ℕ) × (q : ℕ) × (zs : List sym.Sym) × (words.is_name k ≡ true) × (rest self.now.reader at ≡ sym.Mark Mark.OpenParen p ∷ shapes.word k w o ∷ sym.Mark Mark.Assign q ∷ zs) }
        requires param { ReadsOne (rules.ParamUpto (limit - 1)) (rules.InExpr true) self.now.reader (at + 1) param }
        requires closes { Stands self.now.reader param.next (sym.Mark Mark.CloseParen (start_at self.now.reader param.next)) }
        ensures { IfOk result (λ o. Reads (rules.PrimaryUpto limit) Never self.now.reader at o) }
    {
        if param.depth + 1 >= limit {
            return Ok(None);
        }
        let Front {
            tree: (read, _given),
            depth,
            next,
        } = param;
        let Param {
            at: name_at,
            name,
            value,
            ..
        } = read;
        let Some(value) = value else {
            return Ok(None);
        };
        let target = Expr::Name { at: name_at, name };
        let inner = Expr::Assign {
            at: name_at,
            target: Boxed::new(self.reader.alloc, target)?,
            operator: AssignOperator::Assign,
            value,
        };
        Ok(Some(Front {
            tree: Expr::Parens {
                at: self.reader.start_at(at),
                inner: Boxed::new(self.reader.alloc, inner)?,
            },
            depth: depth + 2,
            next: next + 1,
        }))
    }

    /// What a name with a default in parentheses begins, where it is the only parameter: it was read with its default.
    fn single_start_at(
        &self,
        at: usize,
        param: Front<(Param, bool)>,
        typed: bool,
        limit: usize,
    ) -> Result<Start, NoMemory>
        requires exprs { NestsExpr self.now.bound (E.pre self.now.expr) (E.post self.now.expr) }
        requires blocks { NestsBlock self.now.bound (B.pre self.now.block) (B.post self.now.block) }
        requires some { 0 < limit }
        requires below { limit ≤ self.now.bound + 1 }
        requires stands { Stands self.now.reader at (sym.Mark Mark.OpenParen (start_at self.now.reader at)) }
        requires default { (k : Word) × (w : List ℕ) × (o : ℕ) × (p : ℕ) × (q : ℕ) × (zs : List sym.Sym) × (words.is_name k ≡ true) × (rest self.now.reader at ≡ sym.Mark Mark.OpenParen p ∷ shapes.word k w o ∷ sym.Mark Mark.Assign q ∷ zs) }
        requires param { ReadsOne (rules.ParamUpto (limit - 1)) (rules.InExpr true) self.now.reader (at + 1) param }
        requires closes { Stands self.now.reader param.next (sym.Mark Mark.CloseParen (start_at self.now.reader param.next)) }
        ensures { IfOk result (λ o. ReadsStart typed limit self.now.reader at o) }
    {
        let Some(rest) = self.arrow_rest_at(param.next + 1, typed, limit - 1)? else {
            let Some(first) = self.assigned_parens(at, param, limit)? else {
                return Ok(Start::Neither);
            };
            return Ok(Start::Primary(first));
        };
        let (read, _given) = param.tree;
        let mut params = Items::new(self.reader.alloc);
        params.push(read)?;
        let (shape, body) = rest.tree;
        Ok(Start::Arrow(Front {
            tree: Expr::Arrow {
                at: self.reader.start_at(at),
                params,
                result: shape,
                body,
            },
            depth: larger(param.depth, rest.depth) + 1,
            next: rest.next,
        }))
    }

    /// An arrow with further parameters behind the first, which was read.
    fn several_at(
        &self,
        at: usize,
        first: Front<(Param, bool)>,
        typed: bool,
        limit: usize,
    ) -> Result<Option<Front<Expr>>, NoMemory>
        requires exprs { NestsExpr self.now.bound (E.pre self.now.expr) (E.post self.now.expr) }
        requires blocks { NestsBlock self.now.bound (B.pre self.now.block) (B.post self.now.block) }
        requires some { 0 < limit }
        requires below { limit ≤ self.now.bound + 1 }
        requires stands { Stands self.now.reader at (sym.Mark Mark.OpenParen (start_at self.now.reader at)) }
        requires first { ReadsOne (rules.ParamUpto (limit - 1)) (rules.InExpr true) self.now.reader (at + 1) first }
        ensures { IfOk result (λ o. Reads (rules.ArrowUpto typed limit) (rules.InExpr typed) self.now.reader at o) }
    {
        let params = self.params_from(at + 1, first, limit - 1)?;
        if !self.reader.is_mark(params.next, Mark::CloseParen) {
            return Ok(None);
        }
        let signature = Front {
            tree: params.tree,
            depth: params.depth,
            next: params.next + 1,
        };
        let arrow = self.arrow_from(at, signature, typed, limit)?;
        Ok(arrow)
    }

    /// What a name with a default begins behind `(`.
    fn default_start_at(&self, at: usize, typed: bool, limit: usize) -> Result<Start, NoMemory>
        requires exprs { NestsExpr self.now.bound (E.pre self.now.expr) (E.post self.now.expr) }
        requires blocks { NestsBlock self.now.bound (B.pre self.now.block) (B.post self.now.block) }
        requires some { 0 < limit }
        requires below { limit ≤ self.now.bound + 1 }
        requires stands { Stands self.now.reader at (sym.Mark Mark.OpenParen (start_at self.now.reader at)) }
        requires default { (k : Word) × (w : List ℕ) × (o : ℕ) × (p : ℕ) × (q : ℕ) × (zs : List sym.Sym) × (words.is_name k ≡ true) × (rest self.now.reader at ≡ sym.Mark Mark.OpenParen p ∷ shapes.word k w o ∷ sym.Mark Mark.Assign q ∷ zs) }
        ensures { IfOk result (λ o. ReadsStart typed limit self.now.reader at o) }
    {
        let Some(first) = self.param_at(at + 1, limit - 1)? else {
            return Ok(Start::Neither);
        };
        if self.reader.is_mark(first.next, Mark::CloseParen) {
            let start = self.single_start_at(at, first, typed, limit)?;
            return Ok(start);
        }
        let Some(arrow) = self.several_at(at, first, typed, limit)? else {
            return Ok(Start::Neither);
        };
        Ok(Start::Arrow(arrow))
    }

    /// What a `(` begins.
    fn paren_start_at(&self, at: usize, typed: bool, limit: usize) -> Result<Start, NoMemory>
        requires exprs { NestsExpr self.now.bound (E.pre self.now.expr) (E.post self.now.expr) }
        requires blocks { NestsBlock self.now.bound (B.pre self.now.block) (B.post self.now.block) }
        requires some { 0 < limit }
        requires below { limit ≤ self.now.bound + 1 }
        requires stands { Stands self.now.reader at (sym.Mark Mark.OpenParen (start_at self.now.reader at)) }
        ensures { IfOk result (λ o. ReadsStart typed limit self.now.reader at o) }
    {
        if has_default(&self.reader, at) {
            let start = self.default_start_at(at, typed, limit)?;
            return Ok(start);
        }
        let Some(params) = self.signature_at(at, limit - 1)? else {
            return Ok(Start::Open);
        };
        let Some(arrow) = self.arrow_from(at, params, typed, limit)? else {
            return Ok(Start::Open);
        };
        Ok(Start::Arrow(arrow))
    }

    /// What an expression begins with.
    pub(crate) fn start_at(&self, at: usize, typed: bool, limit: usize) -> Result<Start, NoMemory>
        requires exprs { NestsExpr self.now.bound (E.pre self.now.expr) (E.post self.now.expr) }
        requires blocks { NestsBlock self.now.bound (B.pre self.now.block) (B.post self.now.block) }
        requires some { 0 < limit }
        requires within { at ≤ length self.now.reader.tokens.now }
        requires below { limit ≤ self.now.bound + 1 }
        ensures { IfOk result (λ o. ReadsStart typed limit self.now.reader at o) }
    {
        if self.reader.is_mark(at, Mark::OpenParen) {
            let start = self.paren_start_at(at, typed, limit)?;
            return Ok(start);
        }
        let Some(arrow) = self.short_arrow_at(at, typed, limit)? else {
            return Ok(Start::Open);
        };
        Ok(Start::Arrow(arrow))
    }
}
