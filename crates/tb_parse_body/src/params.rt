//! Parameters, annotations and values of what is declared.

ghost use Rattle.std.specs.Prelude.{◌≡◌, ◌≤◌, ◌<◌, true, false, ◌||◌, length, IfOk};
ghost use Rattle.tb_tree.specs.Exprs as exprs;
ghost use Rattle.tb_tree.specs.Longest.{Never};
ghost use Rattle.tb_tree.specs.Shapes as shapes;
ghost use Rattle.tb_parse_type.specs.Reading.{rest, FoundAt};
ghost use Rattle.tb_parse_type.specs.Rules.{InType};
ghost use Rattle.tb_parse_body.specs.Given.{FollowingUpto, GivesAll};
ghost use Rattle.tb_parse_body.specs.Nests.{NestsExpr};
ghost use Rattle.tb_parse_body.specs.Reading.{Reads, ReadsOne};
ghost use Rattle.tb_parse_body.specs.Rules as rules;

use crate::fronts::Front;
use crate::nests::Grammar;
use crate::operators::{larger, name_at};
use sqlite_items::{Boxed, Items};
use tb_parse_type::{Limits, MAX_COUNT, Reader, type_at};
use tb_text::NoMemory;
use tb_tree::{Expr, Mark, Param, TypeExpr};

/// `: Type`.
pub(crate) fn shape_at(
    reader: Reader<'_>,
    at: usize,
    limit: usize,
) -> Result<Option<Front<TypeExpr>>, NoMemory>
    ensures { IfOk result (λ o. Reads (rules.ShapeUpto limit) InType reader.entry at o) }
{
    if !reader.is_mark(at, Mark::Colon) {
        return Ok(None);
    }
    let limits = Limits {
        own: MAX_COUNT,
        depth: limit,
    };
    let Some(shape) = type_at(reader, at + 1, limits)? else {
        return Ok(None);
    };
    Ok(Some(Front {
        tree: shape.tree,
        depth: shape.depth,
        next: shape.next,
    }))
}

/// An optional `: Type`.
pub fn annotation_at(
    reader: Reader<'_>,
    at: usize,
    limit: usize,
) -> Result<Front<Option<TypeExpr>>, NoMemory>
    requires { at ≤ length reader.tokens.now }
    ensures { IfOk result (λ x. ReadsOne (rules.AnnotationUpto limit) rules.InAnnotation reader.entry at x) }
{
    let Some(shape) = shape_at(reader, at, limit)? else {
        return Ok(Front {
            tree: None,
            depth: 0,
            next: at,
        });
    };
    Ok(Front {
        tree: Some(shape.tree),
        depth: shape.depth,
        next: shape.next,
    })
}

/// Whether the mark `?` stands at a place, and the place behind it.
pub fn question_at(reader: &Reader<'_>, at: usize) -> (bool, usize)
    requires { at ≤ length reader.now.tokens.now }
    ensures { FoundAt (shapes.IsMarked Mark.Question) rules.InQuestion reader.now at result.0 result.1 }
{
    if reader.is_mark(at, Mark::Question) {
        (true, at + 1)
    } else {
        (false, at)
    }
}

/// Whether a parameter has `?` or `=`.
fn is_given(optional: bool, value: &Option<Boxed<Expr>>) -> bool
    ensures { result ≡ (optional || exprs.has_value value.now) }
{
    if optional {
        return true;
    }
    match value {
        Some(_) => true,
        None => false,
    }
}

/// Whether a parameter may follow others, of which one has `?` or `=` or none.
fn may_follow(after: bool, given: bool) -> bool
    ensures { result ≡ exprs.may_follow true after given }
{
    if after { given } else { true }
}

impl<E: Fn(Reader<'_>, usize, bool, usize) -> Result<Option<Front<Expr>>, NoMemory>, B, S> Grammar<
    '_,
    E,
    B,
    S,
> {
    /// An optional `= Expr`.
    pub(crate) fn value_at(
        &self,
        at: usize,
        limit: usize,
    ) -> Result<Front<Option<Boxed<Expr>>>, NoMemory>
        requires exprs { NestsExpr self.now.bound (E.pre self.now.expr) (E.post self.now.expr) }
        requires within { at ≤ length self.now.reader.tokens.now }
        requires below { limit ≤ self.now.bound }
        ensures { IfOk result (λ x. ReadsOne (rules.ValueUpto limit) (rules.InExpr true) self.now.reader at x) }
    {
        if !self.reader.is_mark(at, Mark::Assign) {
            return Ok(Front {
                tree: None,
                depth: 0,
                next: at,
            });
        }
        let Some(value) = self.expr_inside(at + 1, true, limit)? else {
            return Ok(Front {
                tree: None,
                depth: 0,
                next: at,
            });
        };
        Ok(Front {
            tree: Some(Boxed::new(self.reader.alloc, value.tree)?),
            depth: value.depth,
            next: value.next,
        })
    }

    /// The default of a parameter, which may have one where it has no `?`.
    fn default_at(
        &self,
        at: usize,
        optional: bool,
        limit: usize,
    ) -> Result<Front<Option<Boxed<Expr>>>, NoMemory>
        requires exprs { NestsExpr self.now.bound (E.pre self.now.expr) (E.post self.now.expr) }
        requires within { at ≤ length self.now.reader.tokens.now }
        requires below { limit ≤ self.now.bound }
        ensures { IfOk result (λ x. ReadsOne (rules.DefaultUpto optional limit) (rules.InExpr true) self.now.reader at x) }
    {
        if optional {
            return Ok(Front {
                tree: None,
                depth: 0,
                next: at,
            });
        }
        let value = self.value_at(at, limit)?;
        Ok(value)
    }

    /// A parameter, and whether it has `?` or `=`. Where it has none, no shorter one that begins there has.
    pub(crate) fn param_at(
        &self,
        at: usize,
        limit: usize,
    ) -> Result<Option<Front<(Param, bool)>>, NoMemory>
        requires exprs { NestsExpr self.now.bound (E.pre self.now.expr) (E.post self.now.expr) }
        requires below { limit ≤ self.now.bound }
        ensures longest { IfOk result (λ o. Reads (rules.ParamUpto limit) (rules.InExpr true) self.now.reader at o) }
        ensures given { IfOk result (λ o. GivesAll limit self.now.reader at o) }
    {
        let Some(_word) = name_at(&self.reader, at) else {
            return Ok(None);
        };
        let (optional, behind) = question_at(&self.reader, at + 1);
        let annotation = annotation_at(self.reader, behind, limit)?;
        let value = self.default_at(annotation.next, optional, limit)?;
        let given = is_given(optional, &value.tree);
        let name = self.reader.text_at(at)?;
        Ok(Some(Front {
            tree: (
                Param {
                    at: self.reader.start_at(at),
                    name,
                    optional,
                    annotation: annotation.tree,
                    value: value.tree,
                },
                given,
            ),
            depth: larger(annotation.depth, value.depth),
            next: value.next,
        }))
    }

    /// A parameter that may follow others, of which one has `?` or `=` or none.
    fn next_param_at(
        &self,
        at: usize,
        after: bool,
        limit: usize,
    ) -> Result<Option<Front<(Param, bool)>>, NoMemory>
        requires exprs { NestsExpr self.now.bound (E.pre self.now.expr) (E.post self.now.expr) }
        requires below { limit ≤ self.now.bound }
        ensures { IfOk result (λ o. Reads (FollowingUpto after limit) (rules.InExpr true) self.now.reader at o) }
    {
        let Some(param) = self.param_at(at, limit)? else {
            return Ok(None);
        };
        if !may_follow(after, param.tree.1) {
            return Ok(None);
        }
        Ok(Some(param))
    }

    /// Parameters with commas, and an optional last comma: behind one that has `?` or `=`, each has one.
    pub(crate) fn params_at(&self, at: usize, limit: usize) -> Result<Front<Items<Param>>, NoMemory>
        requires exprs { NestsExpr self.now.bound (E.pre self.now.expr) (E.post self.now.expr) }
        requires within { at ≤ length self.now.reader.tokens.now }
        requires below { limit ≤ self.now.bound }
        ensures { IfOk result (λ x. ReadsOne (rules.ParamsUpto false limit) rules.InList self.now.reader at x) }
    {
        let mut params = Items::new(self.reader.alloc);
        let mut after = false;
        let mut depth = 0;
        let mut next = at;
        while let Some(param) = self.next_param_at(next, after, limit)? {
            let (tree, given) = param.tree;
            after = after | given;
            params.push(tree)?;
            depth = larger(depth, param.depth);
            if !self.reader.is_mark(param.next, Mark::Comma) {
                return Ok(Front {
                    tree: params,
                    depth,
                    next: param.next,
                });
            }
            next = param.next + 1;
        }
        Ok(Front {
            tree: params,
            depth,
            next,
        })
    }

    /// The parameters of which the first was read.
    pub(crate) fn params_from(
        &self,
        _at: usize,
        first: Front<(Param, bool)>,
        limit: usize,
    ) -> Result<Front<Items<Param>>, NoMemory>
        requires exprs { NestsExpr self.now.bound (E.pre self.now.expr) (E.post self.now.expr) }
        requires below { limit ≤ self.now.bound }
        requires first { ReadsOne (rules.ParamUpto limit) (rules.InExpr true) self.now.reader _at first }
        ensures { IfOk result (λ x. ReadsOne (rules.ParamsUpto false limit) rules.InList self.now.reader _at x) }
    {
        let mut params = Items::new(self.reader.alloc);
        let (tree, mut after) = first.tree;
        params.push(tree)?;
        let mut depth = first.depth;
        let mut next = first.next;
        while self.reader.is_mark(next, Mark::Comma) {
            let Some(param) = self.next_param_at(next + 1, after, limit)? else {
                return Ok(Front {
                    tree: params,
                    depth,
                    next: next + 1,
                });
            };
            let (tree, given) = param.tree;
            after = after | given;
            params.push(tree)?;
            depth = larger(depth, param.depth);
            next = param.next;
        }
        Ok(Front {
            tree: params,
            depth,
            next,
        })
    }

    /// Parameters in parentheses.
    pub(crate) fn signature_at(
        &self,
        at: usize,
        limit: usize,
    ) -> Result<Option<Front<Items<Param>>>, NoMemory>
        requires exprs { NestsExpr self.now.bound (E.pre self.now.expr) (E.post self.now.expr) }
        requires below { limit ≤ self.now.bound }
        ensures { IfOk result (λ o. Reads (rules.SignatureUpto limit) Never self.now.reader at o) }
    {
        if !self.reader.is_mark(at, Mark::OpenParen) {
            return Ok(None);
        }
        let params = self.params_at(at + 1, limit)?;
        if !self.reader.is_mark(params.next, Mark::CloseParen) {
            return Ok(None);
        }
        Ok(Some(Front {
            tree: params.tree,
            depth: params.depth,
            next: params.next + 1,
        }))
    }
}
