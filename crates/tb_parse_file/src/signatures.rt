//! What is declared without bodies: types and parameters.

ghost use Rattle.std.specs.Prelude.{IfOk};
ghost use Rattle.tb_tree.specs.Longest.{Never};
ghost use Rattle.tb_parse_file.specs.DeclRules as rules;
ghost use Rattle.tb_parse_file.specs.Reading.{ReadsPart};

use crate::fronts::Part;
use sqlite_items::Items;
use tb_parse_body::MAX_DEPTH;
use tb_parse_type::{Limits, MAX_COUNT, Reader, type_at, type_params_at};
use tb_text::NoMemory;
use tb_tree::{Mark, TypeExpr, TypeParam};

/// A declaration holds nothing else than types that counts, so it is as deep as they are.
const LIMITS: Limits = Limits {
    own: MAX_COUNT,
    depth: MAX_DEPTH,
};

/// `: Type ;`.
pub fn shape_at(reader: Reader<'_>, at: usize) -> Result<Option<Part<TypeExpr>>, NoMemory>
    ensures { IfOk result (λ o. ReadsPart rules.ShapeRule Never reader.entry at o) }
{
    if !reader.is_mark(at, Mark::Colon) {
        return Ok(None);
    }
    let Some(shape) = type_at(reader, at + 1, LIMITS)? else {
        return Ok(None);
    };
    if !reader.is_mark(shape.next, Mark::Semicolon) {
        return Ok(None);
    }
    Ok(Some(Part {
        tree: shape.tree,
        next: shape.next + 1,
    }))
}

/// `( TypeParam,* )`.
pub fn params_at(reader: Reader<'_>, at: usize) -> Result<Option<Part<Items<TypeParam>>>, NoMemory>
    ensures { IfOk result (λ o. ReadsPart rules.ParamsRule Never reader.entry at o) }
{
    if !reader.is_mark(at, Mark::OpenParen) {
        return Ok(None);
    }
    let params = type_params_at(reader, at + 1, LIMITS)?;
    if !reader.is_mark(params.next, Mark::CloseParen) {
        return Ok(None);
    }
    Ok(Some(Part {
        tree: params.tree,
        next: params.next + 1,
    }))
}

/// `( TypeParam,* ) : Type ;`.
pub fn signature_at(
    reader: Reader<'_>,
    at: usize,
) -> Result<Option<Part<(Items<TypeParam>, TypeExpr)>>, NoMemory>
    ensures { IfOk result (λ o. ReadsPart rules.SignatureRule Never reader.entry at o) }
{
    let Some(params) = params_at(reader, at)? else {
        return Ok(None);
    };
    let Some(shape) = shape_at(reader, params.next)? else {
        return Ok(None);
    };
    Ok(Some(Part {
        tree: (params.tree, shape.tree),
        next: shape.next,
    }))
}
