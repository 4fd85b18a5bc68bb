//! Literals, and their types.

ghost use Rattle.std.specs.Prelude.{◌≡◌, ◌&&◌, ◌||◌, IfOk, option_map};
ghost use Rattle.std.specs.List.{list_all};
ghost use Rattle.tb_tree.specs.Shapes as shapes;
ghost use Rattle.tb_layout.specs.Surface as spec;
ghost use Rattle.tb_surface.specs.Literals as seen;

use sqlite_items::Boxed;
use std::alloc::Global;
use tb_show::quoted;
use tb_text::NoMemory;
use tb_tree::{Expr, TypeExpr, TypeKeyword, UnaryOperator};

/// A string, a number that a `-` may stand before, or a truth value.
#[derive(Clone, Copy)]
pub(crate) enum Literal<'a> {
    Text {
        at: usize,
        spelled: &'a str,
    },
    Number {
        at: usize,
        minus: bool,
        digits: &'a str,
    },
    Truth {
        at: usize,
        value: bool,
    },
}

/// The literal that a value is, where there is a value and it is one.
pub(crate) fn literal_in(value: &Option<Expr>) -> Option<Literal<'_>>
    ensures { option_map seen.seen result ≡ spec.literal_in value.now }
{
    match value {
        Some(value) => literal_of(value),
        None => None,
    }
}

/// The same of a value in a box.
pub(crate) fn boxed_literal(value: &Option<Boxed<Expr>>) -> Option<Literal<'_>>
    ensures { option_map seen.seen result ≡ spec.literal_in value.now }
{
    match value {
        Some(value) => literal_of(value.get()),
        None => None,
    }
}

fn literal_of(value: &Expr) -> Option<Literal<'_>>
    ensures { option_map seen.seen result ≡ spec.literal_of value.now }
{
    match value {
        Expr::String { at, spelled } => Some(Literal::Text {
            at: *at,
            spelled: spelled.as_str(),
        }),
        Expr::Number { at, spelled } => Some(Literal::Number {
            at: *at,
            minus: false,
            digits: spelled.as_str(),
        }),
        Expr::Boolean { at, value } => Some(Literal::Truth {
            at: *at,
            value: *value,
        }),
        Expr::Unary {
            at,
            operator,
            operand,
        } => signed(*at, *operator, operand.get()),
        Expr::Name { .. } => None,
        Expr::This { .. } => None,
        Expr::Null { .. } => None,
        Expr::Undefined { .. } => None,
        Expr::Template { .. } => None,
        Expr::Parens { .. } => None,
        Expr::Array { .. } => None,
        Expr::Object { .. } => None,
        Expr::New { .. } => None,
        Expr::Member { .. } => None,
        Expr::Index { .. } => None,
        Expr::Call { .. } => None,
        Expr::Update { .. } => None,
        Expr::Binary { .. } => None,
        Expr::As { .. } => None,
        Expr::Conditional { .. } => None,
        Expr::Assign { .. } => None,
        Expr::Arrow { .. } => None,
    }
}

/// `-` and a number.
fn signed(at: usize, operator: UnaryOperator, operand: &Expr) -> Option<Literal<'_>>
    ensures { option_map seen.seen result ≡ seen.signed_at at operator operand.now }
{
    match operator {
        UnaryOperator::Minus => negative(at, operand),
        UnaryOperator::Not => None,
        UnaryOperator::Plus => None,
        UnaryOperator::Typeof => None,
    }
}

fn negative(at: usize, operand: &Expr) -> Option<Literal<'_>>
    ensures { option_map seen.seen result ≡ seen.negative_of at operand.now }
{
    match operand {
        Expr::Number { spelled, .. } => Some(Literal::Number {
            at,
            minus: true,
            digits: spelled.as_str(),
        }),
        Expr::Name { .. } => None,
        Expr::This { .. } => None,
        Expr::Null { .. } => None,
        Expr::Undefined { .. } => None,
        Expr::Boolean { .. } => None,
        Expr::String { .. } => None,
        Expr::Template { .. } => None,
        Expr::Parens { .. } => None,
        Expr::Array { .. } => None,
        Expr::Object { .. } => None,
        Expr::New { .. } => None,
        Expr::Member { .. } => None,
        Expr::Index { .. } => None,
        Expr::Call { .. } => None,
        Expr::Unary { .. } => None,
        Expr::Update { .. } => None,
        Expr::Binary { .. } => None,
        Expr::As { .. } => None,
        Expr::Conditional { .. } => None,
        Expr::Assign { .. } => None,
        Expr::Arrow { .. } => None,
    }
}

/// The type of a literal, or the same widened.
pub(crate) fn literal_type(
    alloc: Global,
    fixed: bool,
    literal: &Literal<'_>,
) -> Result<TypeExpr, NoMemory>
    ensures { IfOk result (λ shape. shape ≡ spec.literal_type fixed (seen.seen literal.now)) }
{
    if fixed {
        narrow_type(alloc, literal)
    } else {
        Ok(wide_type(literal))
    }
}

fn narrow_type(alloc: Global, literal: &Literal<'_>) -> Result<TypeExpr, NoMemory>
    ensures { IfOk result (λ shape. shape ≡ spec.narrow_type (seen.seen literal.now)) }
{
    match literal {
        Literal::Text { at, spelled } => Ok(TypeExpr::String {
            at: *at,
            spelled: quoted(alloc, *spelled)?,
        }),
        Literal::Number { at, minus, digits } => number_type(alloc, *at, *minus, *digits),
        Literal::Truth { at, value } => Ok(TypeExpr::Boolean {
            at: *at,
            value: *value,
        }),
    }
}

fn wide_type(literal: &Literal<'_>) -> TypeExpr
    ensures { result ≡ spec.wide_type (seen.seen literal.now) }
{
    match literal {
        Literal::Text { at, .. } => keyword(*at, TypeKeyword::String),
        Literal::Number { at, .. } => keyword(*at, TypeKeyword::Number),
        Literal::Truth { at, .. } => keyword(*at, TypeKeyword::Boolean),
    }
}

fn number_type(alloc: Global, at: usize, minus: bool, digits: &str) -> Result<TypeExpr, NoMemory>
    ensures { IfOk result (λ shape. shape ≡ spec.narrow_type (spec.Number at minus digits.now)) }
{
    if !is_integer(minus, digits.as_bytes()) {
        return Ok(keyword(at, TypeKeyword::Number));
    }
    let digits = tb_text::Name::copy_of(alloc, digits)?;
    Ok(TypeExpr::Integer { at, minus, digits })
}

/// `0`, or at most 15 digits without leading `0`, before which a `-` may stand.
fn is_integer(minus: bool, digits: &[u8]) -> bool
    ensures { result ≡ spec.is_integer minus digits.now }
{
    is_positive(digits) || (!minus && is_zero(digits))
}

fn is_zero(digits: &[u8]) -> bool
    ensures { result ≡ shapes.is_zero digits.now }
{
    digits == b"0".as_slice()
}

fn is_positive(digits: &[u8]) -> bool
    ensures { result ≡ shapes.is_positive digits.now }
{
    has_lead(digits) && are_digits(digits) && digits.len() <= 15
}

fn are_digits(digits: &[u8]) -> bool
    ensures { result ≡ list_all shapes.is_digit digits.now }
{
    digits.iter().all(|digit| is_digit(*digit))
}

fn is_digit(byte: u8) -> bool
    ensures { result ≡ shapes.is_digit byte }
{
    48 <= byte && byte <= 57
}

/// Whether the first digit is no `0`.
fn has_lead(digits: &[u8]) -> bool
    ensures { result ≡ shapes.has_lead digits.now }
{
    match digits {
        [] => false,
        [first, ..] => *first != 48,
    }
}

pub(crate) fn keyword(at: usize, keyword: TypeKeyword) -> TypeExpr
    ensures { result ≡ seen.keyword_at at keyword }
{
    TypeExpr::Keyword { at, keyword }
}
