//! Base types, literals and constants.

ghost use Rattle.std.specs.Prelude.{◌≡◌};
ghost use Rattle.tb_plain.specs.Plain as spec;

use sqlite_items::Boxed;
use tb_tree::{Declarator, Expr, TypeExpr, TypeKeyword, Var, VarKind};

fn is_base(keyword: TypeKeyword) -> bool
    ensures { result ≡ spec.is_base keyword }
{
    match keyword {
        TypeKeyword::Number => true,
        TypeKeyword::String => true,
        TypeKeyword::Boolean => true,
        _ => false,
    }
}

/// Whether a type is one of the words `number`, `string` and `boolean`.
pub fn is_base_type(shape: &TypeExpr) -> bool
    ensures { result ≡ spec.is_base_type shape.now }
{
    match shape {
        TypeExpr::Keyword { keyword, .. } => is_base(*keyword),
        _ => false,
    }
}

fn is_number(value: &Expr) -> bool
    ensures { result ≡ spec.is_number value.now }
{
    match value {
        Expr::Number { .. } => true,
        _ => false,
    }
}

fn is_string(value: &Expr) -> bool
    ensures { result ≡ spec.is_string value.now }
{
    match value {
        Expr::String { .. } => true,
        _ => false,
    }
}

fn is_truth(value: &Expr) -> bool
    ensures { result ≡ spec.is_truth value.now }
{
    match value {
        Expr::Boolean { .. } => true,
        _ => false,
    }
}

fn is_literal(value: &Expr) -> bool
    ensures { result ≡ spec.is_literal value.now }
{
    is_number(value) || is_string(value) || is_truth(value)
}

fn is_literal_of(keyword: TypeKeyword, value: &Expr) -> bool
    ensures { result ≡ spec.is_literal_of keyword value.now }
{
    match keyword {
        TypeKeyword::Number => is_number(value),
        TypeKeyword::String => is_string(value),
        TypeKeyword::Boolean => is_truth(value),
        _ => false,
    }
}

fn has_type(shape: &TypeExpr, value: &Expr) -> bool
    ensures { result ≡ spec.has_type shape.now value.now }
{
    match shape {
        TypeExpr::Keyword { keyword, .. } => is_literal_of(*keyword, value),
        _ => false,
    }
}

// A literal, of the annotation's type where there is one.
fn is_plain_value(annotation: &Option<TypeExpr>, value: &Expr) -> bool
    ensures { result ≡ spec.is_plain_value annotation.now value.now }
{
    match annotation {
        Some(shape) => has_type(shape, value),
        None => is_literal(value),
    }
}

fn is_initialized(annotation: &Option<TypeExpr>, value: &Option<Boxed<Expr>>) -> bool
    ensures { result ≡ spec.is_initialized annotation.now value.now }
{
    match value {
        Some(value) => is_plain_value(annotation, value.get()),
        None => false,
    }
}

fn is_constant(declarator: &Declarator) -> bool
    ensures { result ≡ spec.is_constant declarator.now }
{
    is_initialized(&declarator.annotation, &declarator.value)
}

fn is_one_constant(declarators: &[Declarator]) -> bool
    ensures { result ≡ spec.is_one_constant declarators.now }
{
    match declarators {
        [declarator] => is_constant(declarator),
        _ => false,
    }
}

/// Whether a variable is one constant, whose value is a literal of its annotation's type, where it has one.
pub fn is_plain_var(var: &Var) -> bool
    ensures { result ≡ spec.is_plain_var var.now }
{
    match var.kind {
        VarKind::Const => is_one_constant(var.declarators.as_slice()),
        VarKind::Let => false,
    }
}
