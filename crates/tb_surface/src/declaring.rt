//! Declarations without bodies and initializers.

ghost use Rattle.std.specs.Prelude.{◌≡◌, ◌||◌, map, option_map, IfOk};
ghost use Rattle.tb_tree.specs.declared.exprs.Param.{out-Param};
ghost use Rattle.tb_layout.specs.Quoted.{quoted_interface, quoted_alias};
ghost use Rattle.tb_layout.specs.Surface as spec;
ghost use Rattle.tb_surface.specs.Literals.{seen};

use crate::literals::{Literal, boxed_literal, keyword, literal_in, literal_type};
use sqlite_items::{Boxed, Items};
use std::alloc::Global;
use tb_show::{quoted_bases, quoted_members, quoted_type};
use tb_text::NoMemory;
use tb_tree::{
    Alias, ClassDeclaration, ClassMember, Declarator, Declared, DeclaredClass, DeclaredMember,
    Expr, Function, Identifier, Interface, Param, TypeExpr, TypeKeyword, TypeParam, VarKind,
};

/// The type of what has none and needs one.
fn any_type(at: usize) -> TypeExpr
    ensures { result ≡ spec.any_type at }
{
    keyword(at, TypeKeyword::Any)
}

/// An annotation, or `any` where it is missing.
fn annotated_type(
    alloc: Global,
    at: usize,
    annotation: &Option<TypeExpr>,
) -> Result<TypeExpr, NoMemory>
    ensures { IfOk result (λ shape. shape ≡ spec.annotated_type at annotation.now) }
{
    match annotation {
        Some(shape) => quoted_type(alloc, shape),
        None => Ok(any_type(at)),
    }
}

/// The type of a literal, or `any`.
fn initial_type(
    alloc: Global,
    at: usize,
    fixed: bool,
    literal: Option<Literal<'_>>,
) -> Result<TypeExpr, NoMemory>
    ensures { IfOk result (λ shape. shape ≡ spec.initial_type at fixed (option_map seen literal.entry)) }
{
    match literal {
        Some(literal) => literal_type(alloc, fixed, &literal),
        None => Ok(any_type(at)),
    }
}

/// The type of a field: its annotation, that of a literal, or `any`.
fn field_type(
    alloc: Global,
    at: usize,
    read_only: bool,
    annotation: &Option<TypeExpr>,
    value: &Option<Expr>,
) -> Result<TypeExpr, NoMemory>
    ensures { IfOk result (λ shape. shape ≡ spec.declared_type at read_only annotation.now value.now) }
{
    match annotation {
        Some(shape) => quoted_type(alloc, shape),
        None => initial_type(alloc, at, read_only, literal_in(value)),
    }
}

/// The same of a variable.
fn variable_type(
    alloc: Global,
    at: usize,
    fixed: bool,
    annotation: &Option<TypeExpr>,
    value: &Option<Boxed<Expr>>,
) -> Result<TypeExpr, NoMemory>
    ensures { IfOk result (λ shape. shape ≡ spec.declared_type at fixed annotation.now value.now) }
{
    match annotation {
        Some(shape) => quoted_type(alloc, shape),
        None => initial_type(alloc, at, fixed, boxed_literal(value)),
    }
}

fn is_const(kind: VarKind) -> bool
    ensures { result ≡ spec.is_const kind }
{
    match kind {
        VarKind::Const => true,
        VarKind::Let => false,
    }
}

pub(crate) fn declared_variable(
    alloc: Global,
    kind: VarKind,
    of: &Declarator,
) -> Result<Declared, NoMemory>
    ensures { IfOk result (λ declared. declared ≡ spec.declared_variable kind of.now) }
{
    let name = of.name.clone()?;
    let shape = variable_type(alloc, of.at, is_const(kind), &of.annotation, &of.value)?;
    Ok(Declared::Variable {
        at: of.at,
        kind,
        name,
        shape,
    })
}

fn has_default(value: &Option<Boxed<Expr>>) -> bool
    ensures { result ≡ spec.has_value value.now }
{
    match value {
        Some(_) => true,
        None => false,
    }
}

/// A parameter with a default is optional.
fn is_optional(of: &Param) -> bool
    ensures { result ≡ (let opened = out-Param of.now in opened.optional || spec.has_value opened.value) }
{
    of.optional || has_default(&of.value)
}

fn declared_param(alloc: Global, of: &Param) -> Result<TypeParam, NoMemory>
    ensures { IfOk result (λ param. param ≡ spec.declared_param of.now) }
{
    let name = of.name.clone()?;
    let shape = annotated_type(alloc, of.at, &of.annotation)?;
    let shape = Boxed::new(alloc, shape)?;
    Ok(TypeParam {
        at: of.at,
        name,
        optional: is_optional(of),
        shape,
    })
}

fn declared_params(alloc: Global, all: &[Param]) -> Result<Items<TypeParam>, NoMemory>
    ensures { IfOk result (λ params. params ≡ map spec.declared_param all.now) }
{
    let mut params = Items::new(alloc);
    for param in all {
        params.push(declared_param(alloc, param)?)?;
    }
    Ok(params)
}

/// Names as they are.
fn copied_variables(alloc: Global, all: &[Identifier]) -> Result<Items<Identifier>, NoMemory>
    ensures { IfOk result (λ variables. variables ≡ all.now) }
{
    let mut variables = Items::new(alloc);
    for variable in all {
        variables.push(variable.clone()?)?;
    }
    Ok(variables)
}

pub(crate) fn declared_function(alloc: Global, of: &Function) -> Result<Declared, NoMemory>
    ensures { IfOk result (λ declared. declared ≡ spec.declared_function of.now) }
{
    let name = of.name.clone()?;
    let variables = copied_variables(alloc, of.variables.as_slice())?;
    let params = declared_params(alloc, of.params.as_slice())?;
    let result = annotated_type(alloc, of.at, &of.result)?;
    Ok(Declared::Function {
        at: of.at,
        name,
        variables,
        params,
        result,
    })
}

fn declared_member(alloc: Global, of: &ClassMember) -> Result<DeclaredMember, NoMemory>
    ensures { IfOk result (λ member. member ≡ spec.declared_member_of of.now) }
{
    match of {
        ClassMember::Field {
            at,
            is_static,
            read_only,
            name,
            optional,
            annotation,
            value,
        } => {
            let name = name.clone()?;
            let shape = field_type(alloc, *at, *read_only, annotation, value)?;
            Ok(DeclaredMember::Field {
                at: *at,
                is_static: *is_static,
                read_only: *read_only,
                name,
                optional: *optional,
                shape,
            })
        }
        ClassMember::Constructor { at, params, .. } => {
            let params = declared_params(alloc, params.as_slice())?;
            Ok(DeclaredMember::Constructor { at: *at, params })
        }
        ClassMember::Method {
            at,
            is_static,
            name,
            params,
            result,
            ..
        } => {
            let name = name.clone()?;
            let params = declared_params(alloc, params.as_slice())?;
            let result = annotated_type(alloc, *at, result)?;
            Ok(DeclaredMember::Method {
                at: *at,
                is_static: *is_static,
                name,
                params,
                result,
            })
        }
    }
}

fn declared_members(alloc: Global, all: &[ClassMember]) -> Result<Items<DeclaredMember>, NoMemory>
    ensures { IfOk result (λ members. members ≡ map spec.declared_member_of all.now) }
{
    let mut members = Items::new(alloc);
    for member in all {
        members.push(declared_member(alloc, member)?)?;
    }
    Ok(members)
}

pub(crate) fn declared_class(
    alloc: Global,
    of: &ClassDeclaration,
) -> Result<DeclaredClass, NoMemory>
    ensures { IfOk result (λ class. class ≡ spec.declared_class of.now) }
{
    let name = of.name.clone()?;
    let implements = quoted_bases(alloc, of.implements.as_slice())?;
    let members = declared_members(alloc, of.members.as_slice())?;
    Ok(DeclaredClass {
        at: of.at,
        name,
        implements,
        members,
    })
}

pub(crate) fn declared_interface(alloc: Global, of: &Interface) -> Result<Interface, NoMemory>
    ensures { IfOk result (λ interface. interface ≡ quoted_interface of.now) }
{
    let name = of.name.clone()?;
    let variables = copied_variables(alloc, of.variables.as_slice())?;
    let extends = quoted_bases(alloc, of.extends.as_slice())?;
    let members = quoted_members(alloc, of.members.as_slice())?;
    Ok(Interface {
        at: of.at,
        name,
        variables,
        extends,
        members,
    })
}

pub(crate) fn declared_alias(alloc: Global, of: &Alias) -> Result<Alias, NoMemory>
    ensures { IfOk result (λ alias. alias ≡ quoted_alias of.now) }
{
    let name = of.name.clone()?;
    let variables = copied_variables(alloc, of.variables.as_slice())?;
    let shape = quoted_type(alloc, &of.shape)?;
    Ok(Alias {
        at: of.at,
        name,
        variables,
        shape,
    })
}
