//! The names that occur in declarations.

ghost use Rattle.std.specs.Prelude.{◌≡◌, ◌++◌, ◌∷◌, [], if◌then◌else◌, not, map, filter, flat_map, IfOk, OnOk};
ghost use Rattle.std.specs.BTreeSet.{contains};
ghost use Rattle.tb_text.specs.Bytes.{bytes_cmp};
ghost use Rattle.tb_layout.specs.Parts as spec;
ghost use Rattle.tb_surface.specs.Names.{HasNames};

use std::alloc::Global;
use std::collections::BTreeSet;
use tb_text::{List, Name, NoMemory};
use tb_tree::{
    Alias, Base, ClassDeclaration, ClassMember, Declarator, Function, Identifier, Interface, Param,
    Spec, TypeExpr, TypeMember, TypeParam,
};

#[cycle(naming)]
pub(crate) fn add_type(names: &mut List<Name>, of: &TypeExpr) -> Result<(), NoMemory>
    ensures { OnOk result (names.new ≡ names.old ++ spec.type_names of.now) }
{
    match of {
        TypeExpr::Written {
            name,
            arguments,
            ..
        } => {
            names.push(name.clone()?)?;
            add_types(names, arguments.as_slice())?;
            Ok(())
        }
        TypeExpr::Array { element, .. } => add_type(names, element.get()),
        TypeExpr::Function { params, result, .. } => {
            add_type_params(names, params.as_slice())?;
            add_type(names, result.get())?;
            Ok(())
        }
        TypeExpr::Object { members, .. } => add_members(names, members.as_slice()),
        TypeExpr::Union { parts, .. } => add_types(names, parts.as_slice()),
        TypeExpr::Named { arguments, .. } => add_types(names, arguments.as_slice()),
        TypeExpr::Keyword { .. } => Ok(()),
        TypeExpr::Boolean { .. } => Ok(()),
        TypeExpr::String { .. } => Ok(()),
        TypeExpr::Integer { .. } => Ok(()),
        TypeExpr::Class { .. } => Ok(()),
        TypeExpr::Param { .. } => Ok(()),
        TypeExpr::Generic { .. } => Ok(()),
    }
}

#[cycle(naming)]
fn add_types(names: &mut List<Name>, all: &[TypeExpr]) -> Result<(), NoMemory>
    ensures { OnOk result (names.new ≡ names.old ++ flat_map spec.type_names all.now) }
{
    for shape in all {
        add_type(names, shape)?;
    }
    Ok(())
}

#[cycle(naming)]
fn add_member(names: &mut List<Name>, of: &TypeMember) -> Result<(), NoMemory>
    ensures { OnOk result (names.new ≡ names.old ++ spec.member_names of.now) }
{
    match of {
        TypeMember::Property { shape, .. } => add_type(names, shape.get()),
        TypeMember::Method { params, result, .. } => {
            add_type_params(names, params.as_slice())?;
            add_type(names, result.get())?;
            Ok(())
        }
    }
}

#[cycle(naming)]
fn add_members(names: &mut List<Name>, all: &[TypeMember]) -> Result<(), NoMemory>
    ensures { OnOk result (names.new ≡ names.old ++ flat_map spec.member_names all.now) }
{
    for member in all {
        add_member(names, member)?;
    }
    Ok(())
}

#[cycle(naming)]
fn add_type_param(names: &mut List<Name>, of: &TypeParam) -> Result<(), NoMemory>
    ensures { OnOk result (names.new ≡ names.old ++ spec.type_param_names of.now) }
{
    add_type(names, of.shape.get())
}

#[cycle(naming)]
fn add_type_params(names: &mut List<Name>, all: &[TypeParam]) -> Result<(), NoMemory>
    ensures { OnOk result (names.new ≡ names.old ++ flat_map spec.type_param_names all.now) }
{
    for param in all {
        add_type_param(names, param)?;
    }
    Ok(())
}

fn add_annotation(names: &mut List<Name>, of: &Option<TypeExpr>) -> Result<(), NoMemory>
    ensures { OnOk result (names.new ≡ names.old ++ spec.annotation_names of.now) }
{
    match of {
        Some(shape) => add_type(names, shape),
        None => Ok(()),
    }
}

fn add_param(names: &mut List<Name>, of: &Param) -> Result<(), NoMemory>
    ensures { OnOk result (names.new ≡ names.old ++ spec.param_names of.now) }
{
    add_annotation(names, &of.annotation)
}

fn add_params(names: &mut List<Name>, all: &[Param]) -> Result<(), NoMemory>
    ensures { OnOk result (names.new ≡ names.old ++ flat_map spec.param_names all.now) }
{
    for param in all {
        add_param(names, param)?;
    }
    Ok(())
}

fn add_base(names: &mut List<Name>, of: &Base) -> Result<(), NoMemory>
    ensures { OnOk result (names.new ≡ names.old ++ spec.base_names of.now) }
{
    names.push(of.name.clone()?)?;
    add_types(names, of.arguments.as_slice())?;
    Ok(())
}

fn add_bases(names: &mut List<Name>, all: &[Base]) -> Result<(), NoMemory>
    ensures { OnOk result (names.new ≡ names.old ++ flat_map spec.base_names all.now) }
{
    for base in all {
        add_base(names, base)?;
    }
    Ok(())
}

fn add_class_member(names: &mut List<Name>, of: &ClassMember) -> Result<(), NoMemory>
    ensures { OnOk result (names.new ≡ names.old ++ spec.class_member_names of.now) }
{
    match of {
        ClassMember::Field { annotation, .. } => add_annotation(names, annotation),
        ClassMember::Constructor { params, .. } => add_params(names, params.as_slice()),
        ClassMember::Method { params, result, .. } => {
            add_params(names, params.as_slice())?;
            add_annotation(names, result)?;
            Ok(())
        }
    }
}

fn add_class_members(names: &mut List<Name>, all: &[ClassMember]) -> Result<(), NoMemory>
    ensures { OnOk result (names.new ≡ names.old ++ flat_map spec.class_member_names all.now) }
{
    for member in all {
        add_class_member(names, member)?;
    }
    Ok(())
}

fn variable_set(alloc: Global, variables: &[Identifier]) -> Result<BTreeSet<Name>, NoMemory>
    ensures { IfOk result (λ bound. HasNames bound (map spec.identifier_name variables.now)) }
{
    let mut bound = BTreeSet::new(alloc);
    for variable in variables {
        bound.insert(variable.name.clone()?)?;
    }
    Ok(bound)
}

fn names_without(
    alloc: Global,
    bound: &BTreeSet<Name>,
    names: &[Name],
) -> Result<List<Name>, NoMemory>
    ensures { IfOk result (λ left. left ≡ filter (λ name. not (contains bytes_cmp bound.now name)) names.now) }
{
    let mut left = List::new(alloc);
    for name in names {
        add_unless(&mut left, bound, name)?;
    }
    Ok(left)
}

fn add_unless(left: &mut List<Name>, bound: &BTreeSet<Name>, name: &Name) -> Result<(), NoMemory>
    ensures { OnOk result (left.new ≡ left.old ++ (if contains bytes_cmp bound.now name.now then [] else (name.now ∷ []))) }
{
    if bound.contains(name) {
        return Ok(());
    }
    left.push(name.clone()?)?;
    Ok(())
}

/// The names that no type variable binds.
fn unbound(
    alloc: Global,
    variables: &[Identifier],
    names: List<Name>,
) -> Result<List<Name>, NoMemory>
    ensures { IfOk result (λ left. left ≡ spec.unbound variables.now names) }
{
    if variables.is_empty() {
        return Ok(names);
    }
    let bound = variable_set(alloc, variables)?;
    let left = names_without(alloc, &bound, names.as_slice())?;
    Ok(left)
}

pub(crate) fn variable_names(alloc: Global, of: &Declarator) -> Result<List<Name>, NoMemory>
    ensures { IfOk result (λ names. names ≡ spec.variable_names of.now) }
{
    let mut names = List::new(alloc);
    add_annotation(&mut names, &of.annotation)?;
    Ok(names)
}

pub(crate) fn function_names(alloc: Global, of: &Function) -> Result<List<Name>, NoMemory>
    ensures { IfOk result (λ names. names ≡ spec.function_names of.now) }
{
    let mut names = List::new(alloc);
    add_params(&mut names, of.params.as_slice())?;
    add_annotation(&mut names, &of.result)?;
    let left = unbound(alloc, of.variables.as_slice(), names)?;
    Ok(left)
}

pub(crate) fn class_names(alloc: Global, of: &ClassDeclaration) -> Result<List<Name>, NoMemory>
    ensures { IfOk result (λ names. names ≡ spec.class_names of.now) }
{
    let mut names = List::new(alloc);
    add_bases(&mut names, of.implements.as_slice())?;
    add_class_members(&mut names, of.members.as_slice())?;
    Ok(names)
}

pub(crate) fn interface_names(alloc: Global, of: &Interface) -> Result<List<Name>, NoMemory>
    ensures { IfOk result (λ names. names ≡ spec.interface_names of.now) }
{
    let mut names = List::new(alloc);
    add_bases(&mut names, of.extends.as_slice())?;
    add_members(&mut names, of.members.as_slice())?;
    let left = unbound(alloc, of.variables.as_slice(), names)?;
    Ok(left)
}

pub(crate) fn alias_names(alloc: Global, of: &Alias) -> Result<List<Name>, NoMemory>
    ensures { IfOk result (λ names. names ≡ spec.alias_names of.now) }
{
    let mut names = List::new(alloc);
    add_type(&mut names, &of.shape)?;
    let left = unbound(alloc, of.variables.as_slice(), names)?;
    Ok(left)
}

/// The name that an imported name has in this file.
pub(crate) fn imported_name(of: &Spec) -> &Name
    ensures { result.now ≡ spec.imported_name of.now }
{
    match &of.renamed {
        Some(renamed) => &renamed.name,
        None => &of.name.name,
    }
}
