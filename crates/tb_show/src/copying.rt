//! Copies of types in which each string has its one spelling.

ghost use Rattle.std.specs.Prelude.{◌≡◌, map, IfOk};
ghost use Rattle.tb_layout.specs.Quoted as spec;

use crate::strings::quoted;
use sqlite_items::{Boxed, Items};
use std::alloc::Global;
use tb_text::NoMemory;
use tb_tree::{Base, Key, TypeExpr, TypeMember, TypeParam};

/// A word as it is, a string in its one spelling.
fn quoted_key(alloc: Global, of: &Key) -> Result<Key, NoMemory>
    ensures { IfOk result (λ key. key ≡ spec.quoted_key of.now) }
{
    match of {
        Key::Word(name) => Ok(Key::Word(name.clone()?)),
        Key::String(spelled) => Ok(Key::String(quoted(alloc, spelled.as_str())?)),
    }
}

#[cycle(copying)]
#[tactic(auto, using(tb_layout::proofs::Quoting::keyword_type, tb_layout::proofs::Quoting::boolean_type, tb_layout::proofs::Quoting::string_type, tb_layout::proofs::Quoting::integer_type, tb_layout::proofs::Quoting::written_type, tb_layout::proofs::Quoting::array_type, tb_layout::proofs::Quoting::function_type, tb_layout::proofs::Quoting::object_type, tb_layout::proofs::Quoting::union_type, tb_layout::proofs::Quoting::named_type, tb_layout::proofs::Quoting::class_type, tb_layout::proofs::Quoting::param_type, tb_layout::proofs::Quoting::generic_type))]
pub fn quoted_type(alloc: Global, of: &TypeExpr) -> Result<TypeExpr, NoMemory>
    ensures { IfOk result (λ shape. shape ≡ spec.quoted_type of.now) }
{
    match of {
        TypeExpr::Keyword { at, keyword } => Ok(TypeExpr::Keyword {
            at: *at,
            keyword: *keyword,
        }),
        TypeExpr::Boolean { at, value } => Ok(TypeExpr::Boolean {
            at: *at,
            value: *value,
        }),
        TypeExpr::String { at, spelled } => {
            let spelled = quoted(alloc, spelled.as_str())?;
            Ok(TypeExpr::String { at: *at, spelled })
        }
        TypeExpr::Integer { at, minus, digits } => {
            let digits = digits.clone()?;
            Ok(TypeExpr::Integer {
                at: *at,
                minus: *minus,
                digits,
            })
        }
        TypeExpr::Written {
            at,
            name,
            arguments,
        } => {
            let arguments = quoted_types(alloc, arguments.as_slice())?;
            let name = name.clone()?;
            Ok(TypeExpr::Written {
                at: *at,
                name,
                arguments,
            })
        }
        TypeExpr::Array {
            at,
            read_only,
            element,
        } => {
            let element = quoted_box(alloc, element.get())?;
            Ok(TypeExpr::Array {
                at: *at,
                read_only: *read_only,
                element,
            })
        }
        TypeExpr::Function { at, params, result } => {
            let params = quoted_type_params(alloc, params.as_slice())?;
            let result = quoted_box(alloc, result.get())?;
            Ok(TypeExpr::Function {
                at: *at,
                params,
                result,
            })
        }
        TypeExpr::Object { at, members } => {
            let members = quoted_members(alloc, members.as_slice())?;
            Ok(TypeExpr::Object { at: *at, members })
        }
        TypeExpr::Union { at, parts } => {
            let parts = quoted_types(alloc, parts.as_slice())?;
            Ok(TypeExpr::Union { at: *at, parts })
        }
        TypeExpr::Named {
            path,
            name,
            arguments,
        } => {
            let arguments = quoted_types(alloc, arguments.as_slice())?;
            let path = path.clone()?;
            let name = name.clone()?;
            Ok(TypeExpr::Named {
                path,
                name,
                arguments,
            })
        }
        TypeExpr::Class { path, name } => {
            let path = path.clone()?;
            let name = name.clone()?;
            Ok(TypeExpr::Class { path, name })
        }
        TypeExpr::Param { owner, name } => {
            let owner = owner.clone()?;
            let name = name.clone()?;
            Ok(TypeExpr::Param { owner, name })
        }
        TypeExpr::Generic { path, name } => {
            let path = path.clone()?;
            let name = name.clone()?;
            Ok(TypeExpr::Generic { path, name })
        }
    }
}

#[cycle(copying)]
fn quoted_box(alloc: Global, of: &TypeExpr) -> Result<Boxed<TypeExpr>, NoMemory>
    ensures { IfOk result (λ shape. shape ≡ spec.quoted_type of.now) }
{
    let shape = quoted_type(alloc, of)?;
    Ok(Boxed::new(alloc, shape)?)
}

#[cycle(copying)]
fn quoted_types(alloc: Global, all: &[TypeExpr]) -> Result<Items<TypeExpr>, NoMemory>
    ensures { IfOk result (λ shapes. shapes ≡ map spec.quoted_type all.now) }
{
    let mut shapes = Items::new(alloc);
    for shape in all {
        shapes.push(quoted_type(alloc, shape)?)?;
    }
    Ok(shapes)
}

#[cycle(copying)]
#[tactic(auto, using(tb_layout::proofs::Quoting::property_member, tb_layout::proofs::Quoting::method_member))]
fn quoted_member(alloc: Global, of: &TypeMember) -> Result<TypeMember, NoMemory>
    ensures { IfOk result (λ member. member ≡ spec.quoted_member of.now) }
{
    match of {
        TypeMember::Property {
            at,
            read_only,
            key,
            optional,
            shape,
        } => {
            let key = quoted_key(alloc, key)?;
            let shape = quoted_box(alloc, shape.get())?;
            Ok(TypeMember::Property {
                at: *at,
                read_only: *read_only,
                key,
                optional: *optional,
                shape,
            })
        }
        TypeMember::Method {
            at,
            key,
            optional,
            params,
            result,
        } => {
            let key = quoted_key(alloc, key)?;
            let params = quoted_type_params(alloc, params.as_slice())?;
            let result = quoted_box(alloc, result.get())?;
            Ok(TypeMember::Method {
                at: *at,
                key,
                optional: *optional,
                params,
                result,
            })
        }
    }
}

#[cycle(copying)]
pub fn quoted_members(alloc: Global, all: &[TypeMember]) -> Result<Items<TypeMember>, NoMemory>
    ensures { IfOk result (λ members. members ≡ map spec.quoted_member all.now) }
{
    let mut members = Items::new(alloc);
    for member in all {
        members.push(quoted_member(alloc, member)?)?;
    }
    Ok(members)
}

#[cycle(copying)]
#[tactic(auto, using(tb_layout::proofs::Quoting::type_param_out))]
fn quoted_type_param(alloc: Global, of: &TypeParam) -> Result<TypeParam, NoMemory>
    ensures { IfOk result (λ param. param ≡ spec.quoted_type_param of.now) }
{
    let name = of.name.clone()?;
    let shape = quoted_box(alloc, of.shape.get())?;
    Ok(TypeParam {
        at: of.at,
        name,
        optional: of.optional,
        shape,
    })
}

#[cycle(copying)]
pub fn quoted_type_params(alloc: Global, all: &[TypeParam]) -> Result<Items<TypeParam>, NoMemory>
    ensures { IfOk result (λ params. params ≡ map spec.quoted_type_param all.now) }
{
    let mut params = Items::new(alloc);
    for param in all {
        params.push(quoted_type_param(alloc, param)?)?;
    }
    Ok(params)
}

fn quoted_base(alloc: Global, of: &Base) -> Result<Base, NoMemory>
    ensures { IfOk result (λ base. base ≡ spec.quoted_base of.now) }
{
    let name = of.name.clone()?;
    let arguments = quoted_types(alloc, of.arguments.as_slice())?;
    Ok(Base {
        at: of.at,
        name,
        arguments,
    })
}

/// Names after `extends` or `implements`.
pub fn quoted_bases(alloc: Global, all: &[Base]) -> Result<Items<Base>, NoMemory>
    ensures { IfOk result (λ bases. bases ≡ map spec.quoted_base all.now) }
{
    let mut bases = Items::new(alloc);
    for base in all {
        bases.push(quoted_base(alloc, base)?)?;
    }
    Ok(bases)
}
