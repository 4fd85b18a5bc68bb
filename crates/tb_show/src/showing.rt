//! Types are written in one walk over their trees, into one growing text.

ghost use Rattle.std.specs.Prelude.{◌≡◌, ◌++◌, IfOk, OnOk, flat_map, map, string_bytes};
ghost use Rattle.tb_layout.specs.Pieces.{text_of, listed};
ghost use Rattle.tb_layout.specs.Shown as shown;
ghost use Rattle.tb_show.specs.Loose as spec;

use crate::parts::{is_loose_element, is_loose_part, write_key};
use crate::strings::write_quoted;
use crate::texts::{
    bar_text, comma_text, keyword_text, minus_text, optional_text, put, read_only_text, truth_text,
};
use std::alloc::Global;
use tb_text::{NoMemory, Text};
use tb_tree::{TypeExpr, TypeMember, TypeParam};

/// The text of a type, as declarations and messages print it. Strings stand in double quotes; a class as a value, and a
/// function with type variables, print as `typeof` and the name.
pub fn type_text(alloc: Global, shape: &TypeExpr) -> Result<Text, NoMemory>
    ensures { IfOk result (λ text. text ≡ shown.type_text shape.now) }
{
    let mut out = String::new(alloc);
    write_type(&mut out, shape)?;
    Ok(Text::from_vec(out.into_bytes()))
}

/// Writes the text of a type at the end of a text. Where memory is refused, here and in the other calls that write, a first
/// part of it may stand there.
#[cycle(showing)]
#[tactic(auto, using(crate::proofs::Joins::assoc, crate::proofs::Forms::type_texts))]
pub fn write_type(out: &mut String, of: &TypeExpr) -> Result<(), NoMemory>
    ensures { OnOk result (string_bytes out.new ≡ string_bytes out.old ++ shown.type_text of.now) }
{
    match of {
        TypeExpr::Keyword { keyword, .. } => put(out, keyword_text(*keyword)),
        TypeExpr::Boolean { value, .. } => put(out, truth_text(*value)),
        TypeExpr::String { spelled, .. } => write_quoted(out, spelled.as_str()),
        TypeExpr::Integer { minus, digits, .. } => {
            put(out, minus_text(*minus))?;
            put(out, digits.as_str())?;
            Ok(())
        }
        TypeExpr::Written {
            name,
            arguments,
            ..
        } => {
            put(out, name.as_str())?;
            write_arguments(out, arguments.as_slice())?;
            Ok(())
        }
        TypeExpr::Array {
            read_only,
            element,
            ..
        } => {
            put(out, read_only_text(*read_only))?;
            write_element(out, element.get())?;
            put(out, "[]")?;
            Ok(())
        }
        TypeExpr::Function { params, result, .. } => {
            put(out, "(")?;
            write_type_params(out, params.as_slice())?;
            put(out, ") => ")?;
            write_type(out, result.get())?;
            Ok(())
        }
        TypeExpr::Object { members, .. } => write_body(out, members.as_slice()),
        TypeExpr::Union { parts, .. } => write_parts(out, parts.as_slice()),
        TypeExpr::Named {
            name,
            arguments,
            ..
        } => {
            put(out, name.as_str())?;
            write_arguments(out, arguments.as_slice())?;
            Ok(())
        }
        TypeExpr::Class { name, .. } => write_typeof(out, name.as_str()),
        TypeExpr::Param { name, .. } => put(out, name.as_str()),
        TypeExpr::Generic { name, .. } => write_typeof(out, name.as_str()),
    }
}

#[tactic(auto, using(crate::proofs::Joins::assoc, crate::proofs::Forms::typeof_text))]
fn write_typeof(out: &mut String, name: &str) -> Result<(), NoMemory>
    ensures { OnOk result (string_bytes out.new ≡ string_bytes out.old ++ text_of (shown.typeof_pieces name.now)) }
{
    put(out, "typeof ")?;
    put(out, name)?;
    Ok(())
}

/// The element of an array.
#[cycle(showing)]
#[tactic(auto, using(crate::proofs::Joins::assoc, crate::proofs::Looseness::element_loose, crate::proofs::Looseness::element_tight))]
fn write_element(out: &mut String, of: &TypeExpr) -> Result<(), NoMemory>
    ensures { OnOk result (string_bytes out.new
        ≡ string_bytes out.old ++ text_of (spec.element_pieces of.now)) }
{
    if !is_loose_element(of) {
        return write_type(out, of);
    }
    put(out, "(")?;
    write_type(out, of)?;
    put(out, ")")?;
    Ok(())
}

/// A part of a union.
#[cycle(showing)]
#[tactic(auto, using(crate::proofs::Joins::assoc, crate::proofs::Looseness::part_loose, crate::proofs::Looseness::part_tight))]
fn write_part(out: &mut String, of: &TypeExpr) -> Result<(), NoMemory>
    ensures { OnOk result (string_bytes out.new
        ≡ string_bytes out.old ++ text_of (spec.part_pieces of.now)) }
{
    if !is_loose_part(of) {
        return write_type(out, of);
    }
    put(out, "(")?;
    write_type(out, of)?;
    put(out, ")")?;
    Ok(())
}

/// Parts with ` | ` between them.
#[cycle(showing)]
#[tactic(auto, using(crate::proofs::Joins::assoc))]
fn write_parts(out: &mut String, all: &[TypeExpr]) -> Result<(), NoMemory>
    ensures { OnOk result (string_bytes out.new
        ≡ string_bytes out.old ++ text_of (shown.barred (map shown.shown_type all.now))) }
{
    let mut some = false;
    for part in all {
        put(out, bar_text(some))?;
        write_part(out, part)?;
        some = true;
    }
    Ok(())
}

/// Type arguments in angles, where there are some.
#[cycle(showing)]
#[tactic(auto, using(crate::proofs::Joins::assoc, crate::proofs::Joins::angled_none, crate::proofs::Joins::angled_some))]
pub fn write_arguments(out: &mut String, all: &[TypeExpr]) -> Result<(), NoMemory>
    ensures { OnOk result (string_bytes out.new
        ≡ string_bytes out.old ++ text_of (shown.angled_pieces (map shown.type_pieces all.now))) }
{
    if all.is_empty() {
        return Ok(());
    }
    put(out, "<")?;
    write_types(out, all)?;
    put(out, ">")?;
    Ok(())
}

/// Types with commas between.
#[cycle(showing)]
#[tactic(auto, using(crate::proofs::Joins::assoc))]
fn write_types(out: &mut String, all: &[TypeExpr]) -> Result<(), NoMemory>
    ensures { OnOk result (string_bytes out.new
        ≡ string_bytes out.old ++ text_of (listed (map shown.type_pieces all.now))) }
{
    let mut some = false;
    for shape in all {
        put(out, comma_text(some))?;
        write_type(out, shape)?;
        some = true;
    }
    Ok(())
}

/// The members of an object type, on one line.
#[cycle(showing)]
#[tactic(auto, using(crate::proofs::Joins::assoc, crate::proofs::Joins::body_none, crate::proofs::Joins::body_some))]
fn write_body(out: &mut String, all: &[TypeMember]) -> Result<(), NoMemory>
    ensures { OnOk result (string_bytes out.new
        ≡ string_bytes out.old ++ text_of (shown.body_pieces (map shown.shown_member all.now))) }
{
    if all.is_empty() {
        return put(out, "{}");
    }
    put(out, "{")?;
    write_members(out, all)?;
    put(out, " }")?;
    Ok(())
}

/// Members on one line, each behind a space and with `;` behind it.
#[cycle(showing)]
#[tactic(auto, using(crate::proofs::Joins::assoc, crate::proofs::Joins::inline_step))]
fn write_members(out: &mut String, all: &[TypeMember]) -> Result<(), NoMemory>
    ensures { OnOk result (string_bytes out.new
        ≡ string_bytes out.old ++ text_of (flat_map shown.inline_pieces (map shown.shown_member all.now))) }
{
    for member in all {
        put(out, " ")?;
        write_member(out, member)?;
        put(out, ";")?;
    }
    Ok(())
}

/// A member, without the `;` behind it.
#[cycle(showing)]
#[tactic(auto, using(crate::proofs::Joins::assoc, crate::proofs::Forms::property_member_text, crate::proofs::Forms::method_member_text))]
pub fn write_member(out: &mut String, of: &TypeMember) -> Result<(), NoMemory>
    ensures { OnOk result (string_bytes out.new ≡ string_bytes out.old ++ text_of (shown.shown_member of.now)) }
{
    match of {
        TypeMember::Property {
            read_only,
            key,
            optional,
            shape,
            ..
        } => {
            put(out, read_only_text(*read_only))?;
            write_key(out, key)?;
            put(out, optional_text(*optional))?;
            put(out, ": ")?;
            write_type(out, shape.get())?;
            Ok(())
        }
        TypeMember::Method {
            key,
            optional,
            params,
            result,
            ..
        } => {
            write_key(out, key)?;
            put(out, optional_text(*optional))?;
            put(out, "(")?;
            write_type_params(out, params.as_slice())?;
            put(out, "): ")?;
            write_type(out, result.get())?;
            Ok(())
        }
    }
}

#[cycle(showing)]
#[tactic(auto, using(crate::proofs::Joins::assoc, crate::proofs::Forms::type_param_text))]
fn write_type_param(out: &mut String, of: &TypeParam) -> Result<(), NoMemory>
    ensures { OnOk result (string_bytes out.new ≡ string_bytes out.old ++ text_of (shown.shown_type_param of.now)) }
{
    put(out, of.name.as_str())?;
    put(out, optional_text(of.optional))?;
    put(out, ": ")?;
    write_type(out, of.shape.get())?;
    Ok(())
}

/// Parameters with commas between, without the parentheses.
#[cycle(showing)]
#[tactic(auto, using(crate::proofs::Joins::assoc))]
pub fn write_type_params(out: &mut String, all: &[TypeParam]) -> Result<(), NoMemory>
    ensures { OnOk result (string_bytes out.new
        ≡ string_bytes out.old ++ text_of (listed (map shown.shown_type_param all.now))) }
{
    let mut some = false;
    for param in all {
        put(out, comma_text(some))?;
        write_type_param(out, param)?;
        some = true;
    }
    Ok(())
}
