//! Interfaces and classes: each member stands on a line of its own.

ghost use Rattle.std.specs.Prelude.{◌≡◌, ◌++◌, OnOk, flat_map, map, string_bytes};
ghost use Rattle.tb_layout.specs.Pieces.{text_of};
ghost use Rattle.tb_layout.specs.Shown as shown;
ghost use Rattle.tb_layout.specs.Dts as spec;

use crate::headings::{
    write_colon, write_extended, write_implemented, write_params, write_variables,
};
use crate::texts::{optional_text, put, read_only_text, static_text};
use tb_show::write_member;
use tb_text::NoMemory;
use tb_tree::{DeclaredClass, DeclaredMember, Interface, TypeMember};

#[tactic(auto, using(tb_show::proofs::Joins::assoc, crate::proofs::Forms::interface_text))]
pub(crate) fn write_interface(out: &mut String, of: &Interface) -> Result<(), NoMemory>
    ensures { OnOk result (string_bytes out.new ≡ string_bytes out.old ++ text_of (spec.interface_pieces of.now)) }
{
    put(out, "interface ")?;
    put(out, of.name.as_str())?;
    write_variables(out, of.variables.as_slice())?;
    write_extended(out, of.extends.as_slice())?;
    put(out, " {")?;
    write_member_lines(out, of.members.as_slice())?;
    put(out, "\n}")?;
    Ok(())
}

#[tactic(auto, using(tb_show::proofs::Joins::assoc, crate::proofs::Forms::lines_step))]
fn write_member_lines(out: &mut String, all: &[TypeMember]) -> Result<(), NoMemory>
    ensures { OnOk result (string_bytes out.new ≡ string_bytes out.old ++ text_of (flat_map spec.member_line (map shown.shown_member all.now))) }
{
    for member in all {
        put(out, "\n    ")?;
        write_member(out, member)?;
        put(out, ";")?;
    }
    Ok(())
}

#[tactic(auto, using(tb_show::proofs::Joins::assoc, crate::proofs::Forms::class_text))]
pub(crate) fn write_class(out: &mut String, of: &DeclaredClass) -> Result<(), NoMemory>
    ensures { OnOk result (string_bytes out.new ≡ string_bytes out.old ++ text_of (spec.declare_pieces ++ spec.class_pieces of.now)) }
{
    put(out, "declare class ")?;
    put(out, of.name.as_str())?;
    write_implemented(out, of.implements.as_slice())?;
    put(out, " {")?;
    write_class_lines(out, of.members.as_slice())?;
    put(out, "\n}")?;
    Ok(())
}

#[tactic(auto, using(tb_show::proofs::Joins::assoc, crate::proofs::Forms::lines_step))]
fn write_class_lines(out: &mut String, all: &[DeclaredMember]) -> Result<(), NoMemory>
    ensures { OnOk result (string_bytes out.new ≡ string_bytes out.old ++ text_of (flat_map spec.member_line (map spec.declared_member_pieces all.now))) }
{
    for member in all {
        put(out, "\n    ")?;
        write_class_member(out, member)?;
        put(out, ";")?;
    }
    Ok(())
}

#[tactic(auto, using(tb_show::proofs::Joins::assoc, crate::proofs::Forms::field_text, crate::proofs::Forms::constructor_text, crate::proofs::Forms::method_text))]
fn write_class_member(out: &mut String, of: &DeclaredMember) -> Result<(), NoMemory>
    ensures { OnOk result (string_bytes out.new ≡ string_bytes out.old ++ text_of (spec.declared_member_pieces of.now)) }
{
    match of {
        DeclaredMember::Field {
            is_static,
            read_only,
            name,
            optional,
            shape,
            ..
        } => {
            put(out, static_text(*is_static))?;
            put(out, read_only_text(*read_only))?;
            put(out, name.as_str())?;
            put(out, optional_text(*optional))?;
            write_colon(out, shape)?;
            Ok(())
        }
        DeclaredMember::Constructor { params, .. } => {
            put(out, "constructor")?;
            write_params(out, params.as_slice())?;
            Ok(())
        }
        DeclaredMember::Method {
            is_static,
            name,
            params,
            result,
            ..
        } => {
            put(out, static_text(*is_static))?;
            put(out, name.as_str())?;
            write_params(out, params.as_slice())?;
            write_colon(out, result)?;
            Ok(())
        }
    }
}
