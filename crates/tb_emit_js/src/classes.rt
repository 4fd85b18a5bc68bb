//! Classes: their members stand on lines of their own.

ghost use Rattle.std.specs.Prelude.{◌≡◌, ◌++◌, OnOk, string_bytes, map};
ghost use Rattle.tb_layout.specs.Erase as erasing;
ghost use Rattle.tb_layout.specs.Js as layout;
ghost use Rattle.tb_layout.specs.Pieces.{text_of};
ghost use Rattle.tb_layout.proofs.Written as written;

use crate::texts::{deeper, put, write_new_line};
use crate::trees::{write_block, write_expr, write_params};
use tb_text::NoMemory;
use tb_tree::{ClassDeclaration, ClassMember, Expr};

/// A class with its members; the closing brace of an empty one stands on a line of its own too.
#[tactic(auto, using(crate::proofs::Joins::assoc, crate::proofs::Lines::class_text))]
pub(crate) fn write_class(out: &mut String, class: &ClassDeclaration) -> Result<(), NoMemory>
    ensures { OnOk result (string_bytes out.new
        ≡ string_bytes out.old ++ text_of (layout.class_pieces (erasing.erased_class class.now))) }
{
    put(out, "class ")?;
    put(out, class.name.as_str())?;
    put(out, " {")?;
    write_members(out, class.members.as_slice(), 0)?;
    put(out, "\n}")?;
    Ok(())
}

/// Members on lines that are one deeper than `n`.
#[tactic(auto, using(crate::proofs::Joins::assoc, crate::proofs::Joins::lines_step))]
fn write_members(out: &mut String, all: &[ClassMember], n: usize) -> Result<(), NoMemory>
    ensures { OnOk result (string_bytes out.new
        ≡ string_bytes out.old ++ text_of (layout.lines n (map written.js_member all.now))) }
{
    let at = deeper(n)?;
    for member in all {
        write_new_line(out, at)?;
        write_member(out, member, at)?;
    }
    Ok(())
}

fn static_text(is_static: bool) -> &'static str
    ensures { result.now ≡ text_of (layout.static_pieces is_static) }
{
    if is_static { "static " } else { "" }
}

/// ` = ` and a value, or nothing.
#[tactic(auto, using(crate::proofs::Joins::assoc, crate::proofs::Bodies::value_some))]
fn write_value(out: &mut String, of: &Option<Expr>, n: usize) -> Result<(), NoMemory>
    ensures { OnOk result (string_bytes out.new
        ≡ string_bytes out.old ++ text_of (layout.value_pieces n (written.js_optional of.now))) }
{
    match of {
        Some(value) => {
            put(out, " = ")?;
            write_expr(out, value, n)?;
            Ok(())
        }
        None => Ok(()),
    }
}

#[tactic(auto, using(crate::proofs::Joins::assoc, crate::proofs::Forms::field_member_text, crate::proofs::Forms::constructor_member_text, crate::proofs::Forms::method_member_text))]
fn write_member(out: &mut String, of: &ClassMember, n: usize) -> Result<(), NoMemory>
    ensures { OnOk result (string_bytes out.new ≡ string_bytes out.old ++ text_of (written.js_member of.now n)) }
{
    match of {
        ClassMember::Field {
            is_static,
            name,
            value,
            ..
        } => {
            put(out, static_text(*is_static))?;
            put(out, name.as_str())?;
            write_value(out, value, n)?;
            put(out, ";")?;
            Ok(())
        }
        ClassMember::Constructor { params, body, .. } => {
            put(out, "constructor(")?;
            write_params(out, params.as_slice(), n)?;
            put(out, ") ")?;
            write_block(out, body, n)?;
            Ok(())
        }
        ClassMember::Method {
            is_static,
            name,
            params,
            body,
            ..
        } => {
            put(out, static_text(*is_static))?;
            put(out, name.as_str())?;
            put(out, "(")?;
            write_params(out, params.as_slice(), n)?;
            put(out, ") ")?;
            write_block(out, body, n)?;
            Ok(())
        }
    }
}
