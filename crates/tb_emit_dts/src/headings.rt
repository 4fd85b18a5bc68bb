//! What stands between the name of a declaration and its body: type variables, parameters and the names behind `extends` and
//! `implements`.

ghost use Rattle.std.specs.Prelude.{◌≡◌, ◌++◌, OnOk, codes, map, string_bytes};
ghost use Rattle.tb_layout.specs.Pieces.{text_of, listed};
ghost use Rattle.tb_layout.specs.Js as js;
ghost use Rattle.tb_layout.specs.Shown as shown;
ghost use Rattle.tb_layout.specs.Dts as spec;

use crate::texts::{comma_text, put};
use tb_show::{write_arguments, write_type, write_type_params};
use tb_text::NoMemory;
use tb_tree::{Base, Identifier, TypeExpr, TypeParam};

/// `: ` and a type.
#[tactic(auto, using(tb_show::proofs::Joins::assoc, crate::proofs::Forms::colon_text))]
pub(crate) fn write_colon(out: &mut String, of: &TypeExpr) -> Result<(), NoMemory>
    ensures { OnOk result (string_bytes out.new ≡ string_bytes out.old ++ text_of (shown.colon_pieces (shown.type_pieces of.now))) }
{
    put(out, ": ")?;
    write_type(out, of)?;
    Ok(())
}

/// Parameters in parentheses.
#[tactic(auto, using(tb_show::proofs::Joins::assoc, crate::proofs::Forms::params_text))]
pub(crate) fn write_params(out: &mut String, all: &[TypeParam]) -> Result<(), NoMemory>
    ensures { OnOk result (string_bytes out.new ≡ string_bytes out.old ++ text_of (spec.params_pieces all.now)) }
{
    put(out, "(")?;
    write_type_params(out, all)?;
    put(out, ")")?;
    Ok(())
}

/// Type variables in angles, where there are some.
#[tactic(auto, using(tb_show::proofs::Joins::assoc, tb_show::proofs::Joins::angled_none, tb_show::proofs::Joins::angled_some))]
pub(crate) fn write_variables(out: &mut String, all: &[Identifier]) -> Result<(), NoMemory>
    ensures { OnOk result (string_bytes out.new ≡ string_bytes out.old ++ text_of (spec.variables_pieces all.now)) }
{
    if all.is_empty() {
        return Ok(());
    }
    put(out, "<")?;
    write_identifiers(out, all)?;
    put(out, ">")?;
    Ok(())
}

/// Names with commas between.
#[tactic(auto, using(tb_show::proofs::Joins::assoc, crate::proofs::Forms::name_text))]
fn write_identifiers(out: &mut String, all: &[Identifier]) -> Result<(), NoMemory>
    ensures { OnOk result (string_bytes out.new ≡ string_bytes out.old ++ text_of (listed (map js.name_of all.now))) }
{
    let mut some = false;
    for name in all {
        put(out, comma_text(some))?;
        put(out, name.name.as_str())?;
        some = true;
    }
    Ok(())
}

/// The names after `extends`.
#[tactic(auto, using(tb_show::proofs::Joins::assoc, crate::proofs::Forms::bases_none, crate::proofs::Forms::extended_some))]
pub(crate) fn write_extended(out: &mut String, all: &[Base]) -> Result<(), NoMemory>
    ensures { OnOk result (string_bytes out.new ≡ string_bytes out.old ++ text_of (spec.bases_pieces (codes "extends") all.now)) }
{
    if all.is_empty() {
        return Ok(());
    }
    put(out, " extends ")?;
    write_bases(out, all)?;
    Ok(())
}

/// The names after `implements`.
#[tactic(auto, using(tb_show::proofs::Joins::assoc, crate::proofs::Forms::bases_none, crate::proofs::Forms::implemented_some))]
pub(crate) fn write_implemented(out: &mut String, all: &[Base]) -> Result<(), NoMemory>
    ensures { OnOk result (string_bytes out.new ≡ string_bytes out.old ++ text_of (spec.bases_pieces (codes "implements") all.now)) }
{
    if all.is_empty() {
        return Ok(());
    }
    put(out, " implements ")?;
    write_bases(out, all)?;
    Ok(())
}

#[tactic(auto, using(tb_show::proofs::Joins::assoc))]
fn write_bases(out: &mut String, all: &[Base]) -> Result<(), NoMemory>
    ensures { OnOk result (string_bytes out.new ≡ string_bytes out.old ++ text_of (listed (map spec.base_pieces all.now))) }
{
    let mut some = false;
    for base in all {
        put(out, comma_text(some))?;
        write_base(out, base)?;
        some = true;
    }
    Ok(())
}

#[tactic(auto, using(tb_show::proofs::Joins::assoc, crate::proofs::Forms::base_text))]
fn write_base(out: &mut String, of: &Base) -> Result<(), NoMemory>
    ensures { OnOk result (string_bytes out.new ≡ string_bytes out.old ++ text_of (spec.base_pieces of.now)) }
{
    put(out, of.name.as_str())?;
    write_arguments(out, of.arguments.as_slice())?;
    Ok(())
}
