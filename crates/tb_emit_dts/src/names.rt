//! Imports and export lists. A name keeps its `type` where it stands.

ghost use Rattle.std.specs.Prelude.{◌≡◌, ◌++◌, OnOk, Some, map, string_bytes};
ghost use Rattle.tb_layout.specs.Pieces.{text_of, listed};
ghost use Rattle.tb_layout.specs.Js as js;
ghost use Rattle.tb_layout.specs.Dts as spec;

use crate::texts::{comma_text, put, type_text};
use tb_show::write_quoted;
use tb_text::NoMemory;
use tb_tree::{ExportList, Identifier, Import, Spec, Specifier};

#[tactic(auto, using(tb_show::proofs::Joins::assoc, crate::proofs::Forms::import_list_text, crate::proofs::Forms::import_bare_text))]
pub(crate) fn write_import(out: &mut String, of: &Import) -> Result<(), NoMemory>
    ensures { OnOk result (string_bytes out.new ≡ string_bytes out.old ++ text_of (spec.import_pieces of.now)) }
{
    match of {
        Import::List {
            type_only,
            specs,
            from,
            ..
        } => {
            put(out, "import ")?;
            put(out, type_text(*type_only))?;
            write_specs(out, specs.as_slice())?;
            write_origin(out, from)?;
            put(out, ";")?;
            Ok(())
        }
        Import::Bare { from, .. } => {
            put(out, "import ")?;
            write_quoted(out, from.spelled.as_str())?;
            put(out, ";")?;
            Ok(())
        }
    }
}

#[tactic(auto, using(tb_show::proofs::Joins::assoc, crate::proofs::Forms::export_list_text))]
pub(crate) fn write_export_list(out: &mut String, of: &ExportList) -> Result<(), NoMemory>
    ensures { OnOk result (string_bytes out.new ≡ string_bytes out.old ++ text_of (spec.export_list_pieces of.now)) }
{
    put(out, "export ")?;
    put(out, type_text(of.type_only))?;
    write_specs(out, of.specs.as_slice())?;
    write_from(out, &of.from)?;
    put(out, ";")?;
    Ok(())
}

fn write_from(out: &mut String, of: &Option<Specifier>) -> Result<(), NoMemory>
    ensures { OnOk result (string_bytes out.new ≡ string_bytes out.old ++ text_of (spec.from_pieces of.now)) }
{
    match of {
        Some(from) => write_origin(out, from),
        None => Ok(()),
    }
}

#[tactic(auto, using(tb_show::proofs::Joins::assoc, crate::proofs::Forms::origin_text))]
fn write_origin(out: &mut String, of: &Specifier) -> Result<(), NoMemory>
    ensures { OnOk result (string_bytes out.new ≡ string_bytes out.old ++ text_of (spec.from_pieces (Some of.now))) }
{
    put(out, " from ")?;
    write_quoted(out, of.spelled.as_str())?;
    Ok(())
}

/// Names in braces.
#[tactic(auto, using(tb_show::proofs::Joins::assoc, crate::proofs::Forms::specs_none, crate::proofs::Forms::specs_some))]
fn write_specs(out: &mut String, all: &[Spec]) -> Result<(), NoMemory>
    ensures { OnOk result (string_bytes out.new ≡ string_bytes out.old ++ text_of (spec.typed_specs_pieces all.now)) }
{
    if all.is_empty() {
        return put(out, "{}");
    }
    put(out, "{ ")?;
    write_listed(out, all)?;
    put(out, " }")?;
    Ok(())
}

/// Names with commas between.
#[tactic(auto, using(tb_show::proofs::Joins::assoc))]
fn write_listed(out: &mut String, all: &[Spec]) -> Result<(), NoMemory>
    ensures { OnOk result (string_bytes out.new ≡ string_bytes out.old ++ text_of (listed (map spec.typed_spec_pieces all.now))) }
{
    let mut some = false;
    for spec in all {
        put(out, comma_text(some))?;
        write_spec(out, spec)?;
        some = true;
    }
    Ok(())
}

#[tactic(auto, using(tb_show::proofs::Joins::assoc, crate::proofs::Forms::spec_text))]
fn write_spec(out: &mut String, of: &Spec) -> Result<(), NoMemory>
    ensures { OnOk result (string_bytes out.new ≡ string_bytes out.old ++ text_of (spec.typed_spec_pieces of.now)) }
{
    put(out, type_text(of.type_only))?;
    put(out, of.name.name.as_str())?;
    write_renamed(out, &of.renamed)?;
    Ok(())
}

#[tactic(auto, using(tb_show::proofs::Joins::assoc, crate::proofs::Forms::renamed_some))]
fn write_renamed(out: &mut String, of: &Option<Identifier>) -> Result<(), NoMemory>
    ensures { OnOk result (string_bytes out.new ≡ string_bytes out.old ++ text_of (js.renamed_pieces of.now)) }
{
    match of {
        Some(other) => {
            put(out, " as ")?;
            put(out, other.name.as_str())?;
            Ok(())
        }
        None => Ok(()),
    }
}
