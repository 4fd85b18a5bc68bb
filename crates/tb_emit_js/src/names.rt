//! The names of imports and export lists: those with `type` are passed over.

ghost use Rattle.std.specs.Prelude.{◌≡◌, ◌++◌, OnOk, string_bytes};
ghost use Rattle.tb_layout.specs.Erase as erasing;
ghost use Rattle.tb_layout.specs.Js as layout;
ghost use Rattle.tb_layout.specs.Pieces.{text_of};
ghost use Rattle.tb_emit_js.specs.Items as spec;

use crate::texts::put;
use tb_text::NoMemory;
use tb_tree::{Identifier, Spec};

/// The names that are values, in braces.
#[tactic(auto, using(crate::proofs::Joins::assoc, crate::proofs::Lines::spec_step, crate::proofs::Lines::spec_skip, crate::proofs::Lines::specs_text))]
pub(crate) fn write_specs(out: &mut String, all: &[Spec]) -> Result<(), NoMemory>
    ensures { OnOk result (string_bytes out.new
        ≡ string_bytes out.old ++ text_of (layout.specs_pieces (erasing.erased_specs all.now))) }
{
    put(out, "{")?;
    let mut some = false;
    for spec in all {
        if !spec.type_only {
            put(out, gap_text(some))?;
            write_spec(out, spec)?;
            some = true;
        }
    }
    put(out, end_text(some))?;
    Ok(())
}

/// What stands before a name.
fn gap_text(some: bool) -> &'static str
    ensures { result.now ≡ spec.gap_text some }
{
    if some { ", " } else { " " }
}

/// What stands behind the last name.
fn end_text(some: bool) -> &'static str
    ensures { result.now ≡ spec.end_text some }
{
    if some { " }" } else { "}" }
}

#[tactic(auto, using(crate::proofs::Joins::assoc, crate::proofs::Lines::spec_text))]
fn write_spec(out: &mut String, of: &Spec) -> Result<(), NoMemory>
    ensures { OnOk result (string_bytes out.new ≡ string_bytes out.old ++ text_of (layout.spec_pieces of.now)) }
{
    put(out, of.name.name.as_str())?;
    write_renamed(out, &of.renamed)?;
    Ok(())
}

#[tactic(auto, using(crate::proofs::Joins::assoc, crate::proofs::Lines::renamed_some))]
fn write_renamed(out: &mut String, of: &Option<Identifier>) -> Result<(), NoMemory>
    ensures { OnOk result (string_bytes out.new ≡ string_bytes out.old ++ text_of (layout.renamed_pieces of.now)) }
{
    match of {
        Some(other) => {
            put(out, " as ")?;
            put(out, other.name.as_str())?;
            Ok(())
        }
        None => Ok(()),
    }
}
