//! What is wrong in the object of a config, member by member.
ghost use Rattle.std.specs.Prelude.{◌≡◌, ◌++◌, [], OnOk, codes};
ghost use Rattle.serde_json.specs.Find.{get, as_object};
ghost use Rattle.serde_json.specs.View.{view};
ghost use Rattle.tb_options.specs.Objects.{object_faults, texts_faults, member_faults};
ghost use Rattle.tb_options.specs.Members.{extends_texts, reference_texts};
ghost use Rattle.tb_options.specs.Options.{astray, options_faults};

use crate::faults::{Fault, check_texts, push_fault};
use crate::members::{extends_texts, reference_texts, texts_of};
use crate::options::check_options;
use crate::texts::TextOf;
use serde_json::Value;
use std::alloc::Global;
use tb_text::{NoMemory, Path};

/// Adds what is wrong in the object of a config in this folder. What its references name is not looked at.
pub fn check_object(
    alloc: Global,
    faults: &mut Vec<Fault>,
    folder: &Path,
    object: &Value,
) -> Result<(), NoMemory>
    ensures { OnOk result (faults.new.items ≡ faults.old.items ++ object_faults folder.now (view object.now)) }
{
    check_compiler_options(alloc, faults, folder, object)?;
    check_text_list(alloc, faults, folder, object, "exclude")?;
    check_extends(alloc, faults, folder, object)?;
    check_text_list(alloc, faults, folder, object, "files")?;
    check_text_list(alloc, faults, folder, object, "include")?;
    check_references(alloc, faults, object)
}

fn check_compiler_options(
    alloc: Global,
    faults: &mut Vec<Fault>,
    folder: &Path,
    object: &Value,
) -> Result<(), NoMemory>
    ensures { OnOk result (faults.new.items ≡ faults.old.items ++ member_faults (codes "compilerOptions") as_object (options_faults folder.now) (get (codes "compilerOptions") (view object.now))) }
{
    let Some(value) = object.get("compilerOptions") else {
        return Ok(());
    };
    match value.as_object() {
        Some(options) => check_options(alloc, faults, folder, options),
        None => push_fault(alloc, faults, 5004, "compilerOptions"),
    }
}

fn check_text_list(
    alloc: Global,
    faults: &mut Vec<Fault>,
    folder: &Path,
    object: &Value,
    name: &str,
) -> Result<(), NoMemory>
    ensures { OnOk result (faults.new.items ≡ faults.old.items ++ texts_faults folder.now name.now (view object.now)) }
{
    let Some(value) = object.get(name) else {
        return Ok(());
    };
    match texts_of(alloc, value)? {
        Some(texts) => check_texts(alloc, faults, TextOf::Path, folder, texts.as_slice()),
        None => push_fault(alloc, faults, 5004, name),
    }
}

fn check_extends(
    alloc: Global,
    faults: &mut Vec<Fault>,
    folder: &Path,
    object: &Value,
) -> Result<(), NoMemory>
    ensures { OnOk result (faults.new.items ≡ faults.old.items ++ member_faults (codes "extends") extends_texts (astray TextOf.Base folder.now) (get (codes "extends") (view object.now))) }
{
    let Some(value) = object.get("extends") else {
        return Ok(());
    };
    match extends_texts(alloc, value)? {
        Some(texts) => check_texts(alloc, faults, TextOf::Base, folder, texts.as_slice()),
        None => push_fault(alloc, faults, 5004, "extends"),
    }
}

fn check_references(alloc: Global, faults: &mut Vec<Fault>, object: &Value) -> Result<(), NoMemory>
    ensures { OnOk result (faults.new.items ≡ faults.old.items ++ member_faults (codes "references") reference_texts (λ texts. []) (get (codes "references") (view object.now))) }
{
    let Some(value) = object.get("references") else {
        return Ok(());
    };
    match reference_texts(alloc, value)? {
        Some(_) => Ok(()),
        None => push_fault(alloc, faults, 5004, "references"),
    }
}
