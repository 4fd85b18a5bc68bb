//! Faults of the paths of inputs and outputs.
ghost use Rattle.std.specs.Prelude.{◌≡◌, ◌++◌, Some, not, option_map, string_bytes, IfOk, OnOk};
ghost use Rattle.tb_face.specs.Outputs.{output_text, stem_text};
ghost use Rattle.tb_text.specs.Paths.{is_path};
ghost use Rattle.tb_plan.specs.Faults.{fault_if};
ghost use Rattle.tb_plan.specs.Outputs.{faults_of, outside_faults, path_faults, path_faults_in, texts_by};

use crate::faults::add_if;
use crate::sources::Sources;
use std::alloc::Global;
use tb_face::{DECLARATION, NEW_INFO, SCRIPT, stem_text};
use tb_text::{Diag, NoMemory, Path, PathFault};

/// A fault for each input outside the folder from which stems are counted.
pub fn add_outside_faults(
    alloc: Global,
    project: &Sources,
    faults: &mut Vec<Diag>,
) -> Result<(), NoMemory>
    ensures { OnOk result (faults.new.items ≡ faults.old.items ++ outside_faults project.now) }
{
    let setting = &project.setting;
    for path in project.inputs.as_slice() {
        let outside = !path.inside(&setting.root);
        add_if(alloc, outside, &setting.config, 5011, path.as_str(), faults)?;
    }
    Ok(())
}

/// A fault for each stem and each output that is no path.
pub fn add_path_faults(
    alloc: Global,
    project: &Sources,
    faults: &mut Vec<Diag>,
) -> Result<(), NoMemory>
    ensures { OnOk result (faults.new.items ≡ faults.old.items ++ path_faults project.now) }
{
    let setting = &project.setting;
    match &setting.folder {
        Some(folder) => add_folder_faults(
            alloc,
            &setting.config,
            folder,
            &setting.root,
            project.inputs.as_slice(),
            faults,
        ),
        None => Ok(()),
    }
}

fn add_folder_faults(
    alloc: Global,
    config: &Path,
    folder: &Path,
    root: &Path,
    inputs: &[Path],
    faults: &mut Vec<Diag>,
) -> Result<(), NoMemory>
    ensures { OnOk result (faults.new.items ≡ faults.old.items ++ path_faults_in config.now folder.now root.now inputs.now) }
{
    add_output_fault(alloc, config, folder, NEW_INFO, "", faults)?;
    for path in inputs {
        add_output_faults(alloc, config, folder, stem_text(root, path), faults)?;
    }
    Ok(())
}

fn add_output_faults(
    alloc: Global,
    config: &Path,
    folder: &Path,
    stem: Option<&str>,
    faults: &mut Vec<Diag>,
) -> Result<(), NoMemory>
    ensures { OnOk result (faults.new.items ≡ faults.old.items ++ faults_of config.now (texts_by folder.now (option_map (λ s. s.now) stem.entry))) }
{
    match stem {
        Some(stem) => add_stem_faults(alloc, config, folder, stem, faults),
        None => Ok(()),
    }
}

fn add_stem_faults(
    alloc: Global,
    config: &Path,
    folder: &Path,
    stem: &str,
    faults: &mut Vec<Diag>,
) -> Result<(), NoMemory>
    ensures { OnOk result (faults.new.items ≡ faults.old.items ++ faults_of config.now (texts_by folder.now (Some stem.now))) }
{
    add_path_fault(alloc, config, stem, faults)?;
    add_output_fault(alloc, config, folder, stem, SCRIPT, faults)?;
    add_output_fault(alloc, config, folder, stem, DECLARATION, faults)?;
    Ok(())
}

/// A fault where a name with an ending, in a folder, is no path.
fn add_output_fault(
    alloc: Global,
    config: &Path,
    folder: &Path,
    name: &str,
    ending: &str,
    faults: &mut Vec<Diag>,
) -> Result<(), NoMemory>
    ensures { OnOk result (faults.new.items ≡ faults.old.items ++ fault_if (not (is_path (output_text folder.now name.now ending.now))) config.now 5014 (output_text folder.now name.now ending.now)) }
{
    let text = text_in(alloc, folder, name, ending)?;
    add_path_fault(alloc, config, text.as_str(), faults)?;
    Ok(())
}

/// A fault where the text is no path.
fn add_path_fault(
    alloc: Global,
    config: &Path,
    text: &str,
    faults: &mut Vec<Diag>,
) -> Result<(), NoMemory>
    ensures { OnOk result (faults.new.items ≡ faults.old.items ++ fault_if (not (is_path text.now)) config.now 5014 text.now) }
{
    let valid = is_path(alloc, text)?;
    add_if(alloc, !valid, config, 5014, text, faults)
}

fn is_path(alloc: Global, text: &str) -> Result<bool, NoMemory>
    ensures { IfOk result (λ valid. valid ≡ is_path text.now) }
{
    match Path::read(alloc, text) {
        Ok(_) => Ok(true),
        Err(PathFault::BadPath) => Ok(false),
        Err(PathFault::NoMemory) => Err(NoMemory),
    }
}

/// The text of a name with an ending, in a folder.
fn text_in(alloc: Global, folder: &Path, name: &str, ending: &str) -> Result<String, NoMemory>
    ensures { IfOk result (λ text. string_bytes text ≡ output_text folder.now name.now ending.now) }
{
    let mut text = String::from_str(alloc, folder.as_str())?;
    if !folder.as_str().is_empty() {
        text.push_str("/")?;
    }
    text.push_str(name)?;
    text.push_str(ending)?;
    Ok(text)
}
