//! The projects with their inputs.
ghost use Rattle.std.specs.Prelude.{◌≡◌, ◌++◌, length, IfOk, OnOk, List as Members};
ghost use Rattle.tb_config.specs.declared.setting.Setting.{Setting};
ghost use Rattle.tb_plan.specs.Inputs.{input_faults, lack_faults, name_faults, sources_of};
ghost use Rattle.tb_plan.specs.Owners.{AreOwners};

use crate::faults::add_if;
use crate::folders::Folders;
use crate::inputs::{findable, inputs_of, is_file, is_source, named_by};
use std::alloc::Global;
use tb_config::Setting;
use tb_text::{Diag, List, NoMemory, Path, Texts};

/// A project's setting, with its inputs.
#[derive(Clone, Debug, Drop)]
pub struct Sources {
    pub setting: Setting,
    pub inputs: List<Path>,
}

/// Each of these projects with its inputs.
pub fn sources_of(
    alloc: Global,
    tree: &Texts,
    folders: &Folders,
    settings: Vec<Setting>,
) -> Result<Vec<Sources>, NoMemory>
    requires { AreOwners settings.items folders.now.owners (length settings.items) }
    ensures { IfOk result (λ projects. projects.items ≡ sources_of tree.now settings.items) }
{
    let findable = findable(alloc, tree, folders)?;
    let mut projects = Vec::new(alloc);
    for setting in settings {
        let inputs = inputs_of(alloc, tree, findable.as_slice(), &setting)?;
        projects.push(Sources { setting, inputs })?;
    }
    Ok(projects)
}

/// A fault for each named file that is none, and one where a project has no input.
pub fn add_input_faults(
    alloc: Global,
    tree: &Texts,
    project: &Sources,
    faults: &mut Vec<Diag>,
) -> Result<(), NoMemory>
    ensures { OnOk result (faults.new.items ≡ faults.old.items ++ input_faults tree.now project.now) }
{
    add_name_faults(alloc, tree, &project.setting, faults)?;
    add_lack_fault(alloc, project, faults)?;
    Ok(())
}

fn add_name_faults(
    alloc: Global,
    tree: &Texts,
    setting: &Setting,
    faults: &mut Vec<Diag>,
) -> Result<(), NoMemory>
    ensures { OnOk result (faults.new.items ≡ faults.old.items ++ name_faults tree.now setting.now) }
{
    for path in named_by(setting) {
        let missing = !(is_file(tree, path) && is_source(path.as_str()));
        add_if(alloc, missing, &setting.config, 5010, path.as_str(), faults)?;
    }
    Ok(())
}

fn add_lack_fault(alloc: Global, project: &Sources, faults: &mut Vec<Diag>) -> Result<(), NoMemory>
    ensures { OnOk result (faults.new.items ≡ faults.old.items ++ lack_faults project.now.setting project.now.inputs) }
{
    let setting = &project.setting;
    let lacks = !setting.solution && project.inputs.is_empty();
    add_if(alloc, lacks, &setting.config, 5013, "files", faults)?;
    Ok(())
}
