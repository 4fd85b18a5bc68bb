//! The second faults: of inputs, outputs, folders and limits.
ghost use Rattle.std.specs.Prelude.{◌≡◌, ◌++◌, map, length, OnOk};
ghost use Rattle.std.specs.List.{flat_map};
ghost use Rattle.tb_plan.specs.Folders.{covered_faults};
ghost use Rattle.tb_plan.specs.Inputs.{shared_faults};
ghost use Rattle.tb_plan.specs.Limits.{limit_faults};
ghost use Rattle.tb_plan.specs.Members.{HasSame};
ghost use Rattle.tb_plan.specs.Owners.{AreOwners};
ghost use Rattle.tb_plan.specs.Plans.{source_faults};

use crate::covers::add_covered_faults;
use crate::folders::Folders;
use crate::limits::add_limit_faults;
use crate::outputs::{add_outside_faults, add_path_faults};
use crate::shared::add_shared_faults;
use crate::sources::{Sources, add_input_faults};
use std::alloc::Global;
use tb_text::{Diag, NoMemory, Path, Texts};

/// What is wrong with the projects once their inputs are known; all but what their output folders have in common.
pub fn add_second_faults(
    alloc: Global,
    tree: &Texts,
    roots: &[Path],
    folders: &Folders,
    projects: &[Sources],
    faults: &mut Vec<Diag>,
) -> Result<(), NoMemory>
    requires { AreOwners (map (λ p. p.setting) projects.now) folders.now.owners (length projects.now) }
    ensures { OnOk result (HasSame faults.new.items (faults.old.items ++ flat_map (source_faults tree.now) projects.now ++ shared_faults projects.now ++ covered_faults projects.now ++ limit_faults tree.now roots.now projects.now)) }
{
    add_all_source_faults(alloc, tree, projects, faults)?;
    add_shared_faults(alloc, projects, faults)?;
    add_covered_faults(alloc, folders, projects, faults)?;
    add_limit_faults(alloc, tree, roots, projects, faults)?;
    Ok(())
}

fn add_all_source_faults(
    alloc: Global,
    tree: &Texts,
    projects: &[Sources],
    faults: &mut Vec<Diag>,
) -> Result<(), NoMemory>
    ensures { OnOk result (faults.new.items ≡ faults.old.items ++ flat_map (source_faults tree.now) projects.now) }
{
    for project in projects {
        add_source_faults(alloc, tree, project, faults)?;
    }
    Ok(())
}

/// What is wrong with one project and its inputs.
fn add_source_faults(
    alloc: Global,
    tree: &Texts,
    project: &Sources,
    faults: &mut Vec<Diag>,
) -> Result<(), NoMemory>
    ensures { OnOk result (faults.new.items ≡ faults.old.items ++ source_faults tree.now project.now) }
{
    add_input_faults(alloc, tree, project, faults)?;
    add_outside_faults(alloc, project, faults)?;
    add_path_faults(alloc, project, faults)?;
    Ok(())
}
