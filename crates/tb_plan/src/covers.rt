//! Faults of configs and inputs that lie inside an output folder.
ghost use Rattle.std.specs.Prelude.{◌≡◌, ◌++◌, map, length, IfOk, OnOk};
ghost use Rattle.std.specs.List.{flat_map};
ghost use Rattle.tb_plan.specs.Folders.{covered_faults};
ghost use Rattle.tb_plan.specs.Members.{HasSame};
ghost use Rattle.tb_plan.specs.Owners.{AreOwners};
ghost use Rattle.tb_plan.specs.Covers.{covered_at, fault_by};

use crate::faults::own_fault;
use crate::folders::Folders;
use crate::keys::member_at;
use crate::sources::Sources;
use std::alloc::Global;
use tb_text::{Diag, NoMemory, Path};

/// A fault for each config that was read and each input inside an output folder, at the project that has the folder.
pub fn add_covered_faults(
    alloc: Global,
    folders: &Folders,
    projects: &[Sources],
    faults: &mut Vec<Diag>,
) -> Result<(), NoMemory>
    requires { AreOwners (map (λ p. p.setting) projects.now) folders.now.owners (length projects.now) }
    ensures { OnOk result (HasSame faults.new.items (faults.old.items ++ covered_faults projects.now)) }
{
    for project in projects {
        add_covered_project(alloc, folders, projects, project, faults)?;
    }
    Ok(())
}

/// The faults of what a project reads.
fn add_covered_project(
    alloc: Global,
    folders: &Folders,
    projects: &[Sources],
    project: &Sources,
    faults: &mut Vec<Diag>,
) -> Result<(), NoMemory>
    requires { AreOwners (map (λ p. p.setting) projects.now) folders.now.owners (length projects.now) }
    ensures { OnOk result (HasSame faults.new.items (faults.old.items ++ flat_map (covered_at projects.now) (project.now.setting.read ++ project.now.inputs))) }
{
    let read = project.setting.read.as_slice();
    add_covered(alloc, folders, projects, read, faults)?;
    let inputs = project.inputs.as_slice();
    add_covered(alloc, folders, projects, inputs, faults)?;
    Ok(())
}

fn add_covered(
    alloc: Global,
    folders: &Folders,
    projects: &[Sources],
    paths: &[Path],
    faults: &mut Vec<Diag>,
) -> Result<(), NoMemory>
    requires { AreOwners (map (λ p. p.setting) projects.now) folders.now.owners (length projects.now) }
    ensures { OnOk result (HasSame faults.new.items (faults.old.items ++ flat_map (covered_at projects.now) paths.now)) }
{
    for path in paths {
        add_covered_path(alloc, folders, projects, path, faults)?;
    }
    Ok(())
}

fn add_covered_path(
    alloc: Global,
    folders: &Folders,
    projects: &[Sources],
    path: &Path,
    faults: &mut Vec<Diag>,
) -> Result<(), NoMemory>
    requires { AreOwners (map (λ p. p.setting) projects.now) folders.now.owners (length projects.now) }
    ensures { OnOk result (HasSame faults.new.items (faults.old.items ++ covered_at projects.now path.now)) }
{
    let numbers = folders.around(alloc, path)?;
    for number in numbers.as_slice() {
        add_by_number(alloc, projects, *number, path, faults)?;
    }
    Ok(())
}

fn add_by_number(
    alloc: Global,
    projects: &[Sources],
    number: usize,
    path: &Path,
    faults: &mut Vec<Diag>,
) -> Result<(), NoMemory>
    ensures { OnOk result (faults.new.items ≡ faults.old.items ++ fault_by projects.now path.now number) }
{
    match member_at(projects, number) {
        Some(project) => {
            faults.push(own_fault(alloc, &project.setting.config, 5009, path.as_str())?)?;
            Ok(())
        }
        None => Ok(()),
    }
}
