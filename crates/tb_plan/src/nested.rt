//! Faults of output folders that two projects share.
ghost use Rattle.std.specs.Prelude.{◌≡◌, ◌++◌, length, IfOk, OnOk, List as Members};
ghost use Rattle.std.specs.List.{flat_map};
ghost use Rattle.tb_config.specs.declared.setting.Setting.{Setting};
ghost use Rattle.tb_plan.specs.Folders.{nested_faults};
ghost use Rattle.tb_plan.specs.Members.{HasSame};
ghost use Rattle.tb_plan.specs.Nested.{near_in, nested_by, pair_of, two_by};
ghost use Rattle.tb_plan.specs.Owners.{AreOwners};
ghost use Rattle.std.specs.Prelude.{slice_get};

use crate::faults::own_fault;
use crate::folders::Folders;
use crate::keys::member_at;
use std::alloc::Global;
use tb_config::Setting;
use tb_text::{Diag, NoMemory, Path};

/// A fault at the later of two projects whose output folders are equal, or one of which lies inside the other.
pub fn add_nested_faults(
    alloc: Global,
    folders: &Folders,
    settings: &[Setting],
    faults: &mut Vec<Diag>,
) -> Result<(), NoMemory>
    requires { AreOwners settings.now folders.now.owners (length settings.now) }
    ensures { OnOk result (HasSame faults.new.items (faults.old.items ++ nested_faults settings.now)) }
{
    for (number, setting) in settings.iter().enumerate() {
        add_nested_project(alloc, folders, settings, number, &setting.folder, faults)?;
    }
    Ok(())
}

/// The faults between a project and those whose output folder is its own or has its own inside.
fn add_nested_project(
    alloc: Global,
    folders: &Folders,
    settings: &[Setting],
    number: usize,
    folder: &Option<Path>,
    faults: &mut Vec<Diag>,
) -> Result<(), NoMemory>
    requires { AreOwners settings.now folders.now.owners (length settings.now) }
    ensures { OnOk result (HasSame faults.new.items (faults.old.items ++ nested_by settings.now number folder.now)) }
{
    match folder {
        Some(folder) => {
            let others = near(alloc, folders, folder)?;
            add_all_pairs(alloc, settings, number, others.as_slice(), faults)?;
            Ok(())
        }
        None => Ok(()),
    }
}

/// The numbers of the projects whose output folder is this folder, or has it inside.
fn near(alloc: Global, folders: &Folders, folder: &Path) -> Result<Vec<usize>, NoMemory>
    ensures { IfOk result (λ numbers. (settings : Members Setting) → AreOwners settings folders.now.owners (length settings) → HasSame numbers.items (near_in settings folder.now)) }
{
    let mut numbers = folders.around(alloc, folder)?;
    numbers.extend_from_slice(folders.owners(folder))?;
    Ok(numbers)
}

fn add_all_pairs(
    alloc: Global,
    settings: &[Setting],
    number: usize,
    others: &[usize],
    faults: &mut Vec<Diag>,
) -> Result<(), NoMemory>
    ensures { OnOk result (faults.new.items ≡ faults.old.items ++ flat_map (two_by settings.now number) others.now) }
{
    for other in others {
        add_either(alloc, settings, number, *other, faults)?;
    }
    Ok(())
}

/// A fault at the later of two projects; none where they are one.
fn add_either(
    alloc: Global,
    settings: &[Setting],
    one: usize,
    other: usize,
    faults: &mut Vec<Diag>,
) -> Result<(), NoMemory>
    ensures { OnOk result (faults.new.items ≡ faults.old.items ++ two_by settings.now one other) }
{
    if other < one {
        return add_pair(alloc, settings, one, other, faults);
    }
    if one < other {
        return add_pair(alloc, settings, other, one, faults);
    }
    Ok(())
}

fn add_pair(
    alloc: Global,
    settings: &[Setting],
    later: usize,
    earlier: usize,
    faults: &mut Vec<Diag>,
) -> Result<(), NoMemory>
    ensures { OnOk result (faults.new.items ≡ faults.old.items ++ pair_of (slice_get settings.now later) (slice_get settings.now earlier)) }
{
    let Some(later) = member_at(settings, later) else {
        return Ok(());
    };
    let Some(earlier) = member_at(settings, earlier) else {
        return Ok(());
    };
    faults.push(own_fault(alloc, &later.config, 5008, earlier.config.as_str())?)?;
    Ok(())
}
