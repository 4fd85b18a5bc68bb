//! Faults of inputs that two projects have.
ghost use Rattle.std.specs.Prelude.{◌≡◌, ◌++◌, map, fold, OnOk};
ghost use Rattle.std.specs.List.{filter};
ghost use Rattle.std.specs.BTreeSet.{contains, insert_key};
ghost use Rattle.tb_text.specs.Bytes.{bytes_cmp};
ghost use Rattle.tb_plan.specs.Faults.{own_fault};
ghost use Rattle.tb_plan.specs.Inputs.{shared_faults};

use crate::faults::add_if;
use crate::sources::Sources;
use std::alloc::Global;
use std::collections::BTreeSet;
use tb_text::{Diag, NoMemory, Path};

/// A fault for each input of a project that is an input of an earlier one too.
pub fn add_shared_faults(
    alloc: Global,
    projects: &[Sources],
    faults: &mut Vec<Diag>,
) -> Result<(), NoMemory>
    ensures { OnOk result (faults.new.items ≡ faults.old.items ++ shared_faults projects.now) }
{
    let mut seen = BTreeSet::new(alloc);
    for project in projects {
        add_shared(alloc, &seen, project, faults)?;
        add_seen(project.inputs.as_slice(), &mut seen)?;
    }
    Ok(())
}

/// A fault for each input of a project that was seen before.
fn add_shared(
    alloc: Global,
    seen: &BTreeSet<Path>,
    project: &Sources,
    faults: &mut Vec<Diag>,
) -> Result<(), NoMemory>
    ensures { OnOk result (faults.new.items ≡ faults.old.items ++ map (own_fault project.now.setting.config 5015) (filter (contains bytes_cmp seen.now) project.now.inputs)) }
{
    let config = &project.setting.config;
    for path in project.inputs.as_slice() {
        let shared = seen.contains(path);
        add_if(alloc, shared, config, 5015, path.as_str(), faults)?;
    }
    Ok(())
}

fn add_seen(inputs: &[Path], seen: &mut BTreeSet<Path>) -> Result<(), NoMemory>
    ensures { OnOk result (seen.new.keys ≡ fold (insert_key bytes_cmp) seen.old.keys inputs.now) }
{
    for path in inputs {
        seen.insert(path.clone()?)?;
    }
    Ok(())
}
