ghost use Rattle.std.specs.Prelude.{◌≡◌, [], IfOk};
ghost use Rattle.tb_plan.specs.Inputs.{sources_of};
ghost use Rattle.tb_plan.specs.Laws.{PlanOk};
ghost use Rattle.tb_plan.specs.Plans.{Answers, plan_of, planned_of};

use crate::faults::in_order;
use crate::first::first_faults;
use crate::folders::Folders;
use crate::nested::add_nested_faults;
use crate::projects::projects_of;
use crate::second::add_second_faults;
use crate::settings::settings_of;
use crate::sources::sources_of;
use crate::statuses::status_of;
use crate::visit::visit;
use std::alloc::{AllocError, AllocFailed, Global};
use tb_config::Setting;
use tb_text::{Diag, Digest, List, NoMemory, Path, Status, Texts};

/// A project of a plan.
#[derive(Clone, Debug, PartialEq, Eq, Drop)]
pub struct Project {
    pub setting: Setting,
    /// The files that are built, ascending.
    pub inputs: List<Path>,
    /// The numbers of all projects that it references, directly or through others, ascending.
    pub upstream: List<u32>,
    /// The digest of its options. A project without an output folder needs none and has zeros.
    pub options: Digest,
}

/// The projects that are built, each after those that it references.
#[derive(Clone, Debug, PartialEq, Eq, Drop)]
pub struct Plan {
    pub projects: List<Project>,
}

/// Why there is no plan.
#[derive(Debug, Drop)]
pub enum PlanFault {
    /// What is wrong with the configs, their order, inputs, folders or sizes, in the order of diagnostics; and the
    /// status of a run that has these faults.
    Faults { diags: List<Diag>, status: Status },
    NoMemory,
}

impl From<AllocError> for PlanFault {
    ghost use Rattle.std.specs.Prelude.{◌≡◌};
    ghost use Rattle.tb_plan.specs.declared.plans.PlanFault.TheVariants.{NoMemory};

    ghost from_gives = { λ _ e. e ≡ NoMemory };

    fn from(_: AllocError) -> Self {
        PlanFault::NoMemory
    }
}

impl<T: Drop> From<AllocFailed<T>> for PlanFault {
    ghost use Rattle.std.specs.Prelude.{◌≡◌};
    ghost use Rattle.tb_plan.specs.declared.plans.PlanFault.TheVariants.{NoMemory};

    ghost from_gives = { λ _ e. e ≡ NoMemory };

    fn from(_: AllocFailed<T>) -> Self {
        PlanFault::NoMemory
    }
}

impl From<NoMemory> for PlanFault {
    ghost use Rattle.std.specs.Prelude.{◌≡◌};
    ghost use Rattle.tb_plan.specs.declared.plans.PlanFault.TheVariants.{NoMemory as OutOfMemory};

    ghost from_gives = { λ _ e. e ≡ OutOfMemory };

    fn from(_: NoMemory) -> Self {
        PlanFault::NoMemory
    }
}

/// The plan of these roots, which are configs, over the files of a tree; or all its faults.
pub fn make_plan(alloc: Global, tree: &Texts, roots: &[Path]) -> Result<Plan, PlanFault>
    ensures is { Answers result (plan_of tree.now roots.now) }
    ensures ok { IfOk result (PlanOk tree.now) }
{
    let visited = visit(alloc, tree, roots)?;
    let faults = first_faults(alloc, &visited)?;
    if !faults.is_empty() {
        let status = status_of(&visited, roots);
        let diags = in_order(alloc, faults)?;
        return Err(PlanFault::Faults { diags, status });
    }
    let settings = settings_of(alloc, &visited)?;
    plan_in_order(alloc, tree, roots, settings)
}

/// The plan of projects in order, or the faults of their inputs, outputs, folders and limits.
fn plan_in_order(
    alloc: Global,
    tree: &Texts,
    roots: &[Path],
    settings: Vec<Setting>,
) -> Result<Plan, PlanFault>
    requires { roots.now ≡ [] → settings.items ≡ [] }
    ensures { Answers result (planned_of tree.now roots.now (sources_of tree.now settings.items)) }
{
    let folders = Folders::of_projects(alloc, settings.as_slice())?;
    let mut faults = Vec::new(alloc);
    add_nested_faults(alloc, &folders, settings.as_slice(), &mut faults)?;
    let sources = sources_of(alloc, tree, &folders, settings)?;
    let projects = sources.as_slice();
    add_second_faults(alloc, tree, roots, &folders, projects, &mut faults)?;
    if !faults.is_empty() {
        let status = Status::Skipped;
        let diags = in_order(alloc, faults)?;
        return Err(PlanFault::Faults { diags, status });
    }
    let projects = projects_of(alloc, sources)?;
    Ok(Plan { projects })
}
