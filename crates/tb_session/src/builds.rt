//! The projects of a plan, each with the steps that write what is built of it, and what is found in them.

ghost use Rattle.std.specs.Prelude.{◌≡◌, ◌≤◌, ◌++◌, ℕ, All, Contains, IfOk, IfSome, IsNone, IsTrue, List, Some, count_by, length, nat_eq, not, sum_by};
ghost use Rattle.tb_plan.specs.Laws.{HasPaths};
ghost use Rattle.tb_plan.specs.Limits.{most_files, most_projects};
ghost use Rattle.tb_plan.specs.declared.plans.Project.{Project};
ghost use Rattle.tb_session.specs.Builds.{diags_from, project_diags};
ghost use Rattle.tb_session.specs.Scripts.{AreScripts, IsScript};
ghost use Rattle.tb_session.specs.Sources.{Build, Source, AreSources, IsBuild, projects_in};

use crate::publishes::Script;
use crate::scripts::{push_diags, script_of};
use crate::sources::emit_inputs;
use std::alloc::Global;
use tb_plan::Project;
use tb_text::{Diag, List, NoMemory, Path, Texts};

/// What is done for the projects of a plan.
#[derive(Drop)]
pub struct Built {
    /// Of all projects that have an output folder, in plan order.
    pub scripts: List<Script>,
    /// In order.
    pub diags: List<Diag>,
}

// The script of a project of this number with this output folder, where all its inputs are sources. What is found in
// them is added to the diagnostics.
fn project_script(
    alloc: Global,
    texts: &Texts,
    number: u32,
    project: &Project,
    folder: &Path,
    diags: &mut List<Diag>,
) -> Result<Option<Script>, NoMemory>
    requires { HasPaths project.now folder.now }
    ensures found { IfOk result (λ found. IfSome found (λ script. (sources : List Source) × AreSources texts.now project.now.setting.root project.now.inputs sources
        × (script.config ≡ project.now.setting.config) × IsScript folder.now (record { project = project.now; sources = sources }) script.steps
        × (diags.new ≡ diags.old ++ project_diags number (record { project = project.now; sources = sources })))) }
    ensures none { IfOk result (λ found. IsNone found → (sources : List Source) → AreSources texts.now project.now.setting.root project.now.inputs sources → ⊥) }
{
    let root = &project.setting.root;
    let inputs = project.inputs.as_slice();
    let Some(emitted) = emit_inputs(alloc, texts, root, folder, inputs)? else {
        return Ok(None);
    };
    push_diags(diags, number, emitted.as_slice())?;
    Ok(Some(Script {
        config: project.setting.config.clone()?,
        steps: script_of(alloc, project, folder, emitted)?,
    }))
}

/// What is done for these projects; none where an input is no source.
pub fn build(alloc: Global, texts: &Texts, projects: &[Project]) -> Result<Option<Built>, NoMemory>
    requires paths { (project : Project) (folder : List ℕ) → Contains projects.now project → project.setting.folder ≡ Some folder → HasPaths project folder }
    requires few { length projects.now ≤ most_projects }
    ensures found { IfOk result (λ found. IfSome found (λ built. (builds : List Build) × (projects_in builds ≡ projects.now) × All (IsBuild texts.now) builds × AreScripts builds built.scripts
        × (built.diags ≡ diags_from 0 builds))) }
    ensures none { IfOk result (λ found. IsNone found → (builds : List Build) → projects_in builds ≡ projects.now → All (IsBuild texts.now) builds → ⊥) }
{
    let mut scripts = List::new(alloc);
    let mut diags = List::new(alloc);
    let mut number = 0;
    for project in projects {
        if let Some(folder) = &project.setting.folder {
            let Some(script) = project_script(alloc, texts, number, project, folder, &mut diags)?
            else {
                return Ok(None);
            };
            scripts.push(script)?;
        }
        number += 1;
    }
    Ok(Some(Built { scripts, diags }))
}

/// How many inputs the projects have.
pub fn inputs_in(projects: &[Project]) -> u64
    requires { sum_by (λ project. length project.inputs) projects.now ≤ most_files }
    ensures { result ≡ sum_by (λ project. length project.inputs) projects.now }
{
    let mut count = 0;
    for project in projects {
        count += project.inputs.len() as u64;
    }
    count
}

/// How many projects have inputs.
pub fn with_inputs(projects: &[Project]) -> u64
    requires { length projects.now ≤ most_files }
    ensures { result ≡ count_by (λ project. not (nat_eq (length project.inputs) 0)) projects.now }
{
    let mut count = 0;
    for project in projects {
        if !project.inputs.is_empty() {
            count += 1;
        }
    }
    count
}
