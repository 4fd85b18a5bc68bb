ghost use Rattle.std.specs.Prelude.{◌≡◌, ◌∷◌, [], IfOk, IfSome, IsNone};
ghost use Rattle.tb_plan.specs.Laws.{PlanOk};
ghost use Rattle.tb_plan.specs.Plans.{plan_of, Sound, Faulted};
ghost use Rattle.tb_session.specs.Headline.{NotServed};
ghost use Rattle.tb_session.specs.Ready.{IsReady};

use crate::builds::{Built, build, inputs_in, with_inputs};
use crate::publishes::Publication;
use crate::reports::{built_report, built_status, faulted_report};
use std::alloc::Global;
use tb_plan::{Plan, PlanFault, make_plan};
use tb_text::{Diag, List, NoMemory, Path, Status, Texts};

// The list of generation 0.
fn opening_alone(alloc: Global) -> Result<List<u64>, NoMemory>
    ensures { IfOk result (λ settled. settled ≡ 0 ∷ []) }
{
    let mut settled = List::new(alloc);
    settled.push(0)?;
    Ok(settled)
}

// The publication of a plan without faults; none where an input is no source.
fn prepare_plan(
    alloc: Global,
    texts: &Texts,
    roots: &[Path],
    plan: &Plan,
    verbose: bool,
) -> Result<Option<Publication>, NoMemory>
    requires is { plan_of texts.now roots.now ≡ Sound plan.now }
    requires ok { PlanOk texts.now plan.now }
    ensures ready { IfOk result (λ found. IfSome found (IsReady texts.now roots.now verbose)) }
    ensures none { IfOk result (λ found. IsNone found → NotServed texts.now roots.now) }
{
    let projects = plan.projects.as_slice();
    let Some(Built { scripts, diags }) = build(alloc, texts, projects)? else {
        return Ok(None);
    };
    let diags = diags.as_slice();
    Ok(Some(Publication {
        scripts,
        report: built_report(alloc, verbose, texts, projects, diags)?,
        status: built_status(diags),
        settled: opening_alone(alloc)?,
        checked: inputs_in(projects),
        built: with_inputs(projects),
    }))
}

// The publication of a plan's faults: they are printed, and nothing is written.
fn prepare_faults(
    alloc: Global,
    texts: &Texts,
    roots: &[Path],
    diags: &List<Diag>,
    status: Status,
    verbose: bool,
) -> Result<Publication, NoMemory>
    requires { plan_of texts.now roots.now ≡ Faulted diags.now status }
    ensures { IfOk result (IsReady texts.now roots.now verbose) }
{
    Ok(Publication {
        scripts: List::new(alloc),
        report: faulted_report(alloc, diags.as_slice())?,
        status,
        settled: opening_alone(alloc)?,
        checked: 0,
        built: 0,
    })
}

/// The publication of generation 0; none where the texts are not built yet.
pub fn prepare(
    alloc: Global,
    texts: &Texts,
    roots: &[Path],
    verbose: bool,
) -> Result<Option<Publication>, NoMemory>
    ensures ready { IfOk result (λ found. IfSome found (IsReady texts.now roots.now verbose)) }
    ensures none { IfOk result (λ found. IsNone found → NotServed texts.now roots.now) }
{
    match make_plan(alloc, texts, roots) {
        Ok(plan) => prepare_plan(alloc, texts, roots, &plan, verbose),
        Err(PlanFault::Faults { diags, status }) => {
            let publication = prepare_faults(alloc, texts, roots, &diags, status, verbose)?;
            Ok(Some(publication))
        }
        Err(PlanFault::NoMemory) => Err(NoMemory),
    }
}
