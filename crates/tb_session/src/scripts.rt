ghost use Rattle.std.specs.Prelude.{◌≡◌, ◌++◌, ◌∷◌, [], ℕ, IfOk, IsPermutation, IsSortedByKey, IsTrue, List, OnOk, map};
ghost use Rattle.std.specs.List.{flat_map};
ghost use Rattle.std.specs.Option.{option_to_list};
ghost use Rattle.tb_face.specs.Infos.{spelling};
ghost use Rattle.tb_face.specs.Outputs.{info_text};
ghost use Rattle.tb_outside.specs.declared.disks.DiskStep.TheVariants.{Write};
ghost use Rattle.tb_text.specs.Bytes.{bytes_cmp};
ghost use Rattle.tb_text.specs.Paths.{is_path};
ghost use Rattle.tb_session.specs.Builds.{diag_of, info_with};
ghost use Rattle.tb_session.specs.Scripts.{IsScript};
ghost use Rattle.tb_session.specs.Sources.{Source};
ghost use Rattle.tb_session.specs.Emitted.{emitted_of, entry_diags, output_steps, outputs_made};

use crate::sources::{Emitted, Outputs};
use std::alloc::Global;
use tb_face::{Entry, Info, info_path};
use tb_info::write_info;
use tb_outside::DiskStep;
use tb_plan::Project;
use tb_text::{Diag, Finding, List, NoMemory, Path, PathFault};

fn info_with(alloc: Global, project: &Project, entries: List<Entry>) -> Result<Info, NoMemory>
    ensures { IfOk result (λ info. info ≡ info_with project.now entries) }
{
    Ok(Info {
        project: project.setting.config.clone()?,
        root: project.setting.root.clone()?,
        options: project.options,
        files: entries,
        pending: List::new(alloc),
    })
}

fn info_path_in(alloc: Global, folder: &Path) -> Result<Path, NoMemory>
    requires { IsTrue (is_path (info_text folder.now)) }
    ensures { IfOk result (λ p. p ≡ info_text folder.now) }
{
    match info_path(alloc, folder) {
        Ok(path) => Ok(path),
        Err(PathFault::NoMemory) => Err(NoMemory),
        Err(PathFault::BadPath) => unreachable!(),
    }
}

// The step that writes the info of these entries.
fn info_write(
    alloc: Global,
    project: &Project,
    folder: &Path,
    entries: List<Entry>,
) -> Result<DiskStep, NoMemory>
    requires { IsTrue (is_path (info_text folder.now)) }
    ensures { IfOk result (λ step. step ≡ Write (info_text folder.now) (spelling (info_with project.now entries))) }
{
    let path = info_path_in(alloc, folder)?;
    let info = info_with(alloc, project, entries)?;
    let text = write_info(alloc, &info)?;
    Ok(DiskStep::Write(path, text))
}

/// What was emitted, taken apart: what the info records, by paths, and the outputs, by stems.
#[derive(Drop)]
struct Parts {
    entries: List<Entry>,
    outputs: Vec<Outputs>,
}

fn push_made(outputs: &mut Vec<Outputs>, made: Option<Outputs>) -> Result<(), NoMemory>
    ensures { OnOk result (outputs.new.items ≡ outputs.old.items ++ option_to_list made) }
{
    if let Some(made) = made {
        outputs.push(made)?;
    }
    Ok(())
}

fn taken_apart(alloc: Global, emitted: List<Emitted>) -> Result<Parts, NoMemory>
    ensures entries { IfOk result (λ parts. parts.entries ≡ map (λ each. each.entry) emitted) }
    ensures outputs { IfOk result (λ parts. parts.outputs.items ≡ flat_map outputs_made emitted) }
{
    let mut entries = List::new(alloc);
    let mut outputs = Vec::new(alloc);
    for each in emitted.into_vec() {
        let Emitted {
            entry,
            outputs: made,
        } = each;
        entries.push(entry)?;
        push_made(&mut outputs, made)?;
    }
    Ok(Parts { entries, outputs })
}

fn sort(outputs: &mut Vec<Outputs>)
    ensures same { IsPermutation outputs.old.items outputs.new.items }
    ensures ascending { IsSortedByKey (λ own. own.stem) bytes_cmp outputs.new.items }
{
    outputs.sort_unstable_by(|a, b| a.stem.cmp(&b.stem));
}

fn push_outputs(steps: &mut List<DiskStep>, outputs: Outputs) -> Result<(), NoMemory>
    ensures { OnOk result (steps.new ≡ steps.old ++ output_steps outputs) }
{
    let Outputs {
        stem: _,
        js,
        declaration,
    } = outputs;
    steps.push(js)?;
    steps.push(declaration)?;
    Ok(())
}

fn push_writes(steps: &mut List<DiskStep>, outputs: Vec<Outputs>) -> Result<(), NoMemory>
    ensures { OnOk result (steps.new ≡ steps.old ++ flat_map output_steps outputs.items) }
{
    for own in outputs {
        push_outputs(steps, own)?;
    }
    Ok(())
}

fn push_finding(
    diags: &mut List<Diag>,
    number: u32,
    path: &Path,
    finding: &Finding,
) -> Result<(), NoMemory>
    ensures { OnOk result (diags.new ≡ diags.old ++ diag_of number path.now finding.now ∷ []) }
{
    diags.push(Diag {
        project: number,
        path: path.clone()?,
        finding: finding.clone()?,
    })
}

fn push_findings(diags: &mut List<Diag>, number: u32, entry: &Entry) -> Result<(), NoMemory>
    ensures { OnOk result (diags.new ≡ diags.old ++ entry_diags number entry.now) }
{
    for finding in entry.findings.as_slice() {
        push_finding(diags, number, &entry.path, finding)?;
    }
    Ok(())
}

/// Adds what was found in the project of this number, by what is recorded of its inputs.
pub fn push_diags(diags: &mut List<Diag>, number: u32, emitted: &[Emitted]) -> Result<(), NoMemory>
    ensures { OnOk result (diags.new ≡ diags.old ++ flat_map (λ each. entry_diags number each.entry) emitted.now) }
{
    for each in emitted {
        push_findings(diags, number, &each.entry)?;
    }
    Ok(())
}

/// The steps that write what was emitted of a project, and its info, into its output folder.
pub fn script_of(
    alloc: Global,
    project: &Project,
    folder: &Path,
    emitted: List<Emitted>,
) -> Result<List<DiskStep>, NoMemory>
    requires { IsTrue (is_path (info_text folder.now)) }
    ensures { IfOk result (λ steps. (sources : List Source) → emitted ≡ map (emitted_of folder.now) sources
        → IsScript folder.now (record { project = project.now; sources = sources }) steps) }
{
    let Parts {
        entries,
        mut outputs,
    } = taken_apart(alloc, emitted)?;
    sort(&mut outputs);
    let mut steps = List::new(alloc);
    push_writes(&mut steps, outputs)?;
    steps.push(info_write(alloc, project, folder, entries)?)?;
    Ok(steps)
}
