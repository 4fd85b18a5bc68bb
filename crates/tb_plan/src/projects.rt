//! The projects of a plan.
ghost use Rattle.std.specs.Prelude.{◌≡◌, ◌<◌, ◌^◌, length, map, IfOk};
ghost use Rattle.tb_plan.specs.Projects.{digest_in, entry_of, options_in, projects_of};

use crate::keys::add_number;
use crate::plans::Project;
use crate::sources::Sources;
use crate::upstream::upstream_of;
use std::alloc::Global;
use std::collections::BTreeMap;
use tb_config::{PathRule, Setting};
use tb_face::{Options, PathEntry, options_digest};
use tb_text::{Digest, List, NoMemory, Path};

/// The projects, each with the numbers of all that it references and the digest of its options.
pub fn projects_of(alloc: Global, sources: Vec<Sources>) -> Result<List<Project>, NoMemory>
    requires { length sources.items < 2 ^ 32 }
    ensures { IfOk result (λ projects. projects ≡ projects_of sources.items) }
{
    let mut configs = BTreeMap::new(alloc);
    let mut projects = Vec::new(alloc);
    for source in sources {
        let references = source.setting.references.as_slice();
        let upstream = upstream_of(alloc, &configs, projects.as_slice(), references)?;
        let options = digest_of(alloc, &source.setting)?;
        add_number(alloc, &source.setting.config, projects.len(), &mut configs)?;
        projects.push(Project {
            setting: source.setting,
            inputs: source.inputs,
            upstream,
            options,
        })?;
    }
    Ok(List::from_vec(projects))
}

/// The digest of the options of a project; zeros where it has no output folder.
fn digest_of(alloc: Global, setting: &Setting) -> Result<Digest, NoMemory>
    ensures { IfOk result (λ digest. digest ≡ digest_in setting.now.folder setting.now) }
{
    match &setting.folder {
        Some(folder) => {
            let options = options_in(alloc, folder, setting)?;
            options_digest(alloc, &options)
        }
        None => Ok(Digest::from_bytes([0; 32])),
    }
}

fn options_in(alloc: Global, folder: &Path, setting: &Setting) -> Result<Options, NoMemory>
    ensures { IfOk result (λ options. options ≡ options_in folder.now setting.now) }
{
    Ok(Options {
        out_dir: folder.clone()?,
        paths: path_entries(alloc, setting.paths.as_slice())?,
        project: setting.config.clone()?,
        root_dir: setting.root.clone()?,
    })
}

fn path_entries(alloc: Global, rules: &[PathRule]) -> Result<List<PathEntry>, NoMemory>
    ensures { IfOk result (λ entries. entries ≡ map entry_of rules.now) }
{
    let mut entries = Vec::new(alloc);
    for rule in rules {
        entries.push(path_entry(rule)?)?;
    }
    Ok(List::from_vec(entries))
}

fn path_entry(rule: &PathRule) -> Result<PathEntry, NoMemory>
    ensures { IfOk result (λ entry. entry ≡ entry_of rule.now) }
{
    Ok(PathEntry {
        key: rule.key.clone()?,
        targets: rule.targets.clone()?,
    })
}
