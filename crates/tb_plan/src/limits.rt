//! The limits of a plan.
ghost use Rattle.std.specs.Prelude.{◌≡◌, ◌++◌, ◌-◌, ◌^◌, min, codes, map, sum_by, OnOk};
ghost use Rattle.std.specs.List.{filter, flat_map, list_any};
ghost use Rattle.tb_plan.specs.Faults.{own_fault};
ghost use Rattle.tb_plan.specs.Limits.{size_of, is_large, files_in, bytes_in, project_limits, plan_limits, root_limits, limit_faults};

use crate::faults::add_if;
use crate::sources::Sources;
use std::alloc::Global;
use tb_text::{Diag, NoMemory, Path, Texts};

/// Projects in a plan, solutions included.
const MOST_PROJECTS: usize = 512;

/// Inputs in a plan, each project's counted.
const MOST_FILES: u64 = 20_000;

/// Bytes of one input or config.
const MOST_BYTES: usize = 4_194_304;

/// Bytes of all inputs, each project's counted.
const MOST_BYTES_TOGETHER: u64 = 268_435_456;

/// `extends` on one chain.
const MOST_EXTENDS: u64 = 32;

/// A fault for each limit that is passed.
pub fn add_limit_faults(
    alloc: Global,
    tree: &Texts,
    roots: &[Path],
    projects: &[Sources],
    faults: &mut Vec<Diag>,
) -> Result<(), NoMemory>
    ensures { OnOk result (faults.new.items ≡ faults.old.items ++ limit_faults tree.now roots.now projects.now) }
{
    add_plan_limits(alloc, tree, roots, projects, faults)?;
    for project in projects {
        add_project_limits(alloc, tree, project, faults)?;
    }
    Ok(())
}

/// What is counted over the whole plan, at the first root.
fn add_plan_limits(
    alloc: Global,
    tree: &Texts,
    roots: &[Path],
    projects: &[Sources],
    faults: &mut Vec<Diag>,
) -> Result<(), NoMemory>
    ensures { OnOk result (faults.new.items ≡ faults.old.items ++ plan_limits tree.now roots.now projects.now) }
{
    match roots {
        [] => Ok(()),
        [root, ..] => add_root_limits(alloc, tree, root, projects, faults),
    }
}

fn add_root_limits(
    alloc: Global,
    tree: &Texts,
    root: &Path,
    projects: &[Sources],
    faults: &mut Vec<Diag>,
) -> Result<(), NoMemory>
    ensures { OnOk result (faults.new.items ≡ faults.old.items ++ root_limits tree.now root.now projects.now) }
{
    let many_projects = projects.len() > MOST_PROJECTS;
    add_if(alloc, many_projects, root, 5012, "projects", faults)?;
    let many_files = files_in(projects) > MOST_FILES;
    add_if(alloc, many_files, root, 5012, "files", faults)?;
    let many_bytes = bytes_in(tree, projects) > MOST_BYTES_TOGETHER;
    add_if(alloc, many_bytes, root, 5012, "bytes", faults)?;
    Ok(())
}

fn add_project_limits(
    alloc: Global,
    tree: &Texts,
    project: &Sources,
    faults: &mut Vec<Diag>,
) -> Result<(), NoMemory>
    ensures { OnOk result (faults.new.items ≡ faults.old.items ++ project_limits tree.now project.now) }
{
    let config = &project.setting.config;
    let large = some_large(tree, project.inputs.as_slice());
    add_if(alloc, large, config, 5012, "bytes", faults)?;
    let long = project.setting.chain > MOST_EXTENDS;
    add_if(alloc, long, config, 5012, "extends", faults)?;
    add_large_configs(alloc, tree, project.setting.read.as_slice(), faults)
}

/// At itself, each config that is too large.
fn add_large_configs(
    alloc: Global,
    tree: &Texts,
    configs: &[Path],
    faults: &mut Vec<Diag>,
) -> Result<(), NoMemory>
    ensures { OnOk result (faults.new.items ≡ faults.old.items ++ map (λ config. own_fault config 5012 (codes "bytes")) (filter (is_large tree.now) configs.now)) }
{
    for config in configs {
        add_if(alloc, is_large(tree, config), config, 5012, "bytes", faults)?;
    }
    Ok(())
}

fn some_large(tree: &Texts, paths: &[Path]) -> bool
    ensures { result ≡ list_any (is_large tree.now) paths.now }
{
    for path in paths {
        if is_large(tree, path) {
            return true;
        }
    }
    false
}

fn is_large(tree: &Texts, path: &Path) -> bool
    ensures { result ≡ is_large tree.now path.now }
{
    size_of(tree, path) > MOST_BYTES
}

fn size_of(tree: &Texts, path: &Path) -> usize
    ensures { result ≡ size_of tree.now path.now }
{
    match tree.get(path) {
        Some(text) => text.len(),
        None => 0,
    }
}

/// The inputs of all projects, or the last value of `u64`.
fn files_in(projects: &[Sources]) -> u64
    ensures { result ≡ min (files_in projects.now) (2 ^ 64 - 1) }
{
    let mut files: u64 = 0;
    for project in projects {
        files = files.saturating_add(project.inputs.len() as u64);
    }
    files
}

/// The bytes of all inputs, or the last value of `u64`.
fn bytes_in(tree: &Texts, projects: &[Sources]) -> u64
    ensures { result ≡ min (bytes_in tree.now projects.now) (2 ^ 64 - 1) }
{
    let mut bytes: u64 = 0;
    for project in projects {
        bytes = bytes.saturating_add(bytes_of(tree, project.inputs.as_slice()));
    }
    bytes
}

fn bytes_of(tree: &Texts, inputs: &[Path]) -> u64
    ensures { result ≡ min (sum_by (size_of tree.now) inputs.now) (2 ^ 64 - 1) }
{
    let mut bytes: u64 = 0;
    for path in inputs {
        bytes = bytes.saturating_add(size_of(tree, path) as u64);
    }
    bytes
}
