ghost use Rattle.std.specs.Prelude.{◌≡◌, ◌&&◌, ◌++◌, codes, length, option_map, IfOk, OnOk, List as Members};
ghost use Rattle.std.specs.List.{filter};
ghost use Rattle.std.specs.List.Sorted.{IsStrictlySortedBy};
ghost use Rattle.std.specs.FinMap.{keys};
ghost use Rattle.tb_config.specs.declared.setting.Setting.{Setting};
ghost use Rattle.tb_face.specs.Outputs.{before_ending};
ghost use Rattle.tb_text.specs.Bytes.{bytes_cmp};
ghost use Rattle.tb_plan.specs.Inputs.{folders_of, inputs_of, is_beside_source, is_file, is_source, may_be_found, named_by};
ghost use Rattle.tb_plan.specs.Orders.{Paths};
ghost use Rattle.tb_plan.specs.Owners.{AreOwners};

use crate::folders::Folders;
use crate::keys::ascending;
use crate::within::add_included;
use std::alloc::Global;
use tb_config::Setting;
use tb_text::{List, NoMemory, Path, PathFault, Texts};

/// The files that `include` may find: sources outside all output folders, and no `x.d.ts` beside `x.ts`.
pub fn findable(alloc: Global, tree: &Texts, folders: &Folders) -> Result<Vec<Path>, NoMemory>
    ensures { IfOk result (λ paths. (settings : Members Setting) → AreOwners settings folders.now.owners (length settings) → paths.items ≡ filter (may_be_found tree.now (folders_of settings)) (keys tree.now)) }
{
    let paths = tree.paths(alloc)?;
    let mut found = Vec::new(alloc);
    for path in paths.as_slice() {
        if may_be_found(alloc, tree, folders, path)? {
            found.push(path.clone()?)?;
        }
    }
    Ok(found)
}

fn may_be_found(
    alloc: Global,
    tree: &Texts,
    folders: &Folders,
    path: &Path,
) -> Result<bool, NoMemory>
    ensures { IfOk result (λ found. (settings : Members Setting) → AreOwners settings folders.now.owners (length settings) → found ≡ may_be_found tree.now (folders_of settings) path.now) }
{
    if !is_source(path.as_str()) {
        return Ok(false);
    }
    if is_beside_source(alloc, tree, path)? {
        return Ok(false);
    }
    let around = folders.around(alloc, path)?;
    Ok(around.is_empty())
}

/// Whether it is an `x.d.ts` and there is an `x.ts`.
fn is_beside_source(alloc: Global, tree: &Texts, path: &Path) -> Result<bool, NoMemory>
    ensures { IfOk result (λ beside. beside ≡ is_beside_source tree.now path.now) }
{
    let Some(stem) = before_declaration(path.as_str()) else {
        return Ok(false);
    };
    let mut text = String::from_str(alloc, stem)?;
    text.push_str(".ts")?;
    match Path::read(alloc, text.as_str()) {
        Ok(source) => Ok(is_file(tree, &source)),
        Err(PathFault::BadPath) => Ok(false),
        Err(PathFault::NoMemory) => Err(NoMemory),
    }
}

fn before_declaration(path: &str) -> Option<&str>
    ensures { option_map (λ stem. stem.now) result ≡ before_ending (codes ".d.ts") path.now }
{
    path.strip_suffix(".d.ts")
}

pub fn is_source(path: &str) -> bool
    ensures { result ≡ is_source path.now }
{
    path.as_bytes().ends_with(b".ts".as_slice())
}

pub fn is_file(tree: &Texts, path: &Path) -> bool
    ensures { result ≡ is_file tree.now path.now }
{
    tree.get(path).is_some()
}

/// The inputs of a project: what `files` names, and what `include` and `exclude` take of the files that may be found.
pub fn inputs_of(
    alloc: Global,
    tree: &Texts,
    findable: &[Path],
    setting: &Setting,
) -> Result<List<Path>, NoMemory>
    requires { IsStrictlySortedBy bytes_cmp findable.now }
    ensures { IfOk result (λ inputs. (folders : Paths) → findable.now ≡ filter (may_be_found tree.now folders) (keys tree.now) → inputs ≡ inputs_of tree.now folders setting.now) }
{
    let mut inputs = Vec::new(alloc);
    add_included(alloc, findable, setting, &mut inputs)?;
    add_named(tree, named_by(setting), &mut inputs)?;
    Ok(List::from_vec(ascending(alloc, inputs)?))
}

fn add_named(tree: &Texts, named: &[Path], inputs: &mut Vec<Path>) -> Result<(), NoMemory>
    ensures { OnOk result (inputs.new.items ≡ inputs.old.items ++ filter (λ path. is_file tree.now path && is_source path) named.now) }
{
    for path in named {
        if is_file(tree, path) && is_source(path.as_str()) {
            inputs.push(path.clone()?)?;
        }
    }
    Ok(())
}

/// The files that `files` names.
pub fn named_by(setting: &Setting) -> &[Path]
    ensures { result.now ≡ named_by setting.now }
{
    match &setting.files {
        Some(files) => files.as_slice(),
        None => &[],
    }
}
