//! The parts of a setting.
ghost use Rattle.std.specs.Prelude.{◌≡◌, Some, None, IfOk, option_map, option_and_then};
ghost use Rattle.std.specs.List.{filter_map};
ghost use Rattle.serde_json.specs.Find.{as_array};
ghost use Rattle.serde_json.specs.View.{view, items_view};
ghost use Rattle.tb_config.specs.Givens.{seen_all, seen_given};
ghost use Rattle.tb_config.specs.Seen.{seen};
ghost use Rattle.tb_config.specs.Settings.{is_solution, is_empty, is_nonempty, path_of, texts_in, path_rule, path_rules, patterns, given_patterns, include_by, exclude_by, whole_folder, references_of, files_by, configs_read, packages, composite_by, root_by, output_folder};
ghost use Rattle.tb_options.specs.Lists.{list_of};
ghost use Rattle.tb_text.specs.Paths.{joined};
ghost use Rattle.tb_text.specs.Walks.{texts};

use crate::PathRule;
use crate::configs::Config;
use crate::givens::{Given, member_in, option_in};
use serde_json::Value;
use std::alloc::{AllocError, Global};
use std::collections::BTreeSet;
use tb_globs::Pattern;
use tb_options::{PathList, TextOf, path_lists, reference_texts, texts_of};
use tb_text::{List, Name, NoMemory, Path, PathFault};

pub const PACKAGES: [&'static str; 3] = ["node_modules", "bower_components", "jspm_packages"];

/// Whether the config has no files, no `include`, and references of its own.
pub fn is_solution(own: &Config, configs: &[&Config]) -> bool
    ensures { result ≡ is_solution (seen own.now) (seen_all configs.now) }
{
    is_empty(member_in(configs, "files"))
        && member_in(configs, "include").is_none()
        && is_nonempty(own.member("references"))
}

fn is_empty(given: Option<Given>) -> bool
    ensures { result ≡ is_empty (option_and_then (λ g. as_array g.value) (option_map seen_given given.entry)) }
{
    let Some(given) = given else {
        return false;
    };
    match given.value.as_array() {
        Some(items) => has_none(items.as_slice()),
        None => false,
    }
}

fn is_nonempty(value: Option<&Value>) -> bool
    ensures { result ≡ is_nonempty (option_and_then as_array (option_map (λ v. view v.now) value.entry)) }
{
    let Some(value) = value else {
        return false;
    };
    match value.as_array() {
        Some(items) => has_some(items.as_slice()),
        None => false,
    }
}

fn has_none(items: &[Value]) -> bool
    ensures { result ≡ is_empty (Some (items_view items.now)) }
{
    match items {
        [] => true,
        [_, ..] => false,
    }
}

fn has_some(items: &[Value]) -> bool
    ensures { result ≡ is_nonempty (Some (items_view items.now)) }
{
    match items {
        [] => false,
        [_, ..] => true,
    }
}

/// The path that an option's text names.
pub fn path_of(alloc: Global, given: Option<Given>) -> Result<Option<Path>, NoMemory>
    ensures { IfOk result (λ path. path ≡ path_of (option_map seen_given given.entry)) }
{
    let Some(given) = given else {
        return Ok(None);
    };
    match given.value.as_str() {
        Some(text) => TextOf::Path.path(alloc, given.folder, text),
        None => Ok(None),
    }
}

fn texts_in<'v>(alloc: Global, value: &'v Value) -> Result<Vec<&'v str>, AllocError>
    ensures { IfOk result (λ found. texts found.items ≡ texts_in (view value.now)) }
{
    match texts_of(alloc, value)? {
        Some(texts) => Ok(texts),
        None => Ok(Vec::new(alloc)),
    }
}

pub fn files_by(alloc: Global, given: Option<Given>) -> Result<Option<List<Path>>, NoMemory>
    ensures { IfOk result (λ files. files ≡ files_by (option_map seen_given given.entry)) }
{
    let Some(given) = given else {
        return Ok(None);
    };
    let texts = texts_in(alloc, given.value)?;
    let files = TextOf::Path.paths(alloc, given.folder, texts.as_slice())?;
    Ok(Some(files))
}

/// The patterns of these texts in the config of a folder, without those texts that are no paths.
fn patterns(alloc: Global, folder: &Path, from: &[&str]) -> Result<List<Pattern>, NoMemory>
    ensures { IfOk result (λ found. found ≡ patterns folder.now (texts from.now)) }
{
    let mut found = Vec::new(alloc);
    for text in from {
        match Pattern::read(alloc, folder, *text) {
            Ok(pattern) => found.push(pattern)?,
            Err(PathFault::BadPath) => {}
            Err(PathFault::NoMemory) => return Err(NoMemory),
        }
    }
    Ok(List::from_vec(found))
}

fn given_patterns(alloc: Global, given: Given) -> Result<List<Pattern>, NoMemory>
    ensures { IfOk result (λ found. found ≡ given_patterns (seen_given given.entry)) }
{
    let texts = texts_in(alloc, given.value)?;
    patterns(alloc, given.folder, texts.as_slice())
}

/// The patterns of `include`, or all files where neither it nor `files` is given.
pub fn include_by(
    alloc: Global,
    include: Option<Given>,
    files: Option<Given>,
    folder: &Path,
) -> Result<List<Pattern>, NoMemory>
    ensures { IfOk result (λ found. found ≡ include_by (option_map seen_given include.entry) (option_map seen_given files.entry) folder.now) }
{
    match (include, files) {
        (Some(include), _) => given_patterns(alloc, include),
        (None, Some(_)) => Ok(List::new(alloc)),
        (None, None) => patterns(alloc, folder, ["**/*"].as_slice()),
    }
}

/// The patterns of `exclude`, or the folders of packages and the output folder.
pub fn exclude_by(
    alloc: Global,
    exclude: Option<Given>,
    folder: &Path,
    output: &Option<Path>,
) -> Result<List<Pattern>, NoMemory>
    ensures { IfOk result (λ found. found ≡ exclude_by (option_map seen_given exclude.entry) folder.now output.now) }
{
    match exclude {
        Some(exclude) => given_patterns(alloc, exclude),
        None => default_exclude(alloc, folder, output),
    }
}

fn default_exclude(
    alloc: Global,
    folder: &Path,
    output: &Option<Path>,
) -> Result<List<Pattern>, NoMemory>
    ensures { IfOk result (λ found. found ≡ exclude_by None folder.now output.now) }
{
    let mut found = package_patterns(alloc, folder)?.into_vec();
    let mut output = whole_folder(alloc, output)?.into_vec();
    found.append(&mut output)?;
    Ok(List::from_vec(found))
}

/// The folders that packages are installed in.
fn package_patterns(alloc: Global, folder: &Path) -> Result<List<Pattern>, NoMemory>
    ensures { IfOk result (λ found. found ≡ patterns folder.now packages) }
{
    patterns(alloc, folder, PACKAGES.as_slice())
}

/// A folder, and all that lies in it.
fn whole_folder(alloc: Global, folder: &Option<Path>) -> Result<List<Pattern>, NoMemory>
    ensures { IfOk result (λ found. found ≡ whole_folder folder.now) }
{
    match folder {
        Some(folder) => patterns(alloc, folder, [""].as_slice()),
        None => Ok(List::new(alloc)),
    }
}

/// The rules of `paths`.
pub fn path_rules(alloc: Global, given: Option<Given>) -> Result<List<PathRule>, NoMemory>
    ensures { IfOk result (λ rules. rules ≡ path_rules (option_map seen_given given.entry)) }
{
    let mut rules = Vec::new(alloc);
    let Some(given) = given else {
        return Ok(List::from_vec(rules));
    };
    let Some(lists) = path_lists(alloc, given.value)? else {
        return Ok(List::from_vec(rules));
    };
    for list in &lists {
        rules.push(path_rule(alloc, given.folder, list)?)?;
    }
    Ok(List::from_vec(rules))
}

fn path_rule(alloc: Global, folder: &Path, list: &PathList) -> Result<PathRule, NoMemory>
    ensures { IfOk result (λ rule. rule ≡ path_rule folder.now (list_of list.now)) }
{
    Ok(PathRule {
        key: Name::copy_of(alloc, list.key)?,
        targets: targets(alloc, folder, list.texts.as_slice())?,
    })
}

fn targets(alloc: Global, folder: &Path, from: &[&str]) -> Result<List<Name>, NoMemory>
    ensures { IfOk result (λ targets. targets ≡ filter_map (joined folder.now) (texts from.now)) }
{
    let mut targets = Vec::new(alloc);
    for text in from {
        if let Some(path) = TextOf::Path.path(alloc, folder, *text)? {
            targets.push(Name::copy_of(alloc, path.as_str())?)?;
        }
    }
    Ok(List::from_vec(targets))
}

/// The configs that the config references.
pub fn references_of(alloc: Global, own: &Config) -> Result<List<Path>, NoMemory>
    ensures { IfOk result (λ references. references ≡ references_of (seen own.now)) }
{
    let Some(value) = own.member("references") else {
        return Ok(List::new(alloc));
    };
    match reference_texts(alloc, value)? {
        Some(texts) => TextOf::Reference.paths(alloc, &own.folder, texts.as_slice()),
        None => Ok(List::new(alloc)),
    }
}

/// The paths of the configs, ascending, each once.
pub fn configs_read(alloc: Global, configs: &[&Config]) -> Result<List<Path>, NoMemory>
    ensures { IfOk result (λ paths. paths ≡ configs_read (seen_all configs.now)) }
{
    let mut paths = BTreeSet::new(alloc);
    for config in configs {
        paths.insert(config.path.clone()?)?;
    }
    listed(alloc, paths)
}

fn listed(alloc: Global, paths: BTreeSet<Path>) -> Result<List<Path>, NoMemory>
    ensures { IfOk result (λ listed. listed ≡ paths.keys) }
{
    let mut listed = Vec::new(alloc);
    for path in paths {
        listed.push(path)?;
    }
    Ok(List::from_vec(listed))
}

pub fn composite_by(given: Option<Given>) -> bool
    ensures { result ≡ composite_by (option_map seen_given given.entry) }
{
    let Some(given) = given else {
        return false;
    };
    given.value.as_bool() == Some(true)
}

/// The path that `rootDir` names, or the folder of the config.
pub fn root_by(alloc: Global, given: Option<Given>, folder: &Path) -> Result<Path, NoMemory>
    ensures { IfOk result (λ root. root ≡ root_by (option_map seen_given given.entry) folder.now) }
{
    match path_of(alloc, given)? {
        Some(root) => Ok(root),
        None => Ok(folder.clone()?),
    }
}

/// The output folder, which a solution has not.
pub fn output_folder(
    alloc: Global,
    own: &Config,
    configs: &[&Config],
) -> Result<Option<Path>, NoMemory>
    ensures { IfOk result (λ folder. folder ≡ output_folder (seen own.now) (seen_all configs.now)) }
{
    if is_solution(own, configs) {
        return Ok(None);
    }
    path_of(alloc, option_in(configs, "outDir"))
}
