ghost use Rattle.std.specs.Prelude.{◌≡◌, IfOk};
ghost use Rattle.serde_json.specs.Data.{string};
ghost use Rattle.serde_json.specs.View.{view};
ghost use Rattle.tb_face.specs.Digests.{sha};
ghost use Rattle.tb_face.specs.Infos.{rows_data};
ghost use Rattle.tb_face.specs.Options.{path_entry_data, options_data, options_text, AreOptions};
ghost use Rattle.tb_face.specs.declared.options.Options.{Options};

use crate::digests::digest_of;
use serde_json::{Map, Value, put};
use std::alloc::Global;
use tb_text::{Digest, List, Name, NoMemory, Path, Text};

/// The options of a project that its outputs and findings depend on.
#[derive(Clone, Debug, PartialEq, Eq, Drop)]
pub struct Options {
    /// The folder of the outputs.
    pub out_dir: Path,
    /// The keys of `paths` with their targets, ascending by key.
    pub paths: List<PathEntry>,
    /// The project's config.
    pub project: Path,
    /// The folder from which stems are counted.
    pub root_dir: Path,
}

/// A key of `paths`, with its targets in order, each counted from the folder where the program starts.
#[derive(Clone, Debug, PartialEq, Eq, Drop)]
pub struct PathEntry {
    pub key: Name,
    pub targets: List<Name>,
}

fn text_value(alloc: Global, text: &str) -> Result<Value, NoMemory>
    ensures { IfOk result (λ v. view v ≡ string text.now) }
{
    Ok(Value::String(String::from_str(alloc, text)?))
}

fn names_value(alloc: Global, names: &[Name]) -> Result<Value, NoMemory>
    ensures { IfOk result (λ v. view v ≡ rows_data string names.now) }
{
    let mut values = Vec::new(alloc);
    for name in names {
        values.push(text_value(alloc, name.as_str())?)?;
    }
    Ok(Value::Array(values))
}

#[tactic(auto, unfolding(crate::specs::Options::path_entry_data))]
fn path_entry_value(alloc: Global, entry: &PathEntry) -> Result<Value, NoMemory>
    ensures { IfOk result (λ v. view v ≡ path_entry_data entry.now) }
{
    let key = text_value(alloc, entry.key.as_str())?;
    let targets = names_value(alloc, entry.targets.as_slice())?;
    let mut items = Vec::new(alloc);
    items.push(key)?;
    items.push(targets)?;
    Ok(Value::Array(items))
}

fn path_entries_value(alloc: Global, entries: &[PathEntry]) -> Result<Value, NoMemory>
    ensures { IfOk result (λ v. view v ≡ rows_data path_entry_data entries.now) }
{
    let mut values = Vec::new(alloc);
    for entry in entries {
        values.push(path_entry_value(alloc, entry)?)?;
    }
    Ok(Value::Array(values))
}

#[tactic(auto, unfolding(crate::specs::Options::options_data))]
fn options_value(alloc: Global, options: &Options) -> Result<Value, NoMemory>
    ensures { IfOk result (λ v. view v ≡ options_data options.now) }
{
    let out_dir = text_value(alloc, options.out_dir.as_str())?;
    let paths = path_entries_value(alloc, options.paths.as_slice())?;
    let project = text_value(alloc, options.project.as_str())?;
    let root_dir = text_value(alloc, options.root_dir.as_str())?;
    let mut members = Map::new(alloc);
    put(&mut members, alloc, "outDir", out_dir)?;
    put(&mut members, alloc, "paths", paths)?;
    put(&mut members, alloc, "project", project)?;
    put(&mut members, alloc, "rootDir", root_dir)?;
    Ok(Value::Object(members))
}

/// The options as compact JSON: the text whose digest stands in an info.
pub fn options_text(alloc: Global, options: &Options) -> Result<Text, NoMemory>
    ensures { IfOk result (λ t. t ≡ options_text options.now) }
{
    let value = options_value(alloc, options)?;
    let text = value.to_string(alloc)?;
    Ok(Text::from_vec(text.into_bytes()))
}

/// The digest of a project's options.
pub fn options_digest(alloc: Global, options: &Options) -> Result<Digest, NoMemory>
    ensures { IfOk result (λ d. d ≡ sha (options_text options.now)) }
{
    let text = options_text(alloc, options)?;
    Ok(digest_of(text.as_slice()))
}

/// No two options have one text.
pub fn one_options()
    ensures { (a b : Options) → AreOptions a → AreOptions b → options_text a ≡ options_text b → a ≡ b }
{}
