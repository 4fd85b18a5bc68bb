//! The texts of a config, and the paths that they name.
ghost use Rattle.std.specs.Prelude.{◌≡◌, ◌++◌, IfOk, string_bytes, nat_eq, codes};
ghost use Rattle.std.specs.List.{ends_with, filter_map};
ghost use Rattle.tb_options.specs.Members.{base_text, config_in, config_text, named};
ghost use Rattle.tb_text.specs.Paths.{joined};
ghost use Rattle.tb_text.specs.Walks.{texts};

use std::alloc::{AllocError, Global};
use tb_text::{List, NoMemory, Path, PathFault};

/// What a text of a config names.
#[derive(Clone, Copy, Debug, PartialEq, Eq)]
pub enum TextOf {
    Path,
    /// A config, whose `.json` may be left out.
    Base,
    /// A config, or a folder with its `tsconfig.json`.
    Reference,
}

impl TextOf {
    /// The path that a text of a config in this folder names, if it is one.
    pub fn path(self, alloc: Global, folder: &Path, text: &str) -> Result<Option<Path>, NoMemory>
        ensures { IfOk result (λ path. path ≡ named self folder.now text.now) }
    {
        match self {
            TextOf::Path => join(alloc, folder, text),
            TextOf::Base => {
                let text = base_text(alloc, text)?;
                join(alloc, folder, text.as_str())
            }
            TextOf::Reference => {
                let text = config_text(alloc, text)?;
                join(alloc, folder, text.as_str())
            }
        }
    }

    /// The paths that these texts name, without those texts that name none.
    pub fn paths(self, alloc: Global, folder: &Path, from: &[&str]) -> Result<List<Path>, NoMemory>
        ensures { IfOk result (λ paths. paths ≡ filter_map (named self folder.now) (texts from.now)) }
    {
        let mut paths = Vec::new(alloc);
        for text in from {
            if let Some(path) = self.path(alloc, folder, *text)? {
                paths.push(path)?;
            }
        }
        Ok(List::from_vec(paths))
    }
}

fn join(alloc: Global, folder: &Path, text: &str) -> Result<Option<Path>, NoMemory>
    ensures { IfOk result (λ path. path ≡ joined folder.now text.now) }
{
    match folder.join(alloc, text) {
        Ok(path) => Ok(Some(path)),
        Err(PathFault::BadPath) => Ok(None),
        Err(PathFault::NoMemory) => Err(NoMemory),
    }
}

fn names_json(text: &str) -> bool
    ensures { result ≡ ends_with nat_eq text.now (codes ".json") }
{
    text.as_bytes().ends_with(b".json".as_slice())
}

fn base_text(alloc: Global, text: &str) -> Result<String, AllocError>
    ensures { IfOk result (λ base. string_bytes base ≡ base_text text.now) }
{
    let mut base = String::from_str(alloc, text)?;
    if !names_json(text) {
        base.push_str(".json")?;
    }
    Ok(base)
}

fn config_text(alloc: Global, text: &str) -> Result<String, AllocError>
    ensures { IfOk result (λ config. string_bytes config ≡ config_text text.now) }
{
    if names_json(text) {
        return String::from_str(alloc, text);
    }
    config_in(alloc, text)
}

fn config_in(alloc: Global, text: &str) -> Result<String, AllocError>
    ensures { IfOk result (λ config. string_bytes config ≡ config_in text.now) }
{
    let mut config = String::from_str(alloc, text)?;
    if !text.is_empty() {
        config.push_str("/")?;
    }
    config.push_str("tsconfig.json")?;
    Ok(config)
}
