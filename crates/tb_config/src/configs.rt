//! The configs of a tree, as they are read.
ghost use Rattle.std.specs.Prelude.{◌≡◌, IfOk};
ghost use Rattle.tb_config.specs.Configs.{folder_of};

use crate::contents::{Content, content_in};
use serde_json::Value;
use std::alloc::Global;
use tb_options::{TextOf, extends_texts};
use tb_text::{List, NoMemory, Path, Texts};

#[derive(Drop)]
pub struct Config {
    pub path: Path,
    /// The folder that the config stands in, from which its texts count.
    pub folder: Path,
    pub content: Content,
    ghost in_folder: { folder ≡ folder_of path },
}

impl Config {
    ghost use Rattle.std.specs.Prelude.{◌≡◌, IfOk, option_map};
    ghost use Rattle.serde_json.specs.View.{view};
    ghost use Rattle.tb_config.specs.Bases.{bases_of};
    ghost use Rattle.tb_config.specs.Configs.{config_at, member_of, option_of};
    ghost use Rattle.tb_config.specs.Seen.{seen};

    /// The config at a path of the tree.
    pub fn read(alloc: Global, tree: &Texts, path: &Path) -> Result<Config, NoMemory>
        ensures { IfOk result (λ config. seen config ≡ config_at tree.now path.now) }
    {
        Ok(Config {
            path: path.clone()?,
            folder: folder_of(alloc, path)?,
            content: content_in(alloc, tree.get(path))?,
        })
    }

    /// The member of this name, if there is one.
    pub fn member(&self, name: &str) -> Option<&Value>
        ensures { option_map (λ value. view value.now) result ≡ member_of name.now (seen self.now) }
    {
        self.content.member(name)
    }

    /// The option of this name, if there is one.
    pub fn option(&self, name: &str) -> Option<&Value>
        ensures { option_map (λ value. view value.now) result ≡ option_of name.now (seen self.now) }
    {
        let options = self.member("compilerOptions")?;
        options.get(name)
    }

    /// The bases as written, without those that are no paths.
    pub fn bases(&self, alloc: Global) -> Result<List<Path>, NoMemory>
        ensures { IfOk result (λ bases. bases ≡ bases_of (seen self.now)) }
    {
        let Some(value) = self.member("extends") else {
            return Ok(List::new(alloc));
        };
        match extends_texts(alloc, value)? {
            Some(texts) => TextOf::Base.paths(alloc, &self.folder, texts.as_slice()),
            None => Ok(List::new(alloc)),
        }
    }
}

fn folder_of(alloc: Global, path: &Path) -> Result<Path, NoMemory>
    ensures { IfOk result (λ folder. folder ≡ folder_of path.now) }
{
    match path.parent(alloc)? {
        Some(folder) => Ok(folder),
        None => Ok(path.clone()?),
    }
}
