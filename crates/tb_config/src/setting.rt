ghost use Rattle.std.specs.Prelude.{◌≡◌};

use std::alloc::AllocError;
use tb_globs::Pattern;
use tb_text::{Diag, List, Name, NoMemory, Path};
use thiserror::Error;

/// A rule of `paths`: specifiers that are like the key lead to the targets.
#[derive(Clone, Debug, PartialEq, Eq, Drop)]
pub struct PathRule {
    /// It has at most one `*`.
    pub key: Name,
    /// Each with at most one `*`, and counted from the root.
    pub targets: List<Name>,
}

/// What a config and its bases give. All paths count from the root.
#[derive(Clone, Debug, PartialEq, Eq, Drop)]
pub struct Setting {
    pub config: Path,
    /// It only references other projects: it has no inputs, no outputs and no output folder.
    pub solution: bool,
    pub composite: bool,
    /// The folder that output paths are relative to.
    pub root: Path,
    /// The output folder, which all have but a solution.
    pub folder: Option<Path>,
    /// By their keys, ascending.
    pub paths: List<PathRule>,
    /// As they are written.
    pub files: Option<List<Path>>,
    pub include: List<Pattern>,
    pub exclude: List<Pattern>,
    /// The referenced configs, as they are written.
    pub references: List<Path>,
    /// The config and all its bases, ascending, each once.
    pub read: List<Path>,
    /// How many `extends` are on the longest chain.
    pub chain: u64,
}

/// Why a config has no setting.
#[derive(Clone, Debug, PartialEq, Drop, Error)]
pub enum SettingFault {
    /// What is wrong in the config and its bases: at least one diagnostic, in order, each once, all of project 0.
    #[error("the config has faults")]
    Faults(List<Diag>),
    #[error("out of memory")]
    NoMemory,
}

impl From<AllocError> for SettingFault {
    ghost use Rattle.tb_config.specs.declared.setting.SettingFault.TheVariants.{NoMemory};

    ghost from_gives = { λ _ e. e ≡ NoMemory };

    fn from(_: AllocError) -> Self {
        SettingFault::NoMemory
    }
}

impl From<NoMemory> for SettingFault {
    ghost use Rattle.tb_config.specs.declared.setting.SettingFault.TheVariants.{NoMemory};

    ghost from_gives = { λ _ e. e ≡ NoMemory };

    fn from(_: tb_text::NoMemory) -> Self {
        SettingFault::NoMemory
    }
}
