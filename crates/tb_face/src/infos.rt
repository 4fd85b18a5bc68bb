use std::alloc::AllocError;
use tb_text::{Digest, Edges, Finding, List, NoMemory, Path};
use thiserror::Error;

/// The format that this version writes, as the member `builder` of each info names it. Another value is another
/// format: an info that names one is not read.
pub const BUILDER: &str = "tb1";

/// What a build of a project leaves for the next one.
#[derive(Clone, Debug, PartialEq, Eq, Drop)]
pub struct Info {
    /// The project's config.
    pub project: Path,
    /// The folder from which stems are counted.
    pub root: Path,
    /// The digest of the project's options.
    pub options: Digest,
    /// The inputs, ascending by path.
    pub files: List<Entry>,
    /// Stems whose outputs may not be those of the entries, ascending.
    pub pending: List<Path>,
}

/// What is kept of a file.
#[derive(Clone, Debug, PartialEq, Eq, Drop)]
pub struct Entry {
    pub path: Path,
    /// The digest of the file's bytes.
    pub version: Digest,
    /// The digest of the file's declaration text, which a file with a syntax fault does not have.
    pub signature: Option<Digest>,
    /// Where each import of the file leads, ascending by specifier.
    pub edges: Edges,
    /// The files that it reaches through imports, ascending by path.
    pub reach: List<Reach>,
    /// What was found in it, in the order of diagnostics.
    pub findings: List<Finding>,
}

/// A file that another one reaches, as it was when that one was checked.
#[derive(Clone, Debug, PartialEq, Eq, Drop)]
pub struct Reach {
    pub path: Path,
    pub signature: Option<Digest>,
    /// The edges of the file's declaration text.
    pub edges: Edges,
}

/// Why bytes are not read as an info.
#[derive(Clone, Copy, Debug, PartialEq, Eq, Error)]
pub enum InfoFault {
    /// They are no text of the format; `other` exactly where they are a JSON object whose member `builder` is
    /// not [`BUILDER`], or is absent.
    #[error("not a build info")]
    NotInfo { other: bool },
    #[error("out of memory")]
    NoMemory,
}

impl From<AllocError> for InfoFault {
    ghost use Rattle.std.specs.Prelude.{◌≡◌};
    ghost use Rattle.tb_face.specs.declared.infos.InfoFault.TheVariants.{NoMemory};

    ghost from_gives = { λ _ e. e ≡ NoMemory };

    fn from(_: AllocError) -> Self {
        InfoFault::NoMemory
    }
}

impl From<NoMemory> for InfoFault {
    ghost use Rattle.std.specs.Prelude.{◌≡◌};
    ghost use Rattle.tb_face.specs.declared.infos.InfoFault.TheVariants.{NoMemory};

    ghost from_gives = { λ _ e. e ≡ NoMemory };

    fn from(_: NoMemory) -> Self {
        InfoFault::NoMemory
    }
}
