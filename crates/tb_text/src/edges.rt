use crate::{List, Name, Path};

/// Where an import leads.
#[derive(Clone, Debug, PartialEq, Eq, Drop)]
pub enum Target {
    /// A file of the project or of a project that it references, directly or through others.
    Found(Path),
    /// A file that exists, but is in none of these.
    Elsewhere(Path),
    /// No file.
    Missing,
}

/// A specifier of a file, and where it leads.
#[derive(Clone, Debug, PartialEq, Eq, Drop)]
pub struct Edge {
    pub spec: Name,
    pub to: Target,
}

/// The edges of a file. Where they are made by resolution, they ascend by specifier, each once.
pub type Edges = List<Edge>;
