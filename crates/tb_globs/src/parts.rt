use tb_text::{List, Name};

/// What a pattern is used for: wildcards pass over hidden names and over the folders of packages in `include` alone.
#[derive(Clone, Copy, Debug, PartialEq, Eq)]
pub enum UseOf {
    Include,
    Exclude,
}

/// A part of a pattern.
#[derive(Clone, Debug, Drop)]
pub enum Part {
    /// `**`: zero or more segments.
    Folders,
    /// A segment that stands for itself: one without wildcards, or one of the folder that the pattern counts from.
    Literal(Name),
    /// A segment with wildcards, by its characters.
    Wild(List<char>),
}
