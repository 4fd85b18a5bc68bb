/// What a token is.
#[derive(Clone, Copy, Debug, PartialEq, Eq)]
pub enum Kind {
    /// A word, reserved or not.
    Word,
    Number,
    /// A string in quotes.
    Str,
    Mark,
    /// A template without holes.
    Whole,
    /// A template up to its first hole.
    Head,
    /// A template between two holes.
    Middle,
    /// A template behind its last hole.
    Tail,
    /// What begins no token.
    Bad,
}

/// A token, and where it stands in the text, in bytes.
#[derive(Clone, Copy, Debug, PartialEq, Eq)]
pub struct Token {
    pub kind: Kind,
    pub start: usize,
    pub end: usize,
}
