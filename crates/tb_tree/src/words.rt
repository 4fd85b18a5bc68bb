/// What the grammar tells apart among words: each word that it names, and the others as names or reserved words.
#[derive(Clone, Copy, Debug, PartialEq, Eq)]
pub enum Word {
    Break,
    Case,
    Class,
    Const,
    Continue,
    Default,
    Do,
    Else,
    Export,
    Extends,
    False,
    For,
    Function,
    If,
    Implements,
    Import,
    Interface,
    Let,
    New,
    Null,
    Return,
    Static,
    Switch,
    This,
    Throw,
    True,
    Typeof,
    Undefined,
    Void,
    While,
    /// A reserved word that no rule names.
    Reserved,
    Any,
    Boolean,
    Never,
    Number,
    String,
    Unknown,
    As,
    Constructor,
    Declare,
    From,
    Of,
    Readonly,
    Type,
    /// Any other word.
    Name,
}

/// A part of a template.
#[derive(Clone, Copy, Debug, PartialEq, Eq)]
pub enum Template {
    Whole,
    Head,
    Middle,
    Tail,
}

/// The tokens that are no marks: what each is to the grammar beside its spelling.
#[derive(Clone, Copy, Debug, PartialEq, Eq)]
pub enum Class {
    Word(Word),
    Number,
    String,
    Template(Template),
    Bad,
}
