//! A reader over the tokens of a text.

ghost use Rattle.std.specs.Prelude.{◌≡◌, ℕ, List, [], MatchOption, MatchBool, IfOk};
ghost use Rattle.tb_tree.specs.Sym as sym;
ghost use Rattle.tb_tree.specs.Shapes as shapes;
ghost use Rattle.tb_parse_type.specs.Reading as spec;

use crate::symbols::{Symbol, spelled, symbol_of};
use std::alloc::Global;
use tb_scan::Token;
use tb_text::{Name, NoMemory};
use tb_tree::{Class, Mark, Word};

/// The tokens of a text.
#[derive(Clone, Copy)]
pub struct Reader<'a> {
    pub alloc: Global,
    pub tokens: &'a [Token],
    pub text: &'a str,
}

/// What was read, and the first place behind it.
#[derive(Drop)]
pub struct Read<T> {
    pub tree: T,
    /// The type's own count: type nodes and parentheses round a type, on the longest way downward.
    pub own: usize,
    /// The type's share in the depth of an item: type nodes alone.
    pub depth: usize,
    pub next: usize,
}

/// How great the counts of what is read may be.
#[derive(Clone, Copy, Debug, PartialEq, Eq)]
pub struct Limits {
    /// At most this own count.
    pub own: usize,
    /// At most this depth.
    pub depth: usize,
}

impl Reader<'_> {
    /// The symbol at a place.
    pub fn symbol(&self, at: usize) -> Option<Symbol>
        ensures { MatchOption result (spec.rest self.now at ≡ []) (λ s. spec.Stands self.now at (spec.symbol_at self.now at s)) }
    {
        let count = self.tokens.len();
        if at >= count {
            return None;
        }
        let token = self.tokens[at];
        Some(symbol_of(token.kind, spelled(self.text, token).as_bytes()))
    }

    /// Whether this mark stands at a place.
    pub fn is_mark(&self, at: usize, mark: Mark) -> bool
        ensures { MatchBool result
            (spec.Stands self.now at (sym.Mark mark (spec.start_at self.now at)))
            ((o : ℕ) → spec.LacksSym self.now at (sym.Mark mark o)) }
    {
        match self.symbol(at) {
            Some(Symbol::Mark(found)) => found == mark,
            _ => false,
        }
    }

    /// The class of the token at a place, if it is no mark.
    pub fn class_at(&self, at: usize) -> Option<Class>
        ensures { MatchOption result
            ((k : Class) (w : List ℕ) (o : ℕ) → spec.LacksSym self.now at (sym.Lex k w o))
            (λ k. spec.Stands self.now at (sym.Lex k (spec.text_at self.now at) (spec.start_at self.now at))) }
    {
        match self.symbol(at) {
            Some(Symbol::Class(class)) => Some(class),
            _ => None,
        }
    }

    /// The word at a place.
    pub fn word_at(&self, at: usize) -> Option<Word>
        ensures { MatchOption result
            ((k : Word) (w : List ℕ) (o : ℕ) → spec.LacksSym self.now at (shapes.word k w o))
            (λ k. spec.Stands self.now at (shapes.word k (spec.text_at self.now at) (spec.start_at self.now at))) }
    {
        match self.class_at(at) {
            Some(Class::Word(word)) => Some(word),
            _ => None,
        }
    }

    /// Whether this word stands at a place.
    pub fn is_word(&self, at: usize, word: Word) -> bool
        ensures { MatchBool result
            (spec.Stands self.now at (shapes.word word (spec.text_at self.now at) (spec.start_at self.now at)))
            ((w : List ℕ) (o : ℕ) → spec.LacksSym self.now at (shapes.word word w o)) }
    {
        match self.word_at(at) {
            Some(found) => found == word,
            None => false,
        }
    }

    /// How the token at a place is spelled.
    pub fn spelled_at(&self, at: usize) -> &str
        ensures { result.now ≡ spec.text_at self.now at }
    {
        match self.tokens.get(at) {
            Some(token) => spelled(self.text, *token),
            None => "",
        }
    }

    /// The same, as a name.
    pub fn text_at(&self, at: usize) -> Result<Name, NoMemory>
        ensures { IfOk result (λ name. name ≡ spec.text_at self.now at) }
    {
        Name::copy_of(self.alloc, self.spelled_at(at))
    }

    /// Where the token at a place begins.
    pub fn start_at(&self, at: usize) -> usize
        ensures { result ≡ spec.start_at self.now at }
    {
        match self.tokens.get(at) {
            Some(token) => token.start,
            None => 0,
        }
    }
}
