//! The rules that hold no types.

ghost use Rattle.std.specs.Prelude.{◌≡◌, ℕ, true, false, List, ◌+◌, ◌-◌, ◌≤◌, ◌<◌, ◌∷◌, length, max, min, MatchBool, MatchOption, IfOk, Some, None};
ghost use Rattle.tb_tree.specs.Sym as sym;
ghost use Rattle.tb_tree.specs.Longest.{Found, Never};
ghost use Rattle.tb_tree.specs.Shapes as shapes;
ghost use Rattle.tb_tree.specs.Types as types;
ghost use Rattle.tb_parse_type.specs.Reading.{rest, text_at, start_at, Stands, LacksSym, FoundAt, Reads, ReadsHead};
ghost use Rattle.tb_parse_type.specs.Rules as rules;

use crate::reader::{Limits, Read, Reader};
use crate::words::{is_positive, is_zero, keyword_of, truth_of};
use sqlite_items::{Boxed, Items};
use std::alloc::Global;
use tb_text::NoMemory;
use tb_tree::{Class, Key, Mark, TypeExpr, Word, is_type_name};

/// What a member begins with.
#[derive(Drop)]
pub struct MemberHead {
    pub read_only: bool,
    /// The offset of the key.
    pub at: usize,
    pub key: Key,
    /// The first place behind the key.
    pub next: usize,
}

impl Limits {
    /// The limits within a type node.
    pub(crate) fn inside(self) -> Limits
        ensures { result ≡ rules.inside self }
    {
        Limits {
            own: self.own.saturating_sub(1),
            depth: self.depth.saturating_sub(1),
        }
    }

    /// The limits within parentheses round a type.
    pub(crate) fn in_parens(self) -> Limits
        ensures { result ≡ rules.in_parens self }
    {
        Limits {
            own: self.own.saturating_sub(1),
            depth: self.depth,
        }
    }

    /// Whether both counts are less.
    pub(crate) fn has_room(self, own: usize, depth: usize) -> bool
        ensures { MatchBool result ((own < self.own) × (depth < self.depth)) (own < self.own → depth < self.depth → ⊥) }
    {
        own < self.own && depth < self.depth
    }

    /// Whether the counts of a type that is not read flat are beyond the limits.
    pub(crate) fn is_beyond(self, of: &TypeExpr, own: usize, depth: usize) -> bool
        ensures { MatchBool result
            ((rules.is_union of.now ≡ false) × (rules.Fits self own depth → ⊥))
            (rules.is_union of.now ≡ false → rules.Fits self own depth) }
    {
        if is_union(of) {
            return false;
        }
        own > self.own || depth > self.depth
    }

    /// By how much both counts may grow.
    pub(crate) fn room(self, own: usize, depth: usize) -> usize
        ensures { result ≡ min (self.own - own) (self.depth - depth) }
    {
        smaller(
            self.own.saturating_sub(own),
            self.depth.saturating_sub(depth),
        )
    }
}

fn smaller(a: usize, b: usize) -> usize
    ensures { result ≡ min a b }
{
    if a < b { a } else { b }
}

pub fn larger(a: usize, b: usize) -> usize
    ensures { result ≡ max a b }
{
    if a < b { b } else { a }
}

/// Whether a type is a union.
pub fn is_union(of: &TypeExpr) -> bool
    ensures { result ≡ rules.is_union of.now }
{
    match of {
        TypeExpr::Union { .. } => true,
        _ => false,
    }
}

/// What a type counts as a part of a union.
pub fn part_count(of: &TypeExpr, count: usize) -> usize
    ensures { result ≡ types.part_count of.now count }
{
    match of {
        TypeExpr::Union { .. } => count.saturating_sub(1),
        _ => count,
    }
}

/// The parts of a type.
pub fn parts_of(alloc: Global, of: TypeExpr) -> Result<Items<TypeExpr>, NoMemory>
    ensures { IfOk result (λ parts. parts ≡ types.parts_of of) }
{
    match of {
        TypeExpr::Union { parts, .. } => Ok(parts),
        other => {
            let mut parts = Items::new(alloc);
            parts.push(other)?;
            Ok(parts)
        }
    }
}

impl Reader<'_> {
    fn has_brackets(&self, at: usize) -> bool
        ensures { MatchBool result
            ((at + 2 ≤ length self.now.tokens.now) × (o : ℕ) × (c : ℕ) × (rest self.now at ≡ sym.Mark Mark.OpenBracket o ∷ sym.Mark Mark.CloseBracket c ∷ rest self.now (at + 2)))
            ((o c : ℕ) (zs : List sym.Sym) → rest self.now at ≡ sym.Mark Mark.OpenBracket o ∷ sym.Mark Mark.CloseBracket c ∷ zs → ⊥) }
    {
        if !self.is_mark(at, Mark::OpenBracket) {
            return false;
        }
        if !self.is_mark(at + 1, Mark::CloseBracket) {
            return false;
        }
        true
    }

    /// How many pairs of brackets stand at a place, as far as there is room, and the first place behind them.
    pub(crate) fn brackets(&self, at: usize, room: usize) -> (usize, usize)
        requires { at ≤ length self.now.tokens.now }
        ensures { FoundAt (rules.BracketsUpto room) rules.InElement self.now at result.0 result.1 }
    {
        let mut count = 0;
        let mut next = at;
        while count < room {
            if !self.has_brackets(next) {
                return (count, next);
            }
            count += 1;
            next += 2;
        }
        (count, next)
    }

    /// Arrays of arrays, so many, which all begin at one offset.
    pub(crate) fn arrays(&self, at: usize, of: TypeExpr, count: usize) -> Result<TypeExpr, NoMemory>
        ensures { IfOk result (λ tree. tree ≡ types.arrays at count of) }
    {
        let mut tree = of;
        for _ in 0..count {
            tree = TypeExpr::Array {
                at,
                read_only: false,
                element: Boxed::new(self.alloc, tree)?,
            };
        }
        Ok(tree)
    }

    /// The type that a word is.
    fn word_type(&self, at: usize, word: Word) -> Result<Option<TypeExpr>, NoMemory>
        ensures { IfOk result (λ o. o ≡ rules.word_type word (text_at self.now at) (start_at self.now at)) }
    {
        let start = self.start_at(at);
        if let Some(keyword) = keyword_of(word) {
            return Ok(Some(TypeExpr::Keyword { at: start, keyword }));
        }
        if let Some(value) = truth_of(word) {
            return Ok(Some(TypeExpr::Boolean { at: start, value }));
        }
        if !is_type_name(word) {
            return Ok(None);
        }
        Ok(Some(TypeExpr::Written {
            at: start,
            name: self.text_at(at)?,
            arguments: Items::new(self.alloc),
        }))
    }

    /// The type that a number is.
    fn integer_type(&self, at: usize) -> Result<Option<TypeExpr>, NoMemory>
        ensures { IfOk result (λ o. o ≡ rules.integer_type (text_at self.now at) (start_at self.now at)) }
    {
        let digits = self.spelled_at(at).as_bytes();
        if !(is_zero(digits) || is_positive(digits)) {
            return Ok(None);
        }
        Ok(Some(TypeExpr::Integer {
            at: self.start_at(at),
            minus: false,
            digits: self.text_at(at)?,
        }))
    }

    /// The type that a token is by itself.
    fn single_type(&self, at: usize, class: Class) -> Result<Option<TypeExpr>, NoMemory>
        ensures { IfOk result (λ o. o ≡ rules.single_type (sym.Lex class (text_at self.now at) (start_at self.now at))) }
    {
        match class {
            Class::Word(word) => self.word_type(at, word),
            Class::Number => self.integer_type(at),
            Class::String => Ok(Some(TypeExpr::String {
                at: self.start_at(at),
                spelled: self.text_at(at)?,
            })),
            Class::Template(_) => Ok(None),
            Class::Bad => Ok(None),
        }
    }

    /// A type that is one token.
    pub(crate) fn single_at(
        &self,
        at: usize,
        class: Class,
        limits: Limits,
    ) -> Result<Option<Read<TypeExpr>>, NoMemory>
        requires own { 0 < limits.own }
        requires depth { 0 < limits.depth }
        requires stands { Stands self.now at (sym.Lex class (text_at self.now at) (start_at self.now at)) }
        ensures { IfOk result (λ o. Reads (rules.AtomUpto limits) Never self.now at o) }
    {
        let Some(tree) = self.single_type(at, class)? else {
            return Ok(None);
        };
        Ok(Some(Read {
            tree,
            own: 1,
            depth: 1,
            next: at + 1,
        }))
    }

    /// Whether an integer that may follow a minus stands at a place.
    fn has_positive(&self, at: usize) -> bool
        ensures { MatchBool result
            (Stands self.now at (sym.Lex Class.Number (text_at self.now at) (start_at self.now at)) × (shapes.is_positive (text_at self.now at) ≡ true))
            ((w : List ℕ) (o : ℕ) → shapes.is_positive w ≡ true → LacksSym self.now at (sym.Lex Class.Number w o)) }
    {
        match self.class_at(at) {
            Some(Class::Number) => is_positive(self.spelled_at(at).as_bytes()),
            _ => false,
        }
    }

    /// `-` with an integer.
    pub(crate) fn minus_at(
        &self,
        at: usize,
        limits: Limits,
    ) -> Result<Option<Read<TypeExpr>>, NoMemory>
        requires own { 0 < limits.own }
        requires depth { 0 < limits.depth }
        requires stands { Stands self.now at (sym.Mark Mark.Minus (start_at self.now at)) }
        ensures { IfOk result (λ o. Reads (rules.AtomUpto limits) Never self.now at o) }
    {
        let number = at + 1;
        if !self.has_positive(number) {
            return Ok(None);
        }
        let digits = self.text_at(number)?;
        Ok(Some(Read {
            tree: TypeExpr::Integer {
                at: self.start_at(at),
                minus: true,
                digits,
            },
            own: 1,
            depth: 1,
            next: number + 1,
        }))
    }

    /// Whether the mark `?` stands at a place, and the place behind it.
    pub(crate) fn question(&self, at: usize) -> (bool, usize)
        requires { at ≤ length self.now.tokens.now }
        ensures { FoundAt (shapes.IsMarked Mark.Question) rules.InQuestion self.now at result.0 result.1 }
    {
        if self.is_mark(at, Mark::Question) {
            (true, at + 1)
        } else {
            (false, at)
        }
    }

    /// Whether a method goes on at a place, behind its head.
    pub(crate) fn has_method(&self, at: usize, read_only: bool) -> bool
        ensures { MatchBool result
            ((read_only ≡ false) × Stands self.now at (sym.Mark Mark.OpenParen (start_at self.now at)))
            (read_only ≡ false → (o : ℕ) → LacksSym self.now at (sym.Mark Mark.OpenParen o)) }
    {
        if read_only {
            return false;
        }
        self.is_mark(at, Mark::OpenParen)
    }

    /// The key at a place.
    fn key_at(&self, at: usize) -> Result<Option<Key>, NoMemory>
        ensures { IfOk result (λ o. MatchOption o
            ((s : sym.Sym) (key : Key) → shapes.key_of s ≡ Some key → LacksSym self.now at s)
            (λ key. (s : sym.Sym) × Stands self.now at s × (shapes.key_of s ≡ Some key) × (sym.at_of s ≡ start_at self.now at))) }
    {
        match self.class_at(at) {
            Some(Class::Word(_)) => Ok(Some(Key::Word(self.text_at(at)?))),
            Some(Class::String) => Ok(Some(Key::String(self.text_at(at)?))),
            _ => Ok(None),
        }
    }

    /// The key that stands behind `readonly` at a place.
    fn modified_key_at(&self, at: usize) -> Result<Option<Key>, NoMemory>
        ensures { IfOk result (λ o. MatchOption o
            ((w : List ℕ) (p : ℕ) (s : sym.Sym) (key : Key) (zs : List sym.Sym) → shapes.key_of s ≡ Some key → rest self.now at ≡ shapes.word Word.Readonly w p ∷ s ∷ zs → ⊥)
            (λ key. (s : sym.Sym) × Stands self.now at (shapes.word Word.Readonly (text_at self.now at) (start_at self.now at)) × Stands self.now (at + 1) s
            × (shapes.key_of s ≡ Some key) × (sym.at_of s ≡ start_at self.now (at + 1)))) }
    {
        if !self.is_word(at, Word::Readonly) {
            return Ok(None);
        }
        let key = self.key_at(at + 1)?;
        Ok(key)
    }

    /// A key, and whether `readonly` stands before it.
    pub(crate) fn head_at(&self, at: usize) -> Result<Option<MemberHead>, NoMemory>
        ensures { IfOk result (λ o. ReadsHead self.now at o) }
    {
        if let Some(key) = self.modified_key_at(at)? {
            return Ok(Some(MemberHead {
                read_only: true,
                at: self.start_at(at + 1),
                key,
                next: at + 2,
            }));
        }
        let Some(key) = self.key_at(at)? else {
            return Ok(None);
        };
        Ok(Some(MemberHead {
            read_only: false,
            at: self.start_at(at),
            key,
            next: at + 1,
        }))
    }
}
