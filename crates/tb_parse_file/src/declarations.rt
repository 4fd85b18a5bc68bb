//! Interfaces and aliases, and the names that classes and interfaces stand on.

ghost use Rattle.std.specs.Prelude.{◌≡◌, ◌≤◌, ℕ, true, List, length, MatchBool, IfOk};
ghost use Rattle.tb_tree.specs.Words as words;
ghost use Rattle.tb_tree.specs.Shapes as shapes;
ghost use Rattle.tb_tree.specs.Items as items;
ghost use Rattle.tb_tree.specs.Longest.{Never};
ghost use Rattle.tb_parse_type.specs.Reading.{text_at, start_at, Stands, LacksSym, FoundAt};
ghost use Rattle.tb_parse_body.specs.Reading.{Reads};
ghost use Rattle.tb_parse_file.specs.Declarations as spec;
ghost use Rattle.tb_parse_file.specs.Reading.{ReadsPart};
ghost use Rattle.tb_parse_file.specs.Rules as rules;

use crate::fronts::Part;
use sqlite_items::Items;
use tb_parse_body::{Front, name_at};
use tb_parse_type::{Limits, MAX_COUNT, Reader, type_at, type_members_at};
use tb_text::NoMemory;
use tb_tree::{Alias, Base, Interface, Mark, Word, is_type_name};

/// Whether a word stands at a place that may name a class, an interface or an alias.
pub(crate) fn has_type_name(reader: &Reader<'_>, at: usize) -> bool
    ensures { MatchBool result
        ((k : Word) × (words.is_type_name k ≡ true) × Stands reader.now at (shapes.word k (text_at reader.now at) (start_at reader.now at)))
        ((k : Word) (w : List ℕ) (o : ℕ) → words.is_type_name k ≡ true → LacksSym reader.now at (shapes.word k w o)) }
{
    match reader.word_at(at) {
        Some(word) => is_type_name(word),
        None => false,
    }
}

/// The name of what a class or an interface stands on.
fn base_at(reader: &Reader<'_>, at: usize) -> Result<Option<Part<Base>>, NoMemory>
    ensures { IfOk result (λ o. ReadsPart items.IsBase Never reader.now at o) }
{
    let Some(_word) = name_at(reader, at) else {
        return Ok(None);
    };
    let name = reader.text_at(at)?;
    Ok(Some(Part {
        tree: Base {
            at: reader.start_at(at),
            name,
            arguments: Items::new(reader.alloc),
        },
        next: at + 1,
    }))
}

/// `,` and a name behind one.
fn next_base_at(reader: &Reader<'_>, at: usize) -> Result<Option<Part<Base>>, NoMemory>
    ensures { IfOk result (λ o. ReadsPart spec.NextBaseRule Never reader.now at o) }
{
    if !reader.is_mark(at, Mark::Comma) {
        return Ok(None);
    }
    let base = base_at(reader, at + 1)?;
    Ok(base)
}

/// Names with commas between.
fn base_list_at(reader: &Reader<'_>, at: usize) -> Result<Option<Part<Items<Base>>>, NoMemory>
    ensures { IfOk result (λ o. ReadsPart spec.BaseListRule rules.InBases reader.now at o) }
{
    let Some(first) = base_at(reader, at)? else {
        return Ok(None);
    };
    let mut bases = Items::new(reader.alloc);
    bases.push(first.tree)?;
    let mut next = first.next;
    while let Some(base) = next_base_at(reader, next)? {
        bases.push(base.tree)?;
        next = base.next;
    }
    Ok(Some(Part { tree: bases, next }))
}

/// Optional: a word, `extends` or `implements`, and names with commas between.
pub(crate) fn bases_at(
    reader: &Reader<'_>,
    at: usize,
    word: Word,
) -> Result<Part<Items<Base>>, NoMemory>
    requires { at ≤ length reader.now.tokens.now }
    ensures { IfOk result (λ x. FoundAt (rules.BasesRule word) rules.InBases reader.now at x.tree x.next) }
{
    if !reader.is_word(at, word) {
        return Ok(Part {
            tree: Items::new(reader.alloc),
            next: at,
        });
    }
    let Some(bases) = base_list_at(reader, at + 1)? else {
        return Ok(Part {
            tree: Items::new(reader.alloc),
            next: at,
        });
    };
    Ok(bases)
}

/// `interface Name`, optional bases, and members in braces.
pub(crate) fn interface_at(
    reader: Reader<'_>,
    at: usize,
    limit: usize,
) -> Result<Option<Front<Interface>>, NoMemory>
    ensures { IfOk result (λ o. Reads (rules.InterfaceUpto limit) Never reader.entry at o) }
{
    if !reader.is_word(at, Word::Interface) {
        return Ok(None);
    }
    if !has_type_name(&reader, at + 1) {
        return Ok(None);
    }
    let bases = bases_at(&reader, at + 2, Word::Extends)?;
    if !reader.is_mark(bases.next, Mark::OpenBrace) {
        return Ok(None);
    }
    let limits = Limits {
        own: MAX_COUNT,
        depth: limit,
    };
    let members = type_members_at(reader, bases.next + 1, limits)?;
    if !reader.is_mark(members.next, Mark::CloseBrace) {
        return Ok(None);
    }
    let name = reader.text_at(at + 1)?;
    Ok(Some(Front {
        tree: Interface {
            at: reader.start_at(at + 1),
            name,
            variables: Items::new(reader.alloc),
            extends: bases.tree,
            members: members.tree,
        },
        depth: members.depth,
        next: members.next + 1,
    }))
}

/// `type Name = Type ;`.
pub(crate) fn alias_at(
    reader: Reader<'_>,
    at: usize,
    limit: usize,
) -> Result<Option<Front<Alias>>, NoMemory>
    ensures { IfOk result (λ o. Reads (rules.AliasUpto limit) Never reader.entry at o) }
{
    if !reader.is_word(at, Word::Type) {
        return Ok(None);
    }
    if !has_type_name(&reader, at + 1) {
        return Ok(None);
    }
    if !reader.is_mark(at + 2, Mark::Assign) {
        return Ok(None);
    }
    let limits = Limits {
        own: MAX_COUNT,
        depth: limit,
    };
    let Some(shape) = type_at(reader, at + 3, limits)? else {
        return Ok(None);
    };
    if !reader.is_mark(shape.next, Mark::Semicolon) {
        return Ok(None);
    }
    let name = reader.text_at(at + 1)?;
    Ok(Some(Front {
        tree: Alias {
            at: reader.start_at(at + 1),
            name,
            variables: Items::new(reader.alloc),
            shape: shape.tree,
        },
        depth: shape.depth,
        next: shape.next + 1,
    }))
}
