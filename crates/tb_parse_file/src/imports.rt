//! Imports and export lists.

ghost use Rattle.std.specs.Prelude.{◌≡◌, ℕ, ◌≤◌, true, ◌&&◌, List, length, IfOk, MatchOption};
ghost use Rattle.tb_tree.specs.Items as grammar;
ghost use Rattle.tb_tree.specs.Longest.{Never};
ghost use Rattle.tb_tree.specs.Shapes as shapes;
ghost use Rattle.tb_tree.specs.Sym as sym;
ghost use Rattle.tb_parse_type.specs.Reading.{text_at, start_at, FoundAt, Stands, LacksSym};
ghost use Rattle.tb_parse_file.specs.Lists as rules;
ghost use Rattle.tb_parse_file.specs.Reading.{ReadsPart};
ghost use Rattle.tb_parse_file.specs.Rules.{InSpec};

use crate::fronts::Part;
use sqlite_items::Items;
use tb_parse_type::Reader;
use tb_text::NoMemory;
use tb_tree::{Class, ExportList, Identifier, Import, Mark, Spec, Specifier, Word, is_name};

/// Specs in braces, and whether `type` stands before them.
#[derive(Drop)]
struct SpecList {
    type_only: bool,
    specs: Items<Spec>,
    /// Whether each word that names something is a Name.
    named: bool,
}

/// The word at a place as an identifier.
fn identifier_at(reader: &Reader<'_>, at: usize) -> Result<Identifier, NoMemory>
    ensures { IfOk result (λ of. of ≡ grammar.identifier (text_at reader.now at) (start_at reader.now at)) }
{
    Ok(Identifier {
        at: reader.start_at(at),
        name: reader.text_at(at)?,
    })
}

/// Whether a word may be the last of a Spec: a Name in an import, where it is the local name.
fn may_end(imported: bool, last: Word) -> bool
    ensures { result ≡ rules.may_end imported last }
{
    if imported { is_name(last) } else { true }
}

/// `as` and a word that may be the last of a Spec.
fn renamed_at(
    reader: &Reader<'_>,
    at: usize,
    imported: bool,
) -> Result<Option<Part<Identifier>>, NoMemory>
    ensures { IfOk result (λ o. ReadsPart (rules.RenamedRule imported) Never reader.now at o) }
{
    if !reader.is_word(at, Word::As) {
        return Ok(None);
    }
    let Some(last) = reader.word_at(at + 1) else {
        return Ok(None);
    };
    if !may_end(imported, last) {
        return Ok(None);
    }
    Ok(Some(Part {
        tree: identifier_at(reader, at + 1)?,
        next: at + 2,
    }))
}

/// A Spec without `type` before it, and whether it is named by a Name.
fn plain_spec_at(
    reader: &Reader<'_>,
    at: usize,
    imported: bool,
) -> Result<Option<Part<(Spec, bool)>>, NoMemory>
    ensures { IfOk result (λ o. ReadsPart (rules.SpecRule imported true) InSpec reader.now at o) }
{
    let Some(word) = reader.word_at(at) else {
        return Ok(None);
    };
    let named = is_name(word);
    let start = reader.start_at(at);
    let name = identifier_at(reader, at)?;
    if let Some(last) = renamed_at(reader, at + 1, imported)? {
        return Ok(Some(Part {
            tree: (
                Spec {
                    at: start,
                    type_only: false,
                    name,
                    renamed: Some(last.tree),
                },
                named,
            ),
            next: last.next,
        }));
    }
    if !may_end(imported, word) {
        return Ok(None);
    }
    Ok(Some(Part {
        tree: (
            Spec {
                at: start,
                type_only: false,
                name,
                renamed: None,
            },
            named,
        ),
        next: at + 1,
    }))
}

/// A Spec behind the modifier `type`, which stands before no `as`.
fn modified_spec_at(
    reader: &Reader<'_>,
    at: usize,
    imported: bool,
) -> Result<Option<Part<(Spec, bool)>>, NoMemory>
    ensures { IfOk result (λ o. ReadsPart (rules.ModifiedRule imported) InSpec reader.now at o) }
{
    if !reader.is_word(at, Word::Type) {
        return Ok(None);
    }
    if reader.is_word(at + 1, Word::As) {
        return Ok(None);
    }
    let Some(plain) = plain_spec_at(reader, at + 1, imported)? else {
        return Ok(None);
    };
    let (spec, named) = plain.tree;
    Ok(Some(Part {
        tree: (
            Spec {
                at: reader.start_at(at),
                type_only: true,
                name: spec.name,
                renamed: spec.renamed,
            },
            named,
        ),
        next: plain.next,
    }))
}

/// A Spec, and whether it is named by a Name. In a list that is `type` already no modifier stands.
fn spec_at(
    reader: &Reader<'_>,
    at: usize,
    imported: bool,
    type_only: bool,
) -> Result<Option<Part<(Spec, bool)>>, NoMemory>
    ensures { IfOk result (λ o. ReadsPart (rules.SpecRule imported type_only) InSpec reader.now at o) }
{
    if type_only {
        return plain_spec_at(reader, at, imported);
    }
    if let Some(spec) = modified_spec_at(reader, at, imported)? {
        return Ok(Some(spec));
    }
    let plain = plain_spec_at(reader, at, imported)?;
    Ok(plain)
}

fn both(a: bool, b: bool) -> bool
    ensures { result ≡ (a && b) }
{
    if a { b } else { false }
}

/// Specs with commas and an optional last comma, and whether each is named by a Name.
fn spec_list_at(
    reader: &Reader<'_>,
    at: usize,
    imported: bool,
    type_only: bool,
) -> Result<Part<(Items<Spec>, bool)>, NoMemory>
    requires { at ≤ length reader.now.tokens.now }
    ensures { IfOk result (λ x. FoundAt (rules.SpecListRule imported type_only) rules.InSpecs reader.now at x.tree x.next) }
{
    let mut specs = Items::new(reader.alloc);
    let mut all_named = true;
    let mut next = at;
    while let Some(part) = spec_at(reader, next, imported, type_only)? {
        let (spec, named) = part.tree;
        specs.push(spec)?;
        all_named = both(all_named, named);
        if !reader.is_mark(part.next, Mark::Comma) {
            return Ok(Part {
                tree: (specs, all_named),
                next: part.next,
            });
        }
        next = part.next + 1;
    }
    Ok(Part {
        tree: (specs, all_named),
        next,
    })
}

/// Specs in braces.
fn specs_at(
    reader: &Reader<'_>,
    at: usize,
    imported: bool,
    type_only: bool,
) -> Result<Option<Part<(Items<Spec>, bool)>>, NoMemory>
    ensures { IfOk result (λ o. ReadsPart (rules.SpecsRule imported type_only) Never reader.now at o) }
{
    if !reader.is_mark(at, Mark::OpenBrace) {
        return Ok(None);
    }
    let list = spec_list_at(reader, at + 1, imported, type_only)?;
    if !reader.is_mark(list.next, Mark::CloseBrace) {
        return Ok(None);
    }
    Ok(Some(Part {
        tree: list.tree,
        next: list.next + 1,
    }))
}

/// Whether `type` stands at a place, and the place behind it.
fn type_at(reader: &Reader<'_>, at: usize) -> (bool, usize)
    requires { at ≤ length reader.now.tokens.now }
    ensures { FoundAt (shapes.IsWorded Word.Type) InSpec reader.now at result.0 result.1 }
{
    if reader.is_word(at, Word::Type) {
        (true, at + 1)
    } else {
        (false, at)
    }
}

/// Specs in braces behind `type` or none.
fn typed_specs_at(
    reader: &Reader<'_>,
    at: usize,
    imported: bool,
) -> Result<Option<Part<SpecList>>, NoMemory>
    requires { at ≤ length reader.now.tokens.now }
    ensures { IfOk result (λ o. ReadsPart (rules.TypedSpecsRule imported) Never reader.now at o) }
{
    let (type_only, behind) = type_at(reader, at);
    let Some(specs) = specs_at(reader, behind, imported, type_only)? else {
        return Ok(None);
    };
    let (of, named) = specs.tree;
    Ok(Some(Part {
        tree: SpecList {
            type_only,
            specs: of,
            named,
        },
        next: specs.next,
    }))
}

/// The string at a place as the text that names a module.
fn specifier_at(reader: &Reader<'_>, at: usize) -> Result<Option<Specifier>, NoMemory>
    ensures { IfOk result (λ o. MatchOption o
        ((spelled : List ℕ) (start : ℕ) → LacksSym reader.now at (sym.Lex Class.String spelled start))
        (λ of. Stands reader.now at (sym.Lex Class.String of.spelled of.at))) }
{
    match reader.class_at(at) {
        Some(Class::String) => Ok(Some(Specifier {
            at: reader.start_at(at),
            spelled: reader.text_at(at)?,
        })),
        _ => Ok(None),
    }
}

/// `String ;`.
fn bare_at(reader: &Reader<'_>, at: usize) -> Result<Option<Part<Specifier>>, NoMemory>
    ensures { IfOk result (λ o. ReadsPart rules.BareRule Never reader.now at o) }
{
    let Some(of) = specifier_at(reader, at)? else {
        return Ok(None);
    };
    if !reader.is_mark(at + 1, Mark::Semicolon) {
        return Ok(None);
    }
    Ok(Some(Part {
        tree: of,
        next: at + 2,
    }))
}

/// `from String ;`.
fn from_at(reader: &Reader<'_>, at: usize) -> Result<Option<Part<Specifier>>, NoMemory>
    ensures { IfOk result (λ o. ReadsPart rules.EndedFromRule Never reader.now at o) }
{
    if !reader.is_word(at, Word::From) {
        return Ok(None);
    }
    let from = bare_at(reader, at + 1)?;
    Ok(from)
}

fn import_of(at: usize, list: SpecList, from: Specifier) -> Import
    ensures { result ≡ rules.import_of at list from }
{
    Import::List {
        at,
        type_only: list.type_only,
        specs: list.specs,
        from,
    }
}

/// `import type? { Spec,* } from String ;` or `import String ;`.
pub(crate) fn import_at(reader: &Reader<'_>, at: usize) -> Result<Option<Part<Import>>, NoMemory>
    ensures { IfOk result (λ o. ReadsPart grammar.IsImport Never reader.now at o) }
{
    if !reader.is_word(at, Word::Import) {
        return Ok(None);
    }
    let start = reader.start_at(at);
    if let Some(bare) = bare_at(reader, at + 1)? {
        return Ok(Some(Part {
            tree: Import::Bare {
                at: start,
                from: bare.tree,
            },
            next: bare.next,
        }));
    }
    let Some(list) = typed_specs_at(reader, at + 1, true)? else {
        return Ok(None);
    };
    let Some(from) = from_at(reader, list.next)? else {
        return Ok(None);
    };
    Ok(Some(Part {
        tree: import_of(start, list.tree, from.tree),
        next: from.next,
    }))
}

fn export_of(at: usize, list: SpecList, from: Option<Specifier>) -> ExportList
    ensures { result ≡ rules.export_of at list from }
{
    ExportList {
        at,
        type_only: list.type_only,
        specs: list.specs,
        from,
    }
}

/// `export type? { Spec,* } ;` or the same with `from String` before `;`. Without it, each Spec names something by a Name.
pub(crate) fn export_list_at(
    reader: &Reader<'_>,
    at: usize,
) -> Result<Option<Part<ExportList>>, NoMemory>
    ensures { IfOk result (λ o. ReadsPart grammar.IsExportList Never reader.now at o) }
{
    if !reader.is_word(at, Word::Export) {
        return Ok(None);
    }
    let start = reader.start_at(at);
    let Some(list) = typed_specs_at(reader, at + 1, false)? else {
        return Ok(None);
    };
    if let Some(from) = from_at(reader, list.next)? {
        return Ok(Some(Part {
            tree: export_of(start, list.tree, Some(from.tree)),
            next: from.next,
        }));
    }
    if !list.tree.named {
        return Ok(None);
    }
    if !reader.is_mark(list.next, Mark::Semicolon) {
        return Ok(None);
    }
    Ok(Some(Part {
        tree: export_of(start, list.tree, None),
        next: list.next + 1,
    }))
}
