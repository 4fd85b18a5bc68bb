//! The choice between what is declared without bodies, and between items of declaration files.

ghost use Rattle.std.specs.Prelude.{◌≡◌, ◌≤◌, ◌||◌, length, IfOk};
ghost use Rattle.tb_tree.specs.Exprs as exprs;
ghost use Rattle.tb_tree.specs.Longest.{Never};
ghost use Rattle.tb_tree.specs.Surfaces as grammar;
ghost use Rattle.tb_parse_type.specs.Reading.{rest};
ghost use Rattle.tb_parse_file.specs.DeclRules as rules;
ghost use Rattle.tb_parse_file.specs.DeclReading as reading;
ghost use Rattle.tb_parse_file.specs.Reading.{ReadsPart};

use crate::decl_members::class_at;
use crate::declarations::{alias_at, interface_at};
use crate::fronts::Part;
use crate::imports::{export_list_at, import_at};
use crate::signatures::{shape_at, signature_at};
use sqlite_items::Items;
use tb_parse_body::{MAX_DEPTH, name_at};
use tb_parse_type::Reader;
use tb_text::NoMemory;
use tb_tree::{Declared, ExportList, Specifier, SurfaceItem, VarKind, Word};

fn kind_of(word: Word) -> Option<VarKind>
    ensures { result ≡ exprs.kind_of word }
{
    match word {
        Word::Const => Some(VarKind::Const),
        Word::Let => Some(VarKind::Let),
        _ => None,
    }
}

/// `const` or `let`, `Name : Type ;`.
fn variable_at(reader: Reader<'_>, at: usize) -> Result<Option<Part<Declared>>, NoMemory>
    ensures { IfOk result (λ o. ReadsPart rules.VariableRule Never reader.entry at o) }
{
    let Some(word) = reader.word_at(at) else {
        return Ok(None);
    };
    let Some(kind) = kind_of(word) else {
        return Ok(None);
    };
    let Some(_word) = name_at(&reader, at + 1) else {
        return Ok(None);
    };
    let Some(shape) = shape_at(reader, at + 2)? else {
        return Ok(None);
    };
    let name = reader.text_at(at + 1)?;
    Ok(Some(Part {
        tree: Declared::Variable {
            at: reader.start_at(at + 1),
            kind,
            name,
            shape: shape.tree,
        },
        next: shape.next,
    }))
}

/// `function Name ( TypeParam,* ) : Type ;`.
fn function_at(reader: Reader<'_>, at: usize) -> Result<Option<Part<Declared>>, NoMemory>
    ensures { IfOk result (λ o. ReadsPart rules.FunctionRule Never reader.entry at o) }
{
    if !reader.is_word(at, Word::Function) {
        return Ok(None);
    }
    let Some(_word) = name_at(&reader, at + 1) else {
        return Ok(None);
    };
    let Some(signature) = signature_at(reader, at + 2)? else {
        return Ok(None);
    };
    let (params, shape) = signature.tree;
    let name = reader.text_at(at + 1)?;
    Ok(Some(Part {
        tree: Declared::Function {
            at: reader.start_at(at + 1),
            name,
            variables: Items::new(reader.alloc),
            params,
            result: shape,
        },
        next: signature.next,
    }))
}

/// A variable, a function, a class, an interface or an alias.
fn declared_at(reader: Reader<'_>, at: usize) -> Result<Option<Part<Declared>>, NoMemory>
    ensures { IfOk result (λ o. ReadsPart rules.DeclaredRule Never reader.entry at o) }
{
    if let Some(variable) = variable_at(reader, at)? {
        return Ok(Some(variable));
    }
    if let Some(function) = function_at(reader, at)? {
        return Ok(Some(function));
    }
    if let Some(class) = class_at(reader, at)? {
        return Ok(Some(Part {
            tree: Declared::Class(class.tree),
            next: class.next,
        }));
    }
    if let Some(interface) = interface_at(reader, at, MAX_DEPTH)? {
        return Ok(Some(Part {
            tree: Declared::Interface(interface.tree),
            next: interface.next,
        }));
    }
    let Some(alias) = alias_at(reader, at, MAX_DEPTH)? else {
        return Ok(None);
    };
    Ok(Some(Part {
        tree: Declared::Alias(alias.tree),
        next: alias.next,
    }))
}

/// Whether a word stands at a place, and the place behind it.
fn worded_at(reader: &Reader<'_>, at: usize, word: Word) -> (bool, usize)
    requires { at ≤ length reader.now.tokens.now }
    ensures within { result.1 ≤ length reader.now.tokens.now }
    ensures worded { reading.Worded word (rest reader.now at) result.0 (rest reader.now result.1) }
{
    if reader.is_word(at, word) {
        (true, at + 1)
    } else {
        (false, at)
    }
}

fn has_origin(from: &Option<Specifier>) -> bool
    ensures { result ≡ grammar.is_origin from.now }
{
    match from {
        Some(_) => true,
        None => false,
    }
}

#[tactic(auto, using(crate::proofs::DeclKept::kept_by_origin, crate::proofs::DeclKept::kept_by_specs))]
fn is_kept(list: &ExportList) -> bool
    ensures { result ≡ (grammar.is_spec list.now.specs || grammar.is_origin list.now.from) }
{
    if list.specs.is_empty() {
        has_origin(&list.from)
    } else {
        true
    }
}

/// An export list without names and without `from` is read and not kept.
fn kept(list: ExportList) -> Option<SurfaceItem>
    ensures { reading.at_most_one result ≡ grammar.kept list }
{
    if is_kept(&list) {
        Some(SurfaceItem::ExportList(list))
    } else {
        None
    }
}

/// Reads the longest front of the tokens from `at` on that is an item, and gives what is kept of it.
pub fn decl_item_at(
    reader: Reader<'_>,
    at: usize,
) -> Result<Option<Part<Option<SurfaceItem>>>, NoMemory>
    requires { at ≤ length reader.tokens.now }
    ensures { IfOk result (λ o. reading.ReadsItem reader.entry at o) }
{
    if let Some(import) = import_at(&reader, at)? {
        return Ok(Some(Part {
            tree: Some(SurfaceItem::Import(import.tree)),
            next: import.next,
        }));
    }
    if let Some(list) = export_list_at(&reader, at)? {
        return Ok(Some(Part {
            tree: kept(list.tree),
            next: list.next,
        }));
    }
    let (exported, behind) = worded_at(&reader, at, Word::Export);
    let (_ambient, start) = worded_at(&reader, behind, Word::Declare);
    let Some(declared) = declared_at(reader, start)? else {
        return Ok(None);
    };
    Ok(Some(Part {
        tree: Some(SurfaceItem::Declaration {
            exported,
            declared: declared.tree,
        }),
        next: declared.next,
    }))
}
