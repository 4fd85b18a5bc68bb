//! The choice between declarations, and between items.

ghost use Rattle.std.specs.Prelude.{◌≡◌, ◌≤◌, true, length, IfOk};
ghost use Rattle.tb_tree.specs.Shapes.{max_depth};
ghost use Rattle.tb_tree.specs.Longest.{Any};
ghost use Rattle.tb_parse_body.specs.Rules.{InBody, InStmt};
ghost use Rattle.tb_parse_body.specs.Reading.{Reads};
ghost use Rattle.tb_parse_file.specs.Choice as spec;
ghost use Rattle.tb_parse_file.specs.Rules as rules;

use crate::classes::class_at;
use crate::declarations::{alias_at, interface_at};
use crate::imports::{export_list_at, import_at};
use tb_parse_body::{Around, Front, MAX_DEPTH, function_at, stmt_at, var_at};
use tb_parse_type::Reader;
use tb_text::NoMemory;
use tb_tree::{Declaration, Item, Word};

/// A variable, a function, a class, an interface or an alias.
fn declaration_at(
    reader: Reader<'_>,
    at: usize,
    limit: usize,
) -> Result<Option<Front<Declaration>>, NoMemory>
    ensures { IfOk result (λ o. Reads (rules.DeclarationUpto limit) InBody reader.entry at o) }
{
    if let Some(var) = var_at(reader, at, limit)? {
        return Ok(Some(Front {
            tree: Declaration::Var(var.tree),
            depth: var.depth,
            next: var.next,
        }));
    }
    if let Some(function) = function_at(reader, at, limit)? {
        return Ok(Some(Front {
            tree: Declaration::Function(function.tree),
            depth: function.depth,
            next: function.next,
        }));
    }
    if let Some(class) = class_at(reader, at, limit)? {
        return Ok(Some(Front {
            tree: Declaration::Class(class.tree),
            depth: class.depth,
            next: class.next,
        }));
    }
    if let Some(interface) = interface_at(reader, at, limit)? {
        return Ok(Some(Front {
            tree: Declaration::Interface(interface.tree),
            depth: interface.depth,
            next: interface.next,
        }));
    }
    let Some(alias) = alias_at(reader, at, limit)? else {
        return Ok(None);
    };
    Ok(Some(Front {
        tree: Declaration::Alias(alias.tree),
        depth: alias.depth,
        next: alias.next,
    }))
}

/// An import, which has no depth.
fn import_item_at(reader: Reader<'_>, at: usize) -> Result<Option<Front<Item>>, NoMemory>
    ensures { IfOk result (λ o. Reads spec.ImportItem Any reader.entry at o) }
{
    let Some(import) = import_at(&reader, at)? else {
        return Ok(None);
    };
    Ok(Some(Front {
        tree: Item::Import(import.tree),
        depth: 0,
        next: import.next,
    }))
}

/// An export list, which has no depth.
fn export_list_item_at(reader: Reader<'_>, at: usize) -> Result<Option<Front<Item>>, NoMemory>
    ensures { IfOk result (λ o. Reads spec.ListItem Any reader.entry at o) }
{
    let Some(list) = export_list_at(&reader, at)? else {
        return Ok(None);
    };
    Ok(Some(Front {
        tree: Item::ExportList(list.tree),
        depth: 0,
        next: list.next,
    }))
}

/// `export` and a declaration.
fn exported_item_at(
    reader: Reader<'_>,
    at: usize,
    limit: usize,
) -> Result<Option<Front<Item>>, NoMemory>
    ensures { IfOk result (λ o. Reads (spec.ExportedItem limit) Any reader.entry at o) }
{
    if !reader.is_word(at, Word::Export) {
        return Ok(None);
    }
    let Some(declaration) = declaration_at(reader, at + 1, limit)? else {
        return Ok(None);
    };
    Ok(Some(Front {
        tree: Item::Declaration {
            exported: true,
            declaration: declaration.tree,
        },
        depth: declaration.depth,
        next: declaration.next,
    }))
}

/// A declaration without `export`.
fn declared_item_at(
    reader: Reader<'_>,
    at: usize,
    limit: usize,
) -> Result<Option<Front<Item>>, NoMemory>
    ensures { IfOk result (λ o. Reads (spec.DeclaredItem limit) Any reader.entry at o) }
{
    let Some(declaration) = declaration_at(reader, at, limit)? else {
        return Ok(None);
    };
    Ok(Some(Front {
        tree: Item::Declaration {
            exported: false,
            declaration: declaration.tree,
        },
        depth: declaration.depth,
        next: declaration.next,
    }))
}

/// A statement, which stands in no body, no loop and no switch.
fn stmt_item_at(
    reader: Reader<'_>,
    at: usize,
    limit: usize,
) -> Result<Option<Front<Item>>, NoMemory>
    requires { at ≤ length reader.tokens.now }
    ensures { IfOk result (λ o. Reads (spec.StmtItem limit) Any reader.entry at o) }
{
    let around = Around {
        in_body: false,
        in_loop: false,
        in_switch: false,
    };
    let Some(stmt) = stmt_at(reader, at, around, limit)? else {
        return Ok(None);
    };
    Ok(Some(Front {
        tree: Item::Stmt(stmt.tree),
        depth: stmt.depth,
        next: stmt.next,
    }))
}

/// Reads the longest front of the tokens from `at` on that is an item, no deeper than an item may be.
pub fn item_at(reader: Reader<'_>, at: usize) -> Result<Option<Front<Item>>, NoMemory>
    requires { at ≤ length reader.tokens.now }
    ensures { IfOk result (λ o. Reads (rules.ItemUpto max_depth) Any reader.entry at o) }
{
    if let Some(import) = import_item_at(reader, at)? {
        return Ok(Some(import));
    }
    if let Some(list) = export_list_item_at(reader, at)? {
        return Ok(Some(list));
    }
    if let Some(exported) = exported_item_at(reader, at, MAX_DEPTH)? {
        return Ok(Some(exported));
    }
    if let Some(declared) = declared_item_at(reader, at, MAX_DEPTH)? {
        return Ok(Some(declared));
    }
    let stmt = stmt_item_at(reader, at, MAX_DEPTH)?;
    Ok(stmt)
}
