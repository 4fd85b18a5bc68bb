//! Items: each ends its line, and what is only a type leaves nothing.

ghost use Rattle.std.specs.Prelude.{◌≡◌, ◌++◌, OnOk, flat_map, string_bytes};
ghost use Rattle.std.specs.List.{list_any};
ghost use Rattle.tb_layout.specs.Erase as erasing;
ghost use Rattle.tb_layout.specs.Js as layout;
ghost use Rattle.tb_layout.specs.Pieces.{text_of};
ghost use Rattle.tb_emit_js.specs.Items as spec;

use crate::classes::write_class;
use crate::names::write_specs;
use crate::texts::put;
use crate::trees::{write_function, write_stmt, write_var};
use tb_text::NoMemory;
use tb_tree::{Declaration, ExportList, Import, Item, Spec, Specifier, Stmt};

/// Whether an import or an export is left of the item.
#[tactic(auto, using(crate::proofs::Lines::list_left))]
pub(crate) fn stays_in_module(item: &Item) -> bool
    ensures { result ≡ list_any erasing.is_module_item (erasing.erased_item item.now) }
{
    match item {
        Item::Import(import) => import_stays(import),
        Item::ExportList(list) => list_stays(list),
        Item::Declaration {
            exported,
            declaration,
        } => is_left(*exported, declaration),
        Item::Stmt(_) => false,
    }
}

#[tactic(auto, using(crate::proofs::Lines::import_left))]
fn import_stays(import: &Import) -> bool
    ensures { result ≡ list_any erasing.is_module_item (erasing.erased_import import.now) }
{
    match import {
        Import::List { type_only, .. } => !*type_only,
        Import::Bare { .. } => true,
    }
}

/// Whether the declaration is exported, and no type.
#[tactic(auto, using(crate::proofs::Lines::var_left, crate::proofs::Lines::function_left, crate::proofs::Lines::class_left))]
fn is_left(exported: bool, declaration: &Declaration) -> bool
    ensures { result ≡ list_any erasing.is_module_item (erasing.erased_declaration exported declaration.now) }
{
    match declaration {
        Declaration::Var(_) => exported,
        Declaration::Function(_) => exported,
        Declaration::Class(_) => exported,
        Declaration::Interface(_) => false,
        Declaration::Alias(_) => false,
    }
}

/// Whether a value is named.
fn has_value(all: &[Spec]) -> bool
    ensures { result ≡ list_any erasing.is_value_spec all.now }
{
    for spec in all {
        if !spec.type_only {
            return true;
        }
    }
    false
}

/// A list with `type` goes, and so does one that loses all of at least one name, unless it has `from`.
#[tactic(auto, using(crate::proofs::Lines::stays_typed, crate::proofs::Lines::stays_empty, crate::proofs::Lines::stays_valued, crate::proofs::Lines::stays_from))]
fn list_stays(list: &ExportList) -> bool
    ensures { result ≡ spec.list_stays list.now }
{
    if list.type_only {
        return false;
    }
    if list.specs.is_empty() {
        return true;
    }
    if has_value(list.specs.as_slice()) {
        return true;
    }
    has_origin(&list.from)
}

fn has_origin(from: &Option<Specifier>) -> bool
    ensures { result ≡ spec.has_origin from.now }
{
    match from {
        Some(_) => true,
        None => false,
    }
}

pub(crate) fn write_item(out: &mut String, item: &Item) -> Result<(), NoMemory>
    ensures { OnOk result (string_bytes out.new
        ≡ string_bytes out.old ++ flat_map spec.item_line (erasing.erased_item item.now)) }
{
    match item {
        Item::Import(import) => write_import(out, import),
        Item::ExportList(list) => write_list(out, list),
        Item::Declaration {
            exported,
            declaration,
        } => write_declaration(out, *exported, declaration),
        Item::Stmt(stmt) => write_statement(out, stmt),
    }
}

#[tactic(auto, using(crate::proofs::Joins::assoc, crate::proofs::Lines::stmt_line))]
fn write_statement(out: &mut String, stmt: &Stmt) -> Result<(), NoMemory>
    ensures { OnOk result (string_bytes out.new
        ≡ string_bytes out.old ++ flat_map spec.item_line (spec.erased_stmt_item stmt.now)) }
{
    write_stmt(out, stmt, 0)?;
    put(out, "\n")?;
    Ok(())
}

#[tactic(auto, using(crate::proofs::Joins::assoc, crate::proofs::Lines::import_gone, crate::proofs::Lines::import_line, crate::proofs::Lines::bare_line))]
fn write_import(out: &mut String, import: &Import) -> Result<(), NoMemory>
    ensures { OnOk result (string_bytes out.new
        ≡ string_bytes out.old ++ flat_map spec.item_line (erasing.erased_import import.now)) }
{
    match import {
        Import::List {
            type_only,
            specs,
            from,
            ..
        } => {
            if *type_only {
                return Ok(());
            }
            put(out, "import ")?;
            write_specs(out, specs.as_slice())?;
            put(out, " from ")?;
            put(out, from.spelled.as_str())?;
            put(out, ";\n")?;
            Ok(())
        }
        Import::Bare { from, .. } => {
            put(out, "import ")?;
            put(out, from.spelled.as_str())?;
            put(out, ";\n")?;
            Ok(())
        }
    }
}

#[tactic(auto, using(crate::proofs::Joins::assoc, crate::proofs::Lines::list_gone, crate::proofs::Lines::list_line))]
fn write_list(out: &mut String, list: &ExportList) -> Result<(), NoMemory>
    ensures { OnOk result (string_bytes out.new
        ≡ string_bytes out.old ++ flat_map spec.item_line (erasing.erased_export_list list.now)) }
{
    if !list_stays(list) {
        return Ok(());
    }
    put(out, "export ")?;
    write_specs(out, list.specs.as_slice())?;
    write_from(out, &list.from)?;
    put(out, ";\n")?;
    Ok(())
}

#[tactic(auto, using(crate::proofs::Joins::assoc, crate::proofs::Lines::from_some))]
fn write_from(out: &mut String, from: &Option<Specifier>) -> Result<(), NoMemory>
    ensures { OnOk result (string_bytes out.new ≡ string_bytes out.old ++ text_of (layout.from_pieces from.now)) }
{
    match from {
        Some(origin) => {
            put(out, " from ")?;
            put(out, origin.spelled.as_str())?;
            Ok(())
        }
        None => Ok(()),
    }
}

fn exported_text(exported: bool) -> &'static str
    ensures { result.now ≡ text_of (layout.exported_pieces exported) }
{
    if exported { "export " } else { "" }
}

#[tactic(auto, using(crate::proofs::Joins::assoc, crate::proofs::Lines::var_line, crate::proofs::Lines::function_line, crate::proofs::Lines::class_line))]
fn write_declaration(
    out: &mut String,
    exported: bool,
    declaration: &Declaration,
) -> Result<(), NoMemory>
    ensures { OnOk result (string_bytes out.new
        ≡ string_bytes out.old ++ flat_map spec.item_line (erasing.erased_declaration exported declaration.now)) }
{
    match declaration {
        Declaration::Var(var) => {
            put(out, exported_text(exported))?;
            write_var(out, var, 0)?;
            put(out, "\n")?;
            Ok(())
        }
        Declaration::Function(function) => {
            put(out, exported_text(exported))?;
            write_function(out, function, 0)?;
            put(out, "\n")?;
            Ok(())
        }
        Declaration::Class(class) => {
            put(out, exported_text(exported))?;
            write_class(out, class)?;
            put(out, "\n")?;
            Ok(())
        }
        Declaration::Interface(_) => Ok(()),
        Declaration::Alias(_) => Ok(()),
    }
}
