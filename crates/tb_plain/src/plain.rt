//! Whether a file is plain.

ghost use Rattle.std.specs.Prelude.{◌≡◌, IfOk, IsTrue, IsFalse};
ghost use Rattle.std.specs.List.{list_all};
ghost use Rattle.tb_plain.specs.Plain as spec;
ghost use Rattle.tb_plain.specs.Plain.{IsPlain};

use crate::constants::{is_base_type, is_plain_var};
use crate::members::{are_plain_members, have_keys_once};
use crate::names::have_names_once;
use crate::written::is_written_plainly;
use std::alloc::Global;
use tb_text::NoMemory;
use tb_tree::{Alias, Declaration, File, Interface, Item};

/// Whether a text that reads as this file is plain: its items are exported constants with a literal as their value and
/// the base type of it as their annotation, if they have one, exported aliases of base types, and exported interfaces
/// of properties with base types; no name and no member of an interface occurs twice; and it is written as plain files
/// are.
pub fn is_plain(alloc: Global, text: &[u8], file: &File) -> Result<bool, NoMemory>
    ensures yes { IfOk result (λ b. IsTrue b → IsPlain text.now file.now) }
    ensures no { IfOk result (λ b. IsFalse b → IsPlain text.now file.now → ⊥) }
{
    Ok(has_plain_items(alloc, file)? && is_written_plainly(alloc, text)?)
}

fn has_plain_items(alloc: Global, file: &File) -> Result<bool, NoMemory>
    ensures { IfOk result (λ b. b ≡ spec.has_plain_items file.now) }
{
    if !are_plain(alloc, file.items.as_slice())? {
        return Ok(false);
    }
    have_names_once(alloc, file.items.as_slice())
}

fn are_plain(alloc: Global, items: &[Item]) -> Result<bool, NoMemory>
    ensures { IfOk result (λ b. b ≡ list_all spec.is_plain_item items.now) }
{
    for item in items {
        if !is_plain_item(alloc, item)? {
            return Ok(false);
        }
    }
    Ok(true)
}

fn is_plain_item(alloc: Global, item: &Item) -> Result<bool, NoMemory>
    ensures { IfOk result (λ b. b ≡ spec.is_plain_item item.now) }
{
    match item {
        Item::Declaration {
            exported,
            declaration,
        } => {
            if *exported {
                is_plain_declaration(alloc, declaration)
            } else {
                Ok(false)
            }
        }
        Item::Import(_) => Ok(false),
        Item::ExportList(_) => Ok(false),
        Item::Stmt(_) => Ok(false),
    }
}

fn is_plain_declaration(alloc: Global, declaration: &Declaration) -> Result<bool, NoMemory>
    ensures { IfOk result (λ b. b ≡ spec.is_plain_declaration declaration.now) }
{
    match declaration {
        Declaration::Var(var) => Ok(is_plain_var(var)),
        Declaration::Interface(interface) => is_plain_interface(alloc, interface),
        Declaration::Alias(alias) => Ok(is_plain_alias(alias)),
        Declaration::Function(_) => Ok(false),
        Declaration::Class(_) => Ok(false),
    }
}

fn is_plain_interface(alloc: Global, interface: &Interface) -> Result<bool, NoMemory>
    ensures { IfOk result (λ b. b ≡ spec.is_plain_interface interface.now) }
{
    if !interface.variables.as_slice().is_empty() || !interface.extends.as_slice().is_empty() {
        return Ok(false);
    }
    if !are_plain_members(interface.members.as_slice()) {
        return Ok(false);
    }
    have_keys_once(alloc, interface.members.as_slice())
}

fn is_plain_alias(alias: &Alias) -> bool
    ensures { result ≡ spec.is_plain_alias alias.now }
{
    if !alias.variables.as_slice().is_empty() {
        return false;
    }
    is_base_type(&alias.shape)
}
