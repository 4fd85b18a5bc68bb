//! The names that a file declares.

ghost use Rattle.std.specs.Prelude.{◌≡◌, ◌++◌, map, flat_map, IfOk, OnOk};
ghost use Rattle.tb_plain.specs.Plain as spec;

use crate::differing::all_differ;
use std::alloc::Global;
use tb_text::NoMemory;
use tb_tree::{Declaration, Declarator, Item, Var};

/// Whether no name that an item declares occurs twice.
pub fn have_names_once(alloc: Global, items: &[Item]) -> Result<bool, NoMemory>
    ensures { IfOk result (λ b. b ≡ spec.all_differ (flat_map spec.item_names items.now)) }
{
    let names = file_names(alloc, items)?;
    all_differ(alloc, names.as_slice())
}

fn file_names(alloc: Global, items: &[Item]) -> Result<Vec<&str>, NoMemory>
    ensures { IfOk result (λ names. map (λ name. name.now) names.items ≡ flat_map spec.item_names items.now) }
{
    let mut names = Vec::new(alloc);
    for item in items {
        add_item(&mut names, item)?;
    }
    Ok(names)
}

fn add_item<'a>(names: &mut Vec<&'a str>, item: &'a Item) -> Result<(), NoMemory>
    ensures { OnOk result (map (λ name. name.now) names.new.items ≡ map (λ name. name.now) names.old.items ++ spec.item_names item.now) }
{
    match item {
        Item::Declaration { declaration, .. } => add_names(names, declaration),
        Item::Import(_) => Ok(()),
        Item::ExportList(_) => Ok(()),
        Item::Stmt(_) => Ok(()),
    }
}

fn add_names<'a>(names: &mut Vec<&'a str>, declaration: &'a Declaration) -> Result<(), NoMemory>
    ensures { OnOk result (map (λ name. name.now) names.new.items ≡ map (λ name. name.now) names.old.items ++ spec.declared_names declaration.now) }
{
    match declaration {
        Declaration::Var(var) => add_var(names, var),
        Declaration::Interface(interface) => {
            names.push(interface.name.as_str())?;
            Ok(())
        }
        Declaration::Alias(alias) => {
            names.push(alias.name.as_str())?;
            Ok(())
        }
        Declaration::Function(_) => Ok(()),
        Declaration::Class(_) => Ok(()),
    }
}

fn add_var<'a>(names: &mut Vec<&'a str>, var: &'a Var) -> Result<(), NoMemory>
    ensures { OnOk result (map (λ name. name.now) names.new.items ≡ map (λ name. name.now) names.old.items ++ spec.var_names var.now) }
{
    add_declarators(names, var.declarators.as_slice())
}

fn add_declarators<'a>(
    names: &mut Vec<&'a str>,
    declarators: &'a [Declarator],
) -> Result<(), NoMemory>
    ensures { OnOk result (map (λ name. name.now) names.new.items ≡ map (λ name. name.now) names.old.items ++ map spec.declarator_name declarators.now) }
{
    for declarator in declarators {
        names.push(declarator.name.as_str())?;
    }
    Ok(())
}
