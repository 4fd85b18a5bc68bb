//! Surfaces: each item stands on lines of its own.

ghost use Rattle.std.specs.Prelude.{◌≡◌, ◌++◌, IfOk, OnOk, flat_map, string_bytes};
ghost use Rattle.std.specs.List.{list_any, list_all};
ghost use Rattle.tb_layout.specs.Pieces.{text_of};
ghost use Rattle.tb_layout.specs.Dts as spec;

use crate::declarations::write_declared;
use crate::names::{write_export_list, write_import};
use crate::texts::{export_text, last_text, put};
use std::alloc::Global;
use tb_text::{NoMemory, Text};
use tb_tree::{Surface, SurfaceItem};

/// The declaration file of a surface. Its last line is `export {};` where no item is an export, or where some item that is no
/// import has no `export`, since else the file would be no module, or would export that item too.
#[tactic(auto, using(tb_show::proofs::Joins::assoc, crate::proofs::Forms::surface_text))]
pub fn dts(alloc: Global, surface: &Surface) -> Result<Text, NoMemory>
    ensures { IfOk result (λ text. text ≡ spec.dts_text surface.now) }
{
    let mut out = String::new(alloc);
    write_items(&mut out, surface.items.as_slice())?;
    put(&mut out, last_text(needs_export(surface.items.as_slice())))?;
    Ok(Text::from_vec(out.into_bytes()))
}

#[tactic(auto, using(tb_show::proofs::Joins::assoc, crate::proofs::Forms::items_step))]
fn write_items(out: &mut String, all: &[SurfaceItem]) -> Result<(), NoMemory>
    ensures { OnOk result (string_bytes out.new ≡ string_bytes out.old ++ text_of (flat_map spec.item_lines all.now)) }
{
    for item in all {
        write_item(out, item)?;
    }
    Ok(())
}

/// An item, and the end of its line.
#[tactic(auto, using(tb_show::proofs::Joins::assoc, crate::proofs::Forms::import_item_text, crate::proofs::Forms::export_item_text, crate::proofs::Forms::declaration_item_text))]
fn write_item(out: &mut String, of: &SurfaceItem) -> Result<(), NoMemory>
    ensures { OnOk result (string_bytes out.new ≡ string_bytes out.old ++ text_of (spec.item_lines of.now)) }
{
    match of {
        SurfaceItem::Import(import) => {
            write_import(out, import)?;
            put(out, "\n")?;
            Ok(())
        }
        SurfaceItem::ExportList(list) => {
            write_export_list(out, list)?;
            put(out, "\n")?;
            Ok(())
        }
        SurfaceItem::Declaration { exported, declared } => {
            put(out, export_text(*exported))?;
            write_declared(out, declared)?;
            put(out, "\n")?;
            Ok(())
        }
    }
}

fn needs_export(items: &[SurfaceItem]) -> bool
    ensures { result ≡ spec.needs_export items.now }
{
    !has_export(items) || !are_module_items(items)
}

fn has_export(items: &[SurfaceItem]) -> bool
    ensures { result ≡ list_any spec.is_export items.now }
{
    items.iter().any(|item| is_export(item))
}

fn are_module_items(items: &[SurfaceItem]) -> bool
    ensures { result ≡ list_all spec.is_import_or_export items.now }
{
    items.iter().all(|item| is_import_or_export(item))
}

fn is_export(item: &SurfaceItem) -> bool
    ensures { result ≡ spec.is_export item.now }
{
    match item {
        SurfaceItem::Import(_) => false,
        SurfaceItem::ExportList(_) => true,
        SurfaceItem::Declaration { exported, .. } => *exported,
    }
}

fn is_import_or_export(item: &SurfaceItem) -> bool
    ensures { result ≡ spec.is_import_or_export item.now }
{
    match item {
        SurfaceItem::Import(_) => true,
        SurfaceItem::ExportList(_) => true,
        SurfaceItem::Declaration { exported, .. } => *exported,
    }
}
