//! All items of a declaration file.

ghost use Rattle.std.specs.Prelude.{◌≡◌, ◌++◌, map, IfOk, OnOk};
ghost use Rattle.tb_layout.specs.Quoted.{quoted_surface_item};
ghost use Rattle.tb_parse_file.specs.DeclReading as spec;

use crate::decl_choice::decl_item_at;
use crate::quoting::quoted_item;
use sqlite_items::Items;
use std::alloc::Global;
use tb_parse_type::Reader;
use tb_text::NoMemory;
use tb_tree::SurfaceItem;

/// What all tokens are.
#[derive(Drop)]
pub enum DeclReading {
    /// Items, one after the other: what is kept of them, with their strings in double quotes.
    Items(Items<SurfaceItem>),
    /// After some items none begins here, at this offset.
    StopsAt(usize),
}

/// Puts what is kept of an item behind what is kept of those before.
fn keep(
    alloc: Global,
    items: &mut Items<SurfaceItem>,
    kept: Option<SurfaceItem>,
) -> Result<(), NoMemory>
    ensures { OnOk result (items.new ≡ items.old ++ map quoted_surface_item (spec.at_most_one kept)) }
{
    if let Some(item) = kept {
        items.push(quoted_item(alloc, item)?)?;
    }
    Ok(())
}

/// Reads all items, each once.
pub fn decl_items(reader: Reader<'_>) -> Result<DeclReading, NoMemory>
    ensures { IfOk result (spec.ReadsAll reader.entry) }
{
    let mut items = Items::new(reader.alloc);
    let mut next = 0;
    while next < reader.tokens.len() {
        let Some(item) = decl_item_at(reader, next)? else {
            return Ok(DeclReading::StopsAt(reader.start_at(next)));
        };
        keep(reader.alloc, &mut items, item.tree)?;
        next = item.next;
    }
    Ok(DeclReading::Items(items))
}
