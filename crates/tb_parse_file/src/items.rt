//! All items of a file.

ghost use Rattle.std.specs.Prelude.{IfOk};
ghost use Rattle.tb_parse_file.specs.Reading.{ReadsAll};

use crate::choice::item_at;
use sqlite_items::Items;
use tb_parse_type::Reader;
use tb_text::NoMemory;
use tb_tree::Item;

/// What all tokens are.
#[derive(Drop)]
pub enum Reading {
    /// Items, one after the other.
    Items(Items<Item>),
    /// After some items none begins here, at this offset.
    StopsAt(usize),
}

/// Reads all items, each once.
pub fn items(reader: Reader<'_>) -> Result<Reading, NoMemory>
    ensures { IfOk result (ReadsAll reader.entry) }
{
    let mut items = Items::new(reader.alloc);
    let mut next = 0;
    while next < reader.tokens.len() {
        let Some(item) = item_at(reader, next)? else {
            return Ok(Reading::StopsAt(reader.start_at(next)));
        };
        items.push(item.tree)?;
        next = item.next;
    }
    Ok(Reading::Items(items))
}
