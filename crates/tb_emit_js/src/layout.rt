//! JavaScript is written in one walk over the file: what is only a type is passed over, and no erased tree is made.

ghost use Rattle.std.specs.Prelude.{◌≡◌, IfOk};
ghost use Rattle.tb_layout.specs.Erase.{erase};
ghost use Rattle.tb_layout.specs.Js.{js_text};
ghost use Rattle.tb_emit_js.specs.Items.{module_end};

use crate::items::{stays_in_module, write_item};
use crate::texts::put;
use std::alloc::Global;
use tb_text::{NoMemory, Text};
use tb_tree::File;

/// The JavaScript of a file: its items without their types. Where no import and no export is left, `export {};` stands
/// last, so that the file stays a module.
pub fn js(alloc: Global, file: &File) -> Result<Text, NoMemory>
    ensures { IfOk result (λ t. t ≡ js_text (erase file.now)) }
{
    let mut out = String::new(alloc);
    let mut is_module = false;
    for item in file.items.as_slice() {
        write_item(&mut out, item)?;
        is_module = is_module || stays_in_module(item);
    }
    put(&mut out, end_text(is_module))?;
    Ok(Text::from_vec(out.into_bytes()))
}

/// What is added where no import and no export is left.
fn end_text(is_module: bool) -> &'static str
    ensures { result.now ≡ module_end is_module }
{
    if is_module { "" } else { "export {};\n" }
}
