ghost use Rattle.std.specs.Prelude.{◌≡◌, Some, None, IfOk, IsErrOf};
ghost use Rattle.serde_json.specs.View.{view};
ghost use Rattle.tb_jsonc.specs.Blanks.{json_of};

use crate::{JsonFault, blanked};
use serde_json::Value;
use std::alloc::Global;

/// The value of a text once it is blanked. It is unreadable exactly where `blanked` finds it so, or `serde_json`
/// refuses what is left.
pub fn read_json(alloc: Global, text: &[u8]) -> Result<Value, JsonFault>
    ensures ok { IfOk result (λ v. json_of text.now ≡ Some (view v)) }
    ensures unreadable { IsErrOf result JsonFault.Unreadable → json_of text.now ≡ None }
{
    let blanked = blanked(alloc, text)?;
    match Value::from_slice(alloc, blanked.as_slice()) {
        Ok(value) => Ok(value),
        Err(e) if e.is_memory() => Err(JsonFault::NoMemory),
        Err(_) => Err(JsonFault::Unreadable),
    }
}
