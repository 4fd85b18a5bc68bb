ghost use Rattle.std.specs.Prelude.{◌≡◌, ◌↔◌, Some, None, IfOk, IfErr, IsErrOf, IsUtf8, IsTrue, option_map};
ghost use Rattle.serde_json.specs.Read.{read};
ghost use Rattle.serde_json.specs.View.{view};
ghost use Rattle.tb_face.specs.declared.infos.Info.{Info};
ghost use Rattle.tb_face.specs.Infos.{WellFormed, info_data, spelling};
ghost use Rattle.tb_info.specs.Reading.{Gives, is_ours, is_other, Tells, IsOnly};

use crate::faults::Unread;
use crate::fitting::Fit;
use crate::reading::info_of;
use crate::writing::write_info;
use serde_json::{Category, Value};
use std::alloc::Global;
use tb_face::{BUILDER, Info, InfoFault};

fn value_of(alloc: Global, bytes: &[u8]) -> Result<Value, Unread>
    ensures found { IfOk result (λ v. IsUtf8 bytes.now × (read bytes.now ≡ Some (view v))) }
    ensures none { IsErrOf result Unread.NotRead → IsUtf8 bytes.now → read bytes.now ≡ None }
{
    match Value::from_slice(alloc, bytes) {
        Ok(value) => Ok(value),
        Err(e) => match e.classify() {
            Category::Memory => Err(Unread::NoMemory),
            _ => Err(Unread::NotRead),
        },
    }
}

fn is_ours(builder: Option<&str>) -> bool
    ensures { result ≡ is_ours (option_map (λ s. s.now) builder.entry) }
{
    match builder {
        Some(text) => text == BUILDER,
        None => false,
    }
}

fn is_other(value: &Value) -> bool
    ensures { result ≡ is_other (view value.now) }
{
    value.is_object() && !is_ours(value.get("builder").and_then(Value::as_str))
}

fn is_same(one: &[u8], other: &[u8]) -> bool
    ensures { IsTrue result ↔ (one.now ≡ other.now) }
{
    one == other
}

// The info that is spelled so, and nothing else.
fn exact(alloc: Global, value: &Value, bytes: &[u8]) -> Result<Info, Unread>
    ensures found { IfOk result (λ i. WellFormed i × (bytes.now ≡ spelling i)) }
    ensures only { (i : Info) → WellFormed i → bytes.now ≡ spelling i
        → view value.now ≡ info_data i → Gives result (Some i) }
{
    let info = info_of(alloc, value)?;
    if !info.is_fit() {
        return Err(Unread::NotRead);
    }
    let text = write_info(alloc, &info)?;
    if !is_same(text.as_slice(), bytes) {
        return Err(Unread::NotRead);
    }
    Ok(info)
}

/// The info that the bytes spell, as `write_info` does. `InfoFault::NotInfo` comes exactly where they are the text of no
/// well-formed info.
pub fn read_info(alloc: Global, bytes: &[u8]) -> Result<Info, InfoFault>
    // What is read is well formed, and is spelled so.
    ensures found { IfOk result (λ i. WellFormed i × (bytes.now ≡ spelling i)) }
    // What is spelled so is read, unless memory runs out.
    ensures only { (i : Info) → WellFormed i → bytes.now ≡ spelling i → IsOnly i result }
    // Which bytes another builder wrote.
    ensures other { IfErr result (Tells bytes.now) }
{
    let value = match value_of(alloc, bytes) {
        Ok(value) => value,
        Err(Unread::NoMemory) => return Err(InfoFault::NoMemory),
        Err(Unread::NotRead) => return Err(InfoFault::NotInfo { other: false }),
    };
    match exact(alloc, &value, bytes) {
        Ok(info) => Ok(info),
        Err(Unread::NoMemory) => Err(InfoFault::NoMemory),
        Err(Unread::NotRead) => Err(InfoFault::NotInfo {
            other: is_other(&value),
        }),
    }
}

/// No info has two texts, and no text is of two infos.
pub fn one_text()
    ensures { (i j : Info) → WellFormed i → WellFormed j → (spelling i ≡ spelling j) ↔ (i ≡ j) }
{}
