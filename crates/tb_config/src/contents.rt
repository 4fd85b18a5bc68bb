//! What is read where a config is looked for.
ghost use Rattle.std.specs.Prelude.{◌≡◌, ◌++◌, Some, IfOk, OnOk};
ghost use Rattle.std.specs.Option.{option_copied};
ghost use Rattle.serde_json.specs.View.{view};
ghost use Rattle.tb_config.specs.Configs.{content_in, content_of};
ghost use Rattle.tb_config.specs.Contents.{seen_content};
ghost use Rattle.tb_config.specs.Faults.{content_faults};

use serde_json::Value;
use std::alloc::Global;
use tb_jsonc::{JsonFault, read_json};
use tb_options::{Fault, check_object};
use tb_text::{NoMemory, Path, Text};

#[derive(Drop)]
pub enum Content {
    /// There is no file.
    Missing,
    /// The file is no JSON, or its JSON is no object.
    Unreadable,
    /// A JSON object.
    Object(Value),
}

impl Content {
    ghost use Rattle.std.specs.Prelude.{◌≡◌, option_map, option_and_then};
    ghost use Rattle.serde_json.specs.Find.{get};
    ghost use Rattle.serde_json.specs.View.{view};
    ghost use Rattle.tb_config.specs.Configs.{object_of};
    ghost use Rattle.tb_config.specs.Contents.{seen_content};

    /// The member of this name, if there is one.
    pub fn member(&self, name: &str) -> Option<&Value>
        ensures { option_map (λ value. view value.now) result ≡ option_and_then (get name.now) (object_of (seen_content self.now)) }
    {
        match self {
            Content::Object(object) => object.get(name),
            _ => None,
        }
    }
}

/// The content of a file; none is missing.
pub fn content_in(alloc: Global, file: Option<&Text>) -> Result<Content, NoMemory>
    ensures { IfOk result (λ content. seen_content content ≡ content_in (option_copied file.entry)) }
{
    let Some(text) = file else {
        return Ok(Content::Missing);
    };
    match read_json(alloc, text.as_slice()) {
        Ok(value) => Ok(content_of(value)),
        Err(JsonFault::Unreadable) => Ok(Content::Unreadable),
        Err(JsonFault::NoMemory) => Err(NoMemory),
    }
}

fn content_of(value: Value) -> Content
    ensures { seen_content result ≡ content_of (Some (view value)) }
{
    if value.is_object() {
        Content::Object(value)
    } else {
        Content::Unreadable
    }
}

/// Adds what is wrong in the content of a config in this folder.
pub fn check_content(
    alloc: Global,
    faults: &mut Vec<Fault>,
    folder: &Path,
    content: &Content,
) -> Result<(), NoMemory>
    ensures { OnOk result (faults.new.items ≡ faults.old.items ++ content_faults folder.now (seen_content content.now)) }
{
    match content {
        Content::Object(object) => check_object(alloc, faults, folder, object),
        _ => Ok(()),
    }
}
