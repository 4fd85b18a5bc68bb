//! The forms of a config's members.
ghost use Rattle.std.specs.Prelude.{◌≡◌, IfOk, option_map, map};
ghost use Rattle.std.specs.Option.{option_copied};
ghost use Rattle.serde_json.specs.View.{view};
ghost use Rattle.tb_options.specs.Members.{texts_of, reference_text, reference_texts, extends_texts, path_lists};
ghost use Rattle.tb_options.specs.Lists.{list_of};
ghost use Rattle.tb_text.specs.Walks.{texts};

use serde_json::Value;
use std::alloc::{AllocError, Global};

/// A key of `paths`, and its texts.
#[derive(Debug, Drop)]
pub struct PathList<'v> {
    pub key: &'v str,
    pub texts: Vec<&'v str>,
}

/// The texts of a list of texts; none where the value has another form.
pub fn texts_of<'v>(alloc: Global, value: &'v Value) -> Result<Option<Vec<&'v str>>, AllocError>
    ensures { IfOk result (λ found. option_map (λ v. texts v.items) found ≡ texts_of (view value.now)) }
{
    let Some(items) = value.as_array() else {
        return Ok(None);
    };
    let mut texts = Vec::new(alloc);
    for item in items {
        let Some(text) = item.as_str() else {
            return Ok(None);
        };
        texts.push(text)?;
    }
    Ok(Some(texts))
}

/// The texts `path` of a list of references; none where the value has another form.
pub fn reference_texts<'v>(
    alloc: Global,
    value: &'v Value,
) -> Result<Option<Vec<&'v str>>, AllocError>
    ensures { IfOk result (λ found. option_map (λ v. texts v.items) found ≡ reference_texts (view value.now)) }
{
    let Some(items) = value.as_array() else {
        return Ok(None);
    };
    let mut texts = Vec::new(alloc);
    for item in items {
        let Some(text) = reference_text(item) else {
            return Ok(None);
        };
        texts.push(text)?;
    }
    Ok(Some(texts))
}

fn reference_text(reference: &Value) -> Option<&str>
    ensures { option_copied result ≡ reference_text (view reference.now) }
{
    let path = reference.get("path")?;
    path.as_str()
}

/// The texts of `extends`; none where the value has another form.
pub fn extends_texts<'v>(
    alloc: Global,
    value: &'v Value,
) -> Result<Option<Vec<&'v str>>, AllocError>
    ensures { IfOk result (λ found. option_map (λ v. texts v.items) found ≡ extends_texts (view value.now)) }
{
    let Some(text) = value.as_str() else {
        return texts_of(alloc, value);
    };
    let mut texts = Vec::new(alloc);
    texts.push(text)?;
    Ok(Some(texts))
}

/// The keys of `paths` with their texts; none where the value has another form.
pub fn path_lists<'v>(
    alloc: Global,
    value: &'v Value,
) -> Result<Option<Vec<PathList<'v>>>, AllocError>
    ensures { IfOk result (λ found. option_map (λ v. map list_of v.items) found ≡ path_lists (view value.now)) }
{
    let Some(members) = value.as_object() else {
        return Ok(None);
    };
    let mut lists = Vec::new(alloc);
    for (key, value) in members {
        let Some(texts) = texts_of(alloc, value)? else {
            return Ok(None);
        };
        lists.push(PathList {
            key: key.as_str(),
            texts,
        })?;
    }
    Ok(Some(lists))
}
