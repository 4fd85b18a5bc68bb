//! What the parts of types are written as that are neither types nor strings.

ghost use Rattle.std.specs.Prelude.{◌≡◌, ◌++◌, OnOk, codes, string_bytes};
ghost use Rattle.tb_layout.specs.Js.{truth_pieces};
ghost use Rattle.tb_layout.specs.Pieces.{text_of};
ghost use Rattle.tb_layout.specs.Shown as shown;
ghost use Rattle.tb_show.specs.Lists.{gap_text};

use tb_text::NoMemory;
use tb_tree::TypeKeyword;

pub(crate) fn put(out: &mut String, text: &str) -> Result<(), NoMemory>
    ensures { OnOk result (string_bytes out.new ≡ string_bytes out.old ++ text.now) }
{
    out.push_str(text)?;
    Ok(())
}

pub(crate) fn keyword_text(keyword: TypeKeyword) -> &'static str
    ensures { result.now ≡ shown.keyword_text keyword }
{
    match keyword {
        TypeKeyword::Any => "any",
        TypeKeyword::Unknown => "unknown",
        TypeKeyword::Never => "never",
        TypeKeyword::Number => "number",
        TypeKeyword::String => "string",
        TypeKeyword::Boolean => "boolean",
        TypeKeyword::Void => "void",
        TypeKeyword::Null => "null",
        TypeKeyword::Undefined => "undefined",
    }
}

pub(crate) fn truth_text(value: bool) -> &'static str
    ensures { result.now ≡ text_of (truth_pieces value) }
{
    if value { "true" } else { "false" }
}

pub(crate) fn minus_text(minus: bool) -> &'static str
    ensures { result.now ≡ text_of (shown.minus_pieces minus) }
{
    if minus { "-" } else { "" }
}

pub(crate) fn read_only_text(read_only: bool) -> &'static str
    ensures { result.now ≡ text_of (shown.read_only_pieces read_only) }
{
    if read_only { "readonly " } else { "" }
}

pub(crate) fn optional_text(optional: bool) -> &'static str
    ensures { result.now ≡ text_of (shown.optional_pieces optional) }
{
    if optional { "?" } else { "" }
}

/// What stands before a member of a list, where there is an earlier one or not.
pub(crate) fn comma_text(some: bool) -> &'static str
    ensures { result.now ≡ gap_text (codes ", ") some }
{
    if some { ", " } else { "" }
}

pub(crate) fn bar_text(some: bool) -> &'static str
    ensures { result.now ≡ gap_text (codes " | ") some }
{
    if some { " | " } else { "" }
}
