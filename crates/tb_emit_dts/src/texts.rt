//! What the parts are written as that are no trees.

ghost use Rattle.std.specs.Prelude.{◌≡◌, ◌++◌, OnOk, codes, string_bytes};
ghost use Rattle.tb_layout.specs.Js as js;
ghost use Rattle.tb_layout.specs.Pieces.{text_of};
ghost use Rattle.tb_layout.specs.Shown as shown;
ghost use Rattle.tb_layout.specs.Dts as spec;
ghost use Rattle.tb_show.specs.Lists.{gap_text};

use tb_text::NoMemory;
use tb_tree::VarKind;

pub(crate) fn put(out: &mut String, text: &str) -> Result<(), NoMemory>
    ensures { OnOk result (string_bytes out.new ≡ string_bytes out.old ++ text.now) }
{
    out.push_str(text)?;
    Ok(())
}

/// What stands before a member of a list, where there is an earlier one or not.
pub(crate) fn comma_text(some: bool) -> &'static str
    ensures { result.now ≡ gap_text (codes ", ") some }
{
    if some { ", " } else { "" }
}

pub(crate) fn type_text(type_only: bool) -> &'static str
    ensures { result.now ≡ text_of (spec.typed_pieces type_only) }
{
    if type_only { "type " } else { "" }
}

pub(crate) fn export_text(exported: bool) -> &'static str
    ensures { result.now ≡ text_of (js.exported_pieces exported) }
{
    if exported { "export " } else { "" }
}

pub(crate) fn kind_text(kind: VarKind) -> &'static str
    ensures { result.now ≡ text_of (js.kind_pieces kind) }
{
    match kind {
        VarKind::Const => "const",
        VarKind::Let => "let",
    }
}

pub(crate) fn static_text(is_static: bool) -> &'static str
    ensures { result.now ≡ text_of (js.static_pieces is_static) }
{
    if is_static { "static " } else { "" }
}

pub(crate) fn read_only_text(read_only: bool) -> &'static str
    ensures { result.now ≡ text_of (shown.read_only_pieces read_only) }
{
    if read_only { "readonly " } else { "" }
}

pub(crate) fn optional_text(optional: bool) -> &'static str
    ensures { result.now ≡ text_of (shown.optional_pieces optional) }
{
    if optional { "?" } else { "" }
}

pub(crate) fn last_text(needed: bool) -> &'static str
    ensures { result.now ≡ text_of (spec.last_line needed) }
{
    if needed { "export {};\n" } else { "" }
}
