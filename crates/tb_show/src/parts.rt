//! Keys, and which types have parentheses round them.

ghost use Rattle.std.specs.Prelude.{◌≡◌, ◌++◌, OnOk, string_bytes};
ghost use Rattle.tb_layout.specs.Pieces.{text_of};
ghost use Rattle.tb_layout.specs.Shown as shown;
ghost use Rattle.tb_show.specs.Loose as spec;

use crate::strings::write_quoted;
use crate::texts::put;
use tb_text::NoMemory;
use tb_tree::{Key, TypeExpr};

/// A word as it is, a string in its one spelling.
#[tactic(auto, using(crate::proofs::Forms::word_key_text, crate::proofs::Forms::string_key_text))]
pub(crate) fn write_key(out: &mut String, of: &Key) -> Result<(), NoMemory>
    ensures { OnOk result (string_bytes out.new ≡ string_bytes out.old ++ text_of (shown.shown_key of.now)) }
{
    match of {
        Key::Word(name) => put(out, name.as_str()),
        Key::String(spelled) => write_quoted(out, spelled.as_str()),
    }
}

/// Whether a type has parentheses round it as the element of an array.
#[tactic(auto, using(crate::proofs::Looseness::element_out, crate::proofs::Looseness::array_element, crate::proofs::Looseness::function_element, crate::proofs::Looseness::union_element))]
pub(crate) fn is_loose_element(of: &TypeExpr) -> bool
    ensures { result ≡ spec.is_loose_element of.now }
{
    match of {
        TypeExpr::Array { read_only, .. } => *read_only,
        TypeExpr::Function { .. } => true,
        TypeExpr::Union { .. } => true,
        _ => false,
    }
}

/// The same as a part of a union.
#[tactic(auto, using(crate::proofs::Looseness::part_out, crate::proofs::Looseness::function_part))]
pub(crate) fn is_loose_part(of: &TypeExpr) -> bool
    ensures { result ≡ spec.is_loose_part of.now }
{
    match of {
        TypeExpr::Function { .. } => true,
        _ => false,
    }
}
