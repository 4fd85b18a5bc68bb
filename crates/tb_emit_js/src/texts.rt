//! What the parts that are no trees are written as.

ghost use Rattle.std.specs.Prelude.{◌≡◌, ◌++◌, suc, IfOk, OnOk, string_bytes};
ghost use Rattle.tb_layout.specs.Js as layout;
ghost use Rattle.tb_layout.specs.Pieces.{text_of, mark_text, new_line};
ghost use Rattle.tb_emit_js.specs.Lines as spec;

use tb_text::NoMemory;
use tb_tree::{AssignOperator, BinaryOperator, Key, VarKind};

pub(crate) fn put(out: &mut String, text: &str) -> Result<(), NoMemory>
    ensures { OnOk result (string_bytes out.new ≡ string_bytes out.old ++ text.now) }
{
    out.push_str(text)?;
    Ok(())
}

/// One deeper. Lines that deep are never written where this number is too great, since they would not fit in memory.
pub(crate) fn deeper(n: usize) -> Result<usize, NoMemory>
    ensures { IfOk result (λ m. m ≡ suc n) }
{
    match n.checked_add(1) {
        Some(m) => Ok(m),
        None => Err(NoMemory),
    }
}

/// Ends a line, and begins a further one, four spaces deep for each enclosing block.
#[tactic(auto, using(crate::proofs::Joins::repeat_step, crate::proofs::Joins::line_ended))]
pub(crate) fn write_new_line(out: &mut String, n: usize) -> Result<(), NoMemory>
    ensures { OnOk result (string_bytes out.new ≡ string_bytes out.old ++ text_of (new_line n)) }
{
    out.push_str("\n")?;
    for _ in 0..n {
        out.push_str("    ")?;
    }
    Ok(())
}

/// A further line, and what it begins with.
pub(crate) fn write_line(out: &mut String, n: usize, text: &str) -> Result<(), NoMemory>
    ensures { OnOk result (string_bytes out.new ≡ string_bytes out.old ++ text_of (new_line n) ++ text.now) }
{
    write_new_line(out, n)?;
    put(out, text)
}

/// What stands before a member of a list, where there is an earlier one or not.
pub(crate) fn comma_text(some: bool) -> &'static str
    ensures { result.now ≡ spec.comma_text some }
{
    if some { ", " } else { "" }
}

pub(crate) fn truth_text(value: bool) -> &'static str
    ensures { result.now ≡ text_of (layout.truth_pieces value) }
{
    if value { "true" } else { "false" }
}

pub(crate) fn kind_text(kind: VarKind) -> &'static str
    ensures { result.now ≡ text_of (layout.kind_pieces kind) }
{
    match kind {
        VarKind::Const => "const",
        VarKind::Let => "let",
    }
}

pub(crate) fn key_text(key: &Key) -> &str
    ensures { result.now ≡ text_of (layout.key_pieces key.now) }
{
    match key {
        Key::Word(name) => name.as_str(),
        Key::String(spelled) => spelled.as_str(),
    }
}

pub(crate) fn binary_text(operator: BinaryOperator) -> &'static str
    ensures { result.now ≡ mark_text (layout.binary_mark operator) }
{
    match operator {
        BinaryOperator::Or => "||",
        BinaryOperator::Nullish => "??",
        BinaryOperator::And => "&&",
        BinaryOperator::Same => "===",
        BinaryOperator::NotSame => "!==",
        BinaryOperator::Less => "<",
        BinaryOperator::Greater => ">",
        BinaryOperator::LessEqual => "<=",
        BinaryOperator::GreaterEqual => ">=",
        BinaryOperator::Plus => "+",
        BinaryOperator::Minus => "-",
        BinaryOperator::Times => "*",
        BinaryOperator::Divided => "/",
        BinaryOperator::Remainder => "%",
    }
}

pub(crate) fn assign_text(operator: AssignOperator) -> &'static str
    ensures { result.now ≡ mark_text (layout.assign_mark operator) }
{
    match operator {
        AssignOperator::Assign => "=",
        AssignOperator::Plus => "+=",
        AssignOperator::Minus => "-=",
        AssignOperator::Times => "*=",
        AssignOperator::Divided => "/=",
        AssignOperator::Remainder => "%=",
    }
}
