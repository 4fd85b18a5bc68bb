//! Expressions and statements are written in one walk over their trees: types are passed over, and no erased tree is made.

ghost use Rattle.std.specs.Prelude.{◌≡◌, ◌++◌, IfOk, OnOk, flat_map, string_bytes, map};
ghost use Rattle.tb_layout.specs.Js as layout;
ghost use Rattle.tb_layout.specs.Pieces.{text_of};
ghost use Rattle.tb_layout.proofs.Written as written;
ghost use Rattle.tb_emit_js.specs.Lines as spec;

use crate::signs::{before_text, behind_text, first_sign, prefix_text};
use crate::texts::{
    assign_text, binary_text, comma_text, deeper, key_text, kind_text, put, truth_text, write_line,
    write_new_line,
};
use sqlite_items::Boxed;
use tb_text::NoMemory;
use tb_tree::{
    ArrowBody, Block, BlockItem, Clause, Declarator, Expr, ForStart, Function, Param, Prop, Stmt,
    TemplateSpan, Var,
};

/// An expression whose line is `n` deep.
#[cycle(writing)]
#[tactic(auto, using(crate::proofs::Joins::assoc, crate::proofs::Forms::name_expr_text, crate::proofs::Forms::this_expr_text, crate::proofs::Forms::null_expr_text, crate::proofs::Forms::undefined_expr_text, crate::proofs::Forms::boolean_expr_text, crate::proofs::Forms::number_expr_text, crate::proofs::Forms::string_expr_text, crate::proofs::Forms::parens_expr_text, crate::proofs::Forms::array_expr_text, crate::proofs::Forms::object_expr_text, crate::proofs::Forms::new_expr_text, crate::proofs::Forms::member_expr_text, crate::proofs::Forms::index_expr_text, crate::proofs::Forms::call_expr_text, crate::proofs::Forms::update_expr_text, crate::proofs::Forms::binary_expr_text, crate::proofs::Forms::as_expr_text, crate::proofs::Forms::conditional_expr_text, crate::proofs::Forms::assign_expr_text, crate::proofs::Forms::arrow_expr_text, crate::proofs::Forms::template_expr_text, crate::proofs::Joins::object_none, crate::proofs::Joins::object_some, crate::proofs::Prefixes::unary_text))]
pub(crate) fn write_expr(out: &mut String, of: &Expr, n: usize) -> Result<(), NoMemory>
    ensures { OnOk result (string_bytes out.new ≡ string_bytes out.old ++ text_of (written.js_expr of.now n)) }
{
    match of {
        Expr::Name { name, .. } => put(out, name.as_str()),
        Expr::This { .. } => put(out, "this"),
        Expr::Null { .. } => put(out, "null"),
        Expr::Undefined { .. } => put(out, "undefined"),
        Expr::Boolean { value, .. } => put(out, truth_text(*value)),
        Expr::Number { spelled, .. } => put(out, spelled.as_str()),
        Expr::String { spelled, .. } => put(out, spelled.as_str()),
        Expr::Template { head, spans, .. } => {
            put(out, head.as_str())?;
            write_spans(out, spans.as_slice(), n)?;
            Ok(())
        }
        Expr::Parens { inner, .. } => {
            put(out, "(")?;
            write_expr(out, inner.get(), n)?;
            put(out, ")")?;
            Ok(())
        }
        Expr::Array { elements, .. } => {
            put(out, "[")?;
            write_exprs(out, elements.as_slice(), n)?;
            put(out, "]")?;
            Ok(())
        }
        Expr::Object { props, .. } => {
            if props.is_empty() {
                return put(out, "{}");
            }
            put(out, "{ ")?;
            write_props(out, props.as_slice(), n)?;
            put(out, " }")?;
            Ok(())
        }
        Expr::New {
            class,
            arguments,
            ..
        } => {
            put(out, "new ")?;
            put(out, class.name.as_str())?;
            put(out, "(")?;
            write_exprs(out, arguments.as_slice(), n)?;
            put(out, ")")?;
            Ok(())
        }
        Expr::Member { base, member, .. } => {
            write_expr(out, base.get(), n)?;
            put(out, ".")?;
            put(out, member.as_str())?;
            Ok(())
        }
        Expr::Index { base, index, .. } => {
            write_expr(out, base.get(), n)?;
            put(out, "[")?;
            write_expr(out, index.get(), n)?;
            put(out, "]")?;
            Ok(())
        }
        Expr::Call {
            callee,
            arguments,
            ..
        } => {
            write_expr(out, callee.get(), n)?;
            put(out, "(")?;
            write_exprs(out, arguments.as_slice(), n)?;
            put(out, ")")?;
            Ok(())
        }
        Expr::Unary {
            operator,
            operand,
            ..
        } => {
            put(out, prefix_text(*operator, first_sign(operand.get())))?;
            write_expr(out, operand.get(), n)?;
            Ok(())
        }
        Expr::Update {
            operator,
            before,
            target,
            ..
        } => {
            put(out, before_text(*operator, *before))?;
            write_expr(out, target.get(), n)?;
            put(out, behind_text(*operator, *before))?;
            Ok(())
        }
        Expr::Binary {
            left,
            operator,
            right,
            ..
        } => {
            write_expr(out, left.get(), n)?;
            put(out, " ")?;
            put(out, binary_text(*operator))?;
            put(out, " ")?;
            write_expr(out, right.get(), n)?;
            Ok(())
        }
        Expr::As { value, .. } => write_expr(out, value.get(), n),
        Expr::Conditional {
            condition,
            then,
            otherwise,
            ..
        } => {
            write_expr(out, condition.get(), n)?;
            put(out, " ? ")?;
            write_expr(out, then.get(), n)?;
            put(out, " : ")?;
            write_expr(out, otherwise.get(), n)?;
            Ok(())
        }
        Expr::Assign {
            target,
            operator,
            value,
            ..
        } => {
            write_expr(out, target.get(), n)?;
            put(out, " ")?;
            put(out, assign_text(*operator))?;
            put(out, " ")?;
            write_expr(out, value.get(), n)?;
            Ok(())
        }
        Expr::Arrow { params, body, .. } => {
            put(out, "(")?;
            write_params(out, params.as_slice(), n)?;
            put(out, ") => ")?;
            write_arrow_body(out, body, n)?;
            Ok(())
        }
    }
}

/// Expressions with commas between.
#[cycle(writing)]
#[tactic(auto, using(crate::proofs::Joins::assoc, crate::proofs::Joins::list_text))]
fn write_exprs(out: &mut String, all: &[Expr], n: usize) -> Result<(), NoMemory>
    ensures { OnOk result (string_bytes out.new
        ≡ string_bytes out.old ++ text_of (layout.laid_list n (map written.js_expr all.now))) }
{
    let mut some = false;
    for expr in all {
        put(out, comma_text(some))?;
        write_expr(out, expr, n)?;
        some = true;
    }
    Ok(())
}

#[cycle(writing)]
#[tactic(auto, using(crate::proofs::Joins::assoc, crate::proofs::Forms::span_text_out))]
fn write_span(out: &mut String, of: &TemplateSpan, n: usize) -> Result<(), NoMemory>
    ensures { OnOk result (string_bytes out.new ≡ string_bytes out.old ++ spec.span_text (written.js_span of.now n)) }
{
    write_expr(out, of.value.get(), n)?;
    put(out, of.text.as_str())?;
    Ok(())
}

#[cycle(writing)]
#[tactic(auto, using(crate::proofs::Joins::assoc))]
fn write_spans(out: &mut String, all: &[TemplateSpan], n: usize) -> Result<(), NoMemory>
    ensures { OnOk result (string_bytes out.new
        ≡ string_bytes out.old ++ flat_map (λ of. spec.span_text (written.js_span of n)) all.now) }
{
    for span in all {
        write_span(out, span, n)?;
    }
    Ok(())
}

#[cycle(writing)]
#[tactic(auto, using(crate::proofs::Joins::assoc, crate::proofs::Forms::valued_prop_text, crate::proofs::Forms::short_prop_text))]
fn write_prop(out: &mut String, of: &Prop, n: usize) -> Result<(), NoMemory>
    ensures { OnOk result (string_bytes out.new ≡ string_bytes out.old ++ text_of (written.js_prop of.now n)) }
{
    match of {
        Prop::Valued { key, value, .. } => {
            put(out, key_text(key))?;
            put(out, ": ")?;
            write_expr(out, value.get(), n)?;
            Ok(())
        }
        Prop::Short { name, .. } => put(out, name.as_str()),
    }
}

/// Properties with commas between.
#[cycle(writing)]
#[tactic(auto, using(crate::proofs::Joins::assoc, crate::proofs::Joins::list_text))]
fn write_props(out: &mut String, all: &[Prop], n: usize) -> Result<(), NoMemory>
    ensures { OnOk result (string_bytes out.new
        ≡ string_bytes out.old ++ text_of (layout.laid_list n (map written.js_prop all.now))) }
{
    let mut some = false;
    for prop in all {
        put(out, comma_text(some))?;
        write_prop(out, prop, n)?;
        some = true;
    }
    Ok(())
}

#[cycle(writing)]
#[tactic(auto, using(crate::proofs::Joins::assoc, crate::proofs::Forms::param_text))]
fn write_param(out: &mut String, of: &Param, n: usize) -> Result<(), NoMemory>
    ensures { OnOk result (string_bytes out.new ≡ string_bytes out.old ++ text_of (written.js_param of.now n)) }
{
    put(out, of.name.as_str())?;
    write_value(out, &of.value, n)?;
    Ok(())
}

/// Parameters with commas between.
#[cycle(writing)]
#[tactic(auto, using(crate::proofs::Joins::assoc, crate::proofs::Joins::list_text))]
pub(crate) fn write_params(out: &mut String, all: &[Param], n: usize) -> Result<(), NoMemory>
    ensures { OnOk result (string_bytes out.new
        ≡ string_bytes out.old ++ text_of (layout.laid_list n (map written.js_param all.now))) }
{
    let mut some = false;
    for param in all {
        put(out, comma_text(some))?;
        write_param(out, param, n)?;
        some = true;
    }
    Ok(())
}

/// ` = ` and a value, or nothing.
#[cycle(writing)]
#[tactic(auto, using(crate::proofs::Joins::assoc, crate::proofs::Bodies::value_some))]
pub(crate) fn write_value(
    out: &mut String,
    of: &Option<Boxed<Expr>>,
    n: usize,
) -> Result<(), NoMemory>
    ensures { OnOk result (string_bytes out.new
        ≡ string_bytes out.old ++ text_of (layout.value_pieces n (written.js_optional of.now))) }
{
    match of {
        Some(value) => {
            put(out, " = ")?;
            write_expr(out, value.get(), n)?;
            Ok(())
        }
        None => Ok(()),
    }
}

#[cycle(writing)]
#[tactic(auto, using(crate::proofs::Joins::assoc, crate::proofs::Forms::block_arrow_body_text, crate::proofs::Forms::expr_arrow_body_text))]
fn write_arrow_body(out: &mut String, of: &ArrowBody, n: usize) -> Result<(), NoMemory>
    ensures { OnOk result (string_bytes out.new ≡ string_bytes out.old ++ text_of (written.js_arrow_body of.now n)) }
{
    match of {
        ArrowBody::Block(block) => write_block(out, block.get(), n),
        ArrowBody::Expr(expr) => write_expr(out, expr.get(), n),
    }
}

#[cycle(writing)]
#[tactic(auto, using(crate::proofs::Joins::assoc, crate::proofs::Bodies::block_none, crate::proofs::Bodies::block_some))]
pub(crate) fn write_block(out: &mut String, of: &Block, n: usize) -> Result<(), NoMemory>
    ensures { OnOk result (string_bytes out.new ≡ string_bytes out.old ++ text_of (written.js_block of.now n)) }
{
    if of.items.is_empty() {
        return put(out, "{ }");
    }
    put(out, "{")?;
    write_lines(out, of.items.as_slice(), n)?;
    write_line(out, n, "}")?;
    Ok(())
}

/// Items on lines that are one deeper than `n`.
#[cycle(writing)]
#[tactic(auto, using(crate::proofs::Joins::assoc, crate::proofs::Joins::lines_step))]
fn write_lines(out: &mut String, all: &[BlockItem], n: usize) -> Result<(), NoMemory>
    ensures { OnOk result (string_bytes out.new
        ≡ string_bytes out.old ++ text_of (layout.lines n (map written.js_block_item all.now))) }
{
    let at = deeper(n)?;
    for item in all {
        write_new_line(out, at)?;
        write_block_item(out, item, at)?;
    }
    Ok(())
}

#[cycle(writing)]
#[tactic(auto, using(crate::proofs::Joins::assoc, crate::proofs::Forms::var_block_item_text, crate::proofs::Forms::function_block_item_text, crate::proofs::Forms::stmt_block_item_text))]
fn write_block_item(out: &mut String, of: &BlockItem, n: usize) -> Result<(), NoMemory>
    ensures { OnOk result (string_bytes out.new ≡ string_bytes out.old ++ text_of (written.js_block_item of.now n)) }
{
    match of {
        BlockItem::Var(var) => write_var(out, var.get(), n),
        BlockItem::Function(function) => write_function(out, function.get(), n),
        BlockItem::Stmt(stmt) => write_stmt(out, stmt.get(), n),
    }
}

#[cycle(writing)]
#[tactic(auto, using(crate::proofs::Joins::assoc, crate::proofs::Forms::var_text))]
pub(crate) fn write_var(out: &mut String, of: &Var, n: usize) -> Result<(), NoMemory>
    ensures { OnOk result (string_bytes out.new ≡ string_bytes out.old ++ text_of (written.js_var of.now n)) }
{
    put(out, kind_text(of.kind))?;
    put(out, " ")?;
    write_declarators(out, of.declarators.as_slice(), n)?;
    put(out, ";")?;
    Ok(())
}

/// Declarators with commas between.
#[cycle(writing)]
#[tactic(auto, using(crate::proofs::Joins::assoc, crate::proofs::Joins::list_text))]
fn write_declarators(out: &mut String, all: &[Declarator], n: usize) -> Result<(), NoMemory>
    ensures { OnOk result (string_bytes out.new
        ≡ string_bytes out.old ++ text_of (layout.laid_list n (map written.js_declarator all.now))) }
{
    let mut some = false;
    for declarator in all {
        put(out, comma_text(some))?;
        write_declarator(out, declarator, n)?;
        some = true;
    }
    Ok(())
}

#[cycle(writing)]
#[tactic(auto, using(crate::proofs::Joins::assoc, crate::proofs::Forms::declarator_text))]
fn write_declarator(out: &mut String, of: &Declarator, n: usize) -> Result<(), NoMemory>
    ensures { OnOk result (string_bytes out.new ≡ string_bytes out.old ++ text_of (written.js_declarator of.now n)) }
{
    put(out, of.name.as_str())?;
    write_value(out, &of.value, n)?;
    Ok(())
}

#[cycle(writing)]
#[tactic(auto, using(crate::proofs::Joins::assoc, crate::proofs::Forms::function_text))]
pub(crate) fn write_function(out: &mut String, of: &Function, n: usize) -> Result<(), NoMemory>
    ensures { OnOk result (string_bytes out.new ≡ string_bytes out.old ++ text_of (written.js_function of.now n)) }
{
    put(out, "function ")?;
    put(out, of.name.as_str())?;
    put(out, "(")?;
    write_params(out, of.params.as_slice(), n)?;
    put(out, ") ")?;
    write_block(out, of.body.get(), n)?;
    Ok(())
}

/// A statement that begins on a line `n` deep.
#[cycle(writing)]
#[tactic(auto, using(crate::proofs::Joins::assoc, crate::proofs::Forms::block_stmt_lines_text, crate::proofs::Forms::if_stmt_lines_text, crate::proofs::Forms::while_stmt_lines_text, crate::proofs::Forms::do_stmt_lines_text, crate::proofs::Forms::for_stmt_lines_text, crate::proofs::Forms::for_of_stmt_lines_text, crate::proofs::Forms::return_stmt_lines_text, crate::proofs::Forms::break_stmt_lines_text, crate::proofs::Forms::continue_stmt_lines_text, crate::proofs::Forms::throw_stmt_lines_text, crate::proofs::Forms::switch_stmt_lines_text, crate::proofs::Forms::expr_stmt_lines_text, crate::proofs::Forms::empty_stmt_lines_text))]
pub(crate) fn write_stmt(out: &mut String, of: &Stmt, n: usize) -> Result<(), NoMemory>
    ensures { OnOk result (string_bytes out.new ≡ string_bytes out.old ++ text_of (written.js_lines of.now n)) }
{
    match of {
        Stmt::Block(block) => write_block(out, block.get(), n),
        Stmt::If {
            condition,
            then,
            otherwise,
            ..
        } => {
            put(out, "if (")?;
            write_expr(out, condition.get(), n)?;
            put(out, ")")?;
            let at = begin_body(out, then.get(), n)?;
            write_stmt(out, then.get(), at)?;
            write_else(out, otherwise, n)?;
            Ok(())
        }
        Stmt::While {
            condition,
            body,
            ..
        } => {
            put(out, "while (")?;
            write_expr(out, condition.get(), n)?;
            put(out, ")")?;
            let at = begin_body(out, body.get(), n)?;
            write_stmt(out, body.get(), at)?;
            Ok(())
        }
        Stmt::Do {
            body,
            condition,
            ..
        } => {
            put(out, "do")?;
            let at = begin_body(out, body.get(), n)?;
            write_stmt(out, body.get(), at)?;
            write_line(out, n, "while (")?;
            write_expr(out, condition.get(), n)?;
            put(out, ");")?;
            Ok(())
        }
        Stmt::For {
            start,
            condition,
            update,
            body,
            ..
        } => {
            put(out, "for (")?;
            write_start(out, start, n)?;
            write_part(out, condition, n)?;
            put(out, ";")?;
            write_part(out, update, n)?;
            put(out, ")")?;
            let at = begin_body(out, body.get(), n)?;
            write_stmt(out, body.get(), at)?;
            Ok(())
        }
        Stmt::ForOf {
            kind,
            element,
            subject,
            body,
            ..
        } => {
            put(out, "for (")?;
            put(out, kind_text(*kind))?;
            put(out, " ")?;
            put(out, element.name.as_str())?;
            put(out, " of ")?;
            write_expr(out, subject.get(), n)?;
            put(out, ")")?;
            let at = begin_body(out, body.get(), n)?;
            write_stmt(out, body.get(), at)?;
            Ok(())
        }
        Stmt::Return { value, .. } => {
            put(out, "return")?;
            write_part(out, value, n)?;
            put(out, ";")?;
            Ok(())
        }
        Stmt::Break { .. } => put(out, "break;"),
        Stmt::Continue { .. } => put(out, "continue;"),
        Stmt::Throw { value, .. } => {
            put(out, "throw ")?;
            write_expr(out, value.get(), n)?;
            put(out, ";")?;
            Ok(())
        }
        Stmt::Switch {
            subject,
            clauses,
            ..
        } => {
            put(out, "switch (")?;
            write_expr(out, subject.get(), n)?;
            put(out, ") {")?;
            write_clauses(out, clauses.as_slice(), n)?;
            write_line(out, n, "}")?;
            Ok(())
        }
        Stmt::Expr { value, .. } => {
            write_expr(out, value.get(), n)?;
            put(out, ";")?;
            Ok(())
        }
        Stmt::Empty { .. } => put(out, ";"),
    }
}

#[tactic(auto, using(crate::proofs::BlockForms::block_stmt_is, crate::proofs::BlockForms::if_stmt_is, crate::proofs::BlockForms::while_stmt_is, crate::proofs::BlockForms::do_stmt_is, crate::proofs::BlockForms::for_stmt_is, crate::proofs::BlockForms::for_of_stmt_is, crate::proofs::BlockForms::return_stmt_is, crate::proofs::BlockForms::break_stmt_is, crate::proofs::BlockForms::continue_stmt_is, crate::proofs::BlockForms::throw_stmt_is, crate::proofs::BlockForms::switch_stmt_is, crate::proofs::BlockForms::expr_stmt_is, crate::proofs::BlockForms::empty_stmt_is))]
fn is_block(of: &Stmt) -> bool
    ensures { result ≡ spec.is_block (written.js_stmt of.now) }
{
    match of {
        Stmt::Block(_) => true,
        Stmt::If { .. } => false,
        Stmt::While { .. } => false,
        Stmt::Do { .. } => false,
        Stmt::For { .. } => false,
        Stmt::ForOf { .. } => false,
        Stmt::Return { .. } => false,
        Stmt::Break { .. } => false,
        Stmt::Continue { .. } => false,
        Stmt::Throw { .. } => false,
        Stmt::Switch { .. } => false,
        Stmt::Expr { .. } => false,
        Stmt::Empty { .. } => false,
    }
}

/// What stands between the head of a loop or an `if` and its body; gives how deep the body's lines are. A block begins
/// after one space, another statement on a line of its own, one deeper.
#[tactic(auto, using(crate::proofs::Joins::assoc, crate::proofs::Bodies::body_block, crate::proofs::Bodies::body_line))]
fn begin_body(out: &mut String, of: &Stmt, n: usize) -> Result<usize, NoMemory>
    ensures { IfOk result (λ at. string_bytes out.new ++ text_of (written.js_lines of.now at)
        ≡ string_bytes out.old ++ text_of (layout.body_pieces n (written.js_stmt of.now))) }
{
    if is_block(of) {
        put(out, " ")?;
        return Ok(n);
    }
    let at = deeper(n)?;
    write_new_line(out, at)?;
    Ok(at)
}

/// `else` on a line of its own with its body, or nothing.
#[cycle(writing)]
#[tactic(auto, using(crate::proofs::Joins::assoc, crate::proofs::Bodies::else_some))]
fn write_else(out: &mut String, of: &Option<Boxed<Stmt>>, n: usize) -> Result<(), NoMemory>
    ensures { OnOk result (string_bytes out.new
        ≡ string_bytes out.old ++ text_of (layout.else_pieces n (written.js_otherwise of.now))) }
{
    match of {
        Some(stmt) => {
            write_line(out, n, "else")?;
            let at = begin_body(out, stmt.get(), n)?;
            write_stmt(out, stmt.get(), at)?;
            Ok(())
        }
        None => Ok(()),
    }
}

/// What a `for` begins with, up to its semicolon.
#[cycle(writing)]
#[tactic(auto, using(crate::proofs::Joins::assoc, crate::proofs::Forms::var_start_text, crate::proofs::Forms::expr_start_text, crate::proofs::Forms::nothing_start_text))]
fn write_start(out: &mut String, of: &ForStart, n: usize) -> Result<(), NoMemory>
    ensures { OnOk result (string_bytes out.new ≡ string_bytes out.old ++ text_of (written.js_start of.now n)) }
{
    match of {
        ForStart::Var(var) => write_var(out, var.get(), n),
        ForStart::Expr(expr) => {
            write_expr(out, expr.get(), n)?;
            put(out, ";")?;
            Ok(())
        }
        ForStart::Nothing => put(out, ";"),
    }
}

/// An expression after a space, or nothing.
#[cycle(writing)]
#[tactic(auto, using(crate::proofs::Joins::assoc, crate::proofs::Bodies::part_some))]
fn write_part(out: &mut String, of: &Option<Boxed<Expr>>, n: usize) -> Result<(), NoMemory>
    ensures { OnOk result (string_bytes out.new
        ≡ string_bytes out.old ++ text_of (layout.part_pieces n (written.js_optional of.now))) }
{
    match of {
        Some(expr) => {
            put(out, " ")?;
            write_expr(out, expr.get(), n)?;
            Ok(())
        }
        None => Ok(()),
    }
}

/// Clauses on lines that are one deeper than `n`.
#[cycle(writing)]
#[tactic(auto, using(crate::proofs::Joins::assoc, crate::proofs::Joins::lines_step))]
fn write_clauses(out: &mut String, all: &[Clause], n: usize) -> Result<(), NoMemory>
    ensures { OnOk result (string_bytes out.new
        ≡ string_bytes out.old ++ text_of (layout.lines n (map written.js_clause all.now))) }
{
    let at = deeper(n)?;
    for clause in all {
        write_new_line(out, at)?;
        write_clause(out, clause, at)?;
    }
    Ok(())
}

#[cycle(writing)]
#[tactic(auto, using(crate::proofs::Joins::assoc, crate::proofs::Forms::case_clause_text, crate::proofs::Forms::default_clause_text))]
fn write_clause(out: &mut String, of: &Clause, n: usize) -> Result<(), NoMemory>
    ensures { OnOk result (string_bytes out.new ≡ string_bytes out.old ++ text_of (written.js_clause of.now n)) }
{
    match of {
        Clause::Case { value, items, .. } => {
            put(out, "case ")?;
            write_expr(out, value.get(), n)?;
            put(out, ":")?;
            write_lines(out, items.as_slice(), n)?;
            Ok(())
        }
        Clause::Default { items, .. } => {
            put(out, "default:")?;
            write_lines(out, items.as_slice(), n)?;
            Ok(())
        }
    }
}
