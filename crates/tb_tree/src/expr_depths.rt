//! How deep an expression and a statement are.

ghost use Rattle.std.specs.Prelude.{◌≡◌};
ghost use Rattle.tb_tree.specs.Depth as spec;

use crate::exprs::{
    ArrowBody, Block, BlockItem, Clause, Declarator, Expr, ForStart, Function, Param, Prop, Stmt,
    TemplateSpan, Var,
};
use crate::numbers::{deeper, larger};
use crate::type_depths::{type_depth, types_depth};
use crate::types::TypeExpr;
use sqlite_items::Boxed;

pub(crate) fn annotation_depth(annotation: &Option<TypeExpr>) -> u32
    ensures { result ≡ spec.capped (spec.annotation_depth annotation.now) }
{
    match annotation {
        Some(shape) => type_depth(shape),
        None => 0,
    }
}

#[cycle(depths)]
#[tactic(auto, using(crate::proofs::Layers::expr_out, crate::proofs::Layers::template_expr, crate::proofs::Layers::parens_expr, crate::proofs::Layers::array_expr, crate::proofs::Layers::object_expr, crate::proofs::Layers::new_expr, crate::proofs::Layers::member_expr, crate::proofs::Layers::index_expr, crate::proofs::Layers::call_expr, crate::proofs::Layers::unary_expr, crate::proofs::Layers::update_expr, crate::proofs::Layers::binary_expr, crate::proofs::Layers::as_expr, crate::proofs::Layers::conditional_expr, crate::proofs::Layers::assign_expr, crate::proofs::Layers::arrow_expr))]
fn expr_depth(expr: &Expr) -> u32
    ensures { result ≡ spec.capped (spec.expr_depth expr.now) }
{
    match expr {
        Expr::Template { spans, .. } => deeper(spans_depth(spans.as_slice())),
        Expr::Parens { inner, .. } => deeper(expr_depth(inner.get())),
        Expr::Array { elements, .. } => deeper(exprs_depth(elements.as_slice())),
        Expr::Object { props, .. } => deeper(props_depth(props.as_slice())),
        Expr::New { arguments, .. } => deeper(exprs_depth(arguments.as_slice())),
        Expr::Member { base, .. } => deeper(expr_depth(base.get())),
        Expr::Index { base, index, .. } => deeper(larger(
            expr_depth(base.get()),
            expr_depth(index.get()),
        )),
        Expr::Call {
            callee,
            type_arguments,
            arguments,
            ..
        } => deeper(larger(
            expr_depth(callee.get()),
            larger(
                types_depth(type_arguments.as_slice()),
                exprs_depth(arguments.as_slice()),
            ),
        )),
        Expr::Unary { operand, .. } => deeper(expr_depth(operand.get())),
        Expr::Update { target, .. } => deeper(expr_depth(target.get())),
        Expr::Binary { left, right, .. } => deeper(larger(
            expr_depth(left.get()),
            expr_depth(right.get()),
        )),
        Expr::As { value, shape, .. } => deeper(larger(expr_depth(value.get()), type_depth(shape))),
        Expr::Conditional {
            condition,
            then,
            otherwise,
            ..
        } => deeper(larger(
            expr_depth(condition.get()),
            larger(expr_depth(then.get()), expr_depth(otherwise.get())),
        )),
        Expr::Assign { target, value, .. } => deeper(larger(
            expr_depth(target.get()),
            expr_depth(value.get()),
        )),
        Expr::Arrow {
            params,
            result,
            body,
            ..
        } => deeper(larger(
            params_depth(params.as_slice()),
            larger(annotation_depth(result), arrow_body_depth(body)),
        )),
        _ => 1,
    }
}

/// The same of an expression that is in no box.
pub(crate) fn value_depth(value: &Option<Expr>) -> u32
    ensures { result ≡ spec.capped (spec.optional_depth value.now) }
{
    match value {
        Some(expr) => expr_depth(expr),
        None => 0,
    }
}

#[cycle(depths)]
fn optional_depth(expr: &Option<Boxed<Expr>>) -> u32
    ensures { result ≡ spec.capped (spec.optional_depth expr.now) }
{
    match expr {
        Some(expr) => expr_depth(expr.get()),
        None => 0,
    }
}

#[cycle(depths)]
fn exprs_depth(exprs: &[Expr]) -> u32
    ensures { result ≡ spec.capped (spec.exprs_depth exprs.now) }
{
    let mut depth = 0;
    for expr in exprs {
        depth = larger(depth, expr_depth(expr));
    }
    depth
}

#[cycle(depths)]
#[tactic(auto, using(crate::proofs::Layers::span_out))]
fn span_depth(span: &TemplateSpan) -> u32
    ensures { result ≡ spec.capped (spec.span_depth span.now) }
{
    expr_depth(span.value.get())
}

#[cycle(depths)]
fn spans_depth(spans: &[TemplateSpan]) -> u32
    ensures { result ≡ spec.capped (spec.spans_depth spans.now) }
{
    let mut depth = 0;
    for span in spans {
        depth = larger(depth, span_depth(span));
    }
    depth
}

#[cycle(depths)]
#[tactic(auto, using(crate::proofs::Layers::valued_prop, crate::proofs::Layers::short_prop))]
fn prop_depth(prop: &Prop) -> u32
    ensures { result ≡ spec.capped (spec.prop_depth prop.now) }
{
    match prop {
        Prop::Valued { value, .. } => expr_depth(value.get()),
        Prop::Short { .. } => 0,
    }
}

#[cycle(depths)]
fn props_depth(props: &[Prop]) -> u32
    ensures { result ≡ spec.capped (spec.props_depth props.now) }
{
    let mut depth = 0;
    for prop in props {
        depth = larger(depth, prop_depth(prop));
    }
    depth
}

#[cycle(depths)]
#[tactic(auto, using(crate::proofs::Layers::param_out))]
fn param_depth(param: &Param) -> u32
    ensures { result ≡ spec.capped (spec.param_depth param.now) }
{
    larger(
        annotation_depth(&param.annotation),
        optional_depth(&param.value),
    )
}

#[cycle(depths)]
pub(crate) fn params_depth(params: &[Param]) -> u32
    ensures { result ≡ spec.capped (spec.params_depth params.now) }
{
    let mut depth = 0;
    for param in params {
        depth = larger(depth, param_depth(param));
    }
    depth
}

#[cycle(depths)]
#[tactic(auto, using(crate::proofs::Layers::block_arrow_body, crate::proofs::Layers::expr_arrow_body))]
fn arrow_body_depth(body: &ArrowBody) -> u32
    ensures { result ≡ spec.capped (spec.arrow_body_depth body.now) }
{
    match body {
        ArrowBody::Block(block) => block_depth(block.get()),
        ArrowBody::Expr(expr) => expr_depth(expr.get()),
    }
}

#[cycle(depths)]
#[tactic(auto, using(crate::proofs::Layers::block_out))]
pub(crate) fn block_depth(block: &Block) -> u32
    ensures { result ≡ spec.capped (spec.block_depth block.now) }
{
    deeper(block_items_depth(block.items.as_slice()))
}

#[cycle(depths)]
#[tactic(auto, using(crate::proofs::Layers::var_block_item, crate::proofs::Layers::function_block_item, crate::proofs::Layers::stmt_block_item))]
fn block_item_depth(item: &BlockItem) -> u32
    ensures { result ≡ spec.capped (spec.block_item_depth item.now) }
{
    match item {
        BlockItem::Var(var) => var_depth(var.get()),
        BlockItem::Function(function) => function_depth(function.get()),
        BlockItem::Stmt(stmt) => stmt_depth(stmt.get()),
    }
}

#[cycle(depths)]
fn block_items_depth(items: &[BlockItem]) -> u32
    ensures { result ≡ spec.capped (spec.block_items_depth items.now) }
{
    let mut depth = 0;
    for item in items {
        depth = larger(depth, block_item_depth(item));
    }
    depth
}

#[cycle(depths)]
#[tactic(auto, using(crate::proofs::Layers::var_out))]
pub(crate) fn var_depth(var: &Var) -> u32
    ensures { result ≡ spec.capped (spec.var_depth var.now) }
{
    declarators_depth(var.declarators.as_slice())
}

#[cycle(depths)]
#[tactic(auto, using(crate::proofs::Layers::declarator_out))]
fn declarator_depth(declarator: &Declarator) -> u32
    ensures { result ≡ spec.capped (spec.declarator_depth declarator.now) }
{
    larger(
        annotation_depth(&declarator.annotation),
        optional_depth(&declarator.value),
    )
}

#[cycle(depths)]
fn declarators_depth(declarators: &[Declarator]) -> u32
    ensures { result ≡ spec.capped (spec.declarators_depth declarators.now) }
{
    let mut depth = 0;
    for declarator in declarators {
        depth = larger(depth, declarator_depth(declarator));
    }
    depth
}

#[cycle(depths)]
#[tactic(auto, using(crate::proofs::Layers::function_out))]
pub(crate) fn function_depth(function: &Function) -> u32
    ensures { result ≡ spec.capped (spec.function_depth function.now) }
{
    larger(
        params_depth(function.params.as_slice()),
        larger(
            annotation_depth(&function.result),
            block_depth(function.body.get()),
        ),
    )
}

#[cycle(depths)]
#[tactic(auto, using(crate::proofs::Layers::block_stmt, crate::proofs::Layers::if_stmt, crate::proofs::Layers::while_stmt, crate::proofs::Layers::do_stmt, crate::proofs::Layers::for_stmt, crate::proofs::Layers::for_of_stmt, crate::proofs::Layers::return_stmt, crate::proofs::Layers::break_stmt, crate::proofs::Layers::continue_stmt, crate::proofs::Layers::throw_stmt, crate::proofs::Layers::switch_stmt, crate::proofs::Layers::expr_stmt, crate::proofs::Layers::empty_stmt))]
pub(crate) fn stmt_depth(stmt: &Stmt) -> u32
    ensures { result ≡ spec.capped (spec.stmt_depth stmt.now) }
{
    match stmt {
        Stmt::Block(block) => block_depth(block.get()),
        Stmt::If {
            condition,
            then,
            otherwise,
            ..
        } => deeper(larger(
            expr_depth(condition.get()),
            larger(stmt_depth(then.get()), otherwise_depth(otherwise)),
        )),
        Stmt::While {
            condition,
            body,
            ..
        } => deeper(larger(expr_depth(condition.get()), stmt_depth(body.get()))),
        Stmt::Do {
            body,
            condition,
            ..
        } => deeper(larger(stmt_depth(body.get()), expr_depth(condition.get()))),
        Stmt::For {
            start,
            condition,
            update,
            body,
            ..
        } => deeper(larger(
            start_depth(start),
            larger(
                optional_depth(condition),
                larger(optional_depth(update), stmt_depth(body.get())),
            ),
        )),
        Stmt::ForOf { subject, body, .. } => deeper(larger(
            expr_depth(subject.get()),
            stmt_depth(body.get()),
        )),
        Stmt::Return { value, .. } => optional_depth(value),
        Stmt::Break { .. } => 0,
        Stmt::Continue { .. } => 0,
        Stmt::Throw { value, .. } => expr_depth(value.get()),
        Stmt::Switch {
            subject,
            clauses,
            ..
        } => deeper(larger(expr_depth(subject.get()), clauses_depth(clauses.as_slice()))),
        Stmt::Expr { value, .. } => expr_depth(value.get()),
        Stmt::Empty { .. } => 0,
    }
}

#[cycle(depths)]
fn otherwise_depth(otherwise: &Option<Boxed<Stmt>>) -> u32
    ensures { result ≡ spec.capped (spec.otherwise_depth otherwise.now) }
{
    match otherwise {
        Some(stmt) => stmt_depth(stmt.get()),
        None => 0,
    }
}

#[cycle(depths)]
#[tactic(auto, using(crate::proofs::Layers::var_start, crate::proofs::Layers::expr_start, crate::proofs::Layers::nothing_start))]
fn start_depth(start: &ForStart) -> u32
    ensures { result ≡ spec.capped (spec.start_depth start.now) }
{
    match start {
        ForStart::Var(var) => var_depth(var.get()),
        ForStart::Expr(expr) => expr_depth(expr.get()),
        ForStart::Nothing => 0,
    }
}

#[cycle(depths)]
#[tactic(auto, using(crate::proofs::Layers::case_clause, crate::proofs::Layers::default_clause))]
fn clause_depth(clause: &Clause) -> u32
    ensures { result ≡ spec.capped (spec.clause_depth clause.now) }
{
    match clause {
        Clause::Case { value, items, .. } => larger(
            expr_depth(value.get()),
            block_items_depth(items.as_slice()),
        ),
        Clause::Default { items, .. } => block_items_depth(items.as_slice()),
    }
}

#[cycle(depths)]
fn clauses_depth(clauses: &[Clause]) -> u32
    ensures { result ≡ spec.capped (spec.clauses_depth clauses.now) }
{
    let mut depth = 0;
    for clause in clauses {
        depth = larger(depth, clause_depth(clause));
    }
    depth
}
