//! Where a file lacks annotations: one walk over the whole tree, in the order of the source.

ghost use Rattle.std.specs.Prelude.{◌≡◌, ◌++◌, ◌∷◌, [], flat_map, option_map, List as Members, ℕ, IfOk, OnOk};
ghost use Rattle.tb_layout.specs.Parts.{listed_names};
ghost use Rattle.tb_layout.specs.Annotations as spec;
ghost use Rattle.tb_surface.specs.Lacks as lack;
ghost use Rattle.tb_surface.specs.Literals.{seen};
ghost use Rattle.tb_surface.specs.Names.{HasNames};

use crate::known::{is_kept, listed_names};
use crate::literals::{Literal, boxed_literal, literal_in};
use sqlite_items::Boxed;
use std::alloc::Global;
use std::collections::BTreeSet;
use tb_text::{Code, Finding, List, Name, NoMemory};
use tb_tree::{
    ArrowBody, Block, BlockItem, ClassMember, Clause, Declaration, Declarator, Expr, File,
    ForStart, Function, Item, Param, Prop, Stmt, TemplateSpan, TypeExpr, Var,
};

/// A kept variable or a field has neither an annotation nor a literal as its value.
pub const NO_VALUE_TYPE: u16 = 9001;

/// A function or a method has no type of its result.
pub const NO_RESULT_TYPE: u16 = 9002;

/// A parameter of a function, a method or a constructor has no type.
pub const NO_PARAM_TYPE: u16 = 9003;

/// What lacks an annotation in a file, in the order of the source.
pub fn annotation_findings(alloc: Global, file: &File) -> Result<List<Finding>, NoMemory>
    ensures { IfOk result (λ found. found ≡ spec.annotation_findings file.now) }
{
    let listed = listed_names(alloc, file)?;
    let mut found = List::new(alloc);
    find_items(alloc, &mut found, &listed, file.items.as_slice())?;
    Ok(found)
}

fn find_items(
    alloc: Global,
    found: &mut List<Finding>,
    listed: &BTreeSet<Name>,
    all: &[Item],
) -> Result<(), NoMemory>
    ensures { (names : Members (Members ℕ)) → HasNames listed.now names → OnOk result (found.new ≡ found.old ++ flat_map (spec.item_findings names) all.now) }
{
    for item in all {
        find_item(alloc, found, listed, item)?;
    }
    Ok(())
}

fn find(
    alloc: Global,
    found: &mut List<Finding>,
    number: u16,
    at: usize,
    name: &Name,
) -> Result<(), NoMemory>
    ensures { OnOk result (found.new ≡ found.old ++ spec.lacking number at name.now ∷ []) }
{
    let first = name.clone()?;
    found.push(Finding {
        offset: at as u64,
        code: Code { own: true, number },
        first,
        second: Name::from_string(String::new(alloc)),
    })
}

/// Something that has to have a type.
fn find_untyped(
    alloc: Global,
    found: &mut List<Finding>,
    number: u16,
    at: usize,
    name: &Name,
    annotation: &Option<TypeExpr>,
) -> Result<(), NoMemory>
    ensures { OnOk result (found.new ≡ found.old ++ spec.lacking_type number at name.now annotation.now) }
{
    match annotation {
        Some(_) => Ok(()),
        None => find(alloc, found, number, at, name),
    }
}

fn find_item(
    alloc: Global,
    found: &mut List<Finding>,
    listed: &BTreeSet<Name>,
    item: &Item,
) -> Result<(), NoMemory>
    ensures { (names : Members (Members ℕ)) → HasNames listed.now names → OnOk result (found.new ≡ found.old ++ spec.item_findings names item.now) }
{
    match item {
        Item::Import(_) => Ok(()),
        Item::ExportList(_) => Ok(()),
        Item::Declaration {
            exported,
            declaration,
        } => find_declaration(alloc, found, listed, *exported, declaration),
        Item::Stmt(stmt) => find_stmt(alloc, found, stmt),
    }
}

fn find_declaration(
    alloc: Global,
    found: &mut List<Finding>,
    listed: &BTreeSet<Name>,
    exported: bool,
    declaration: &Declaration,
) -> Result<(), NoMemory>
    ensures { (names : Members (Members ℕ)) → HasNames listed.now names → OnOk result (found.new ≡ found.old ++ spec.declaration_findings names exported declaration.now) }
{
    match declaration {
        Declaration::Var(var) => find_variables(alloc, found, listed, exported, var),
        Declaration::Function(function) => find_function(alloc, found, function),
        Declaration::Class(class) => find_members(alloc, found, class.members.as_slice()),
        Declaration::Interface(_) => Ok(()),
        Declaration::Alias(_) => Ok(()),
    }
}

/// Variables at the top level: those that are exported or listed are kept.
fn find_variables(
    alloc: Global,
    found: &mut List<Finding>,
    listed: &BTreeSet<Name>,
    exported: bool,
    var: &Var,
) -> Result<(), NoMemory>
    ensures { (names : Members (Members ℕ)) → HasNames listed.now names → OnOk result (found.new ≡ found.old ++ spec.top_findings names exported var.now) }
{
    for declarator in var.declarators.as_slice() {
        find_variable(alloc, found, listed, exported, declarator)?;
    }
    Ok(())
}

fn find_variable(
    alloc: Global,
    found: &mut List<Finding>,
    listed: &BTreeSet<Name>,
    exported: bool,
    of: &Declarator,
) -> Result<(), NoMemory>
    ensures { (names : Members (Members ℕ)) → HasNames listed.now names → OnOk result (found.new ≡ found.old ++ spec.variable_findings names exported of.now) }
{
    let kept = is_kept(listed, exported, &of.name);
    find_kept(alloc, found, kept, of)?;
    find_value(alloc, found, &of.value)?;
    Ok(())
}

fn find_kept(
    alloc: Global,
    found: &mut List<Finding>,
    kept: bool,
    of: &Declarator,
) -> Result<(), NoMemory>
    ensures { OnOk result (found.new ≡ found.old ++ lack.kept_lacking kept of.now) }
{
    if !kept {
        return Ok(());
    }
    match &of.annotation {
        Some(_) => Ok(()),
        None => find_untold(alloc, found, of.at, &of.name, boxed_literal(&of.value)),
    }
}

/// A variable or a field without an annotation.
fn find_untold(
    alloc: Global,
    found: &mut List<Finding>,
    at: usize,
    name: &Name,
    literal: Option<Literal<'_>>,
) -> Result<(), NoMemory>
    ensures { OnOk result (found.new ≡ found.old ++ spec.lacking_literal at name.now (option_map seen literal.entry)) }
{
    match literal {
        Some(_) => Ok(()),
        None => find(alloc, found, NO_VALUE_TYPE, at, name),
    }
}

fn find_field(
    alloc: Global,
    found: &mut List<Finding>,
    at: usize,
    name: &Name,
    annotation: &Option<TypeExpr>,
    value: &Option<Expr>,
) -> Result<(), NoMemory>
    ensures { OnOk result (found.new ≡ found.old ++ spec.lacking_value at name.now annotation.now value.now) }
{
    match annotation {
        Some(_) => Ok(()),
        None => find_untold(alloc, found, at, name, literal_in(value)),
    }
}

fn find_initial(alloc: Global, found: &mut List<Finding>, of: &Option<Expr>) -> Result<(), NoMemory>
    ensures { OnOk result (found.new ≡ found.old ++ spec.value_findings of.now) }
{
    match of {
        Some(value) => find_expr(alloc, found, value),
        None => Ok(()),
    }
}

fn find_members(
    alloc: Global,
    found: &mut List<Finding>,
    all: &[ClassMember],
) -> Result<(), NoMemory>
    ensures { OnOk result (found.new ≡ found.old ++ flat_map spec.member_findings all.now) }
{
    for member in all {
        find_member(alloc, found, member)?;
    }
    Ok(())
}

fn find_member(alloc: Global, found: &mut List<Finding>, of: &ClassMember) -> Result<(), NoMemory>
    ensures { OnOk result (found.new ≡ found.old ++ spec.member_findings of.now) }
{
    match of {
        ClassMember::Field {
            at,
            name,
            annotation,
            value,
            ..
        } => {
            find_field(alloc, found, *at, name, annotation, value)?;
            find_initial(alloc, found, value)?;
            Ok(())
        }
        ClassMember::Constructor { params, body, .. } => {
            find_params(alloc, found, params.as_slice())?;
            find_block(alloc, found, body)?;
            Ok(())
        }
        ClassMember::Method {
            at,
            name,
            params,
            result,
            body,
            ..
        } => {
            find_untyped(alloc, found, NO_RESULT_TYPE, *at, name, result)?;
            find_params(alloc, found, params.as_slice())?;
            find_block(alloc, found, body)?;
            Ok(())
        }
    }
}

#[cycle(finding)]
fn find_function(alloc: Global, found: &mut List<Finding>, of: &Function) -> Result<(), NoMemory>
    ensures { OnOk result (found.new ≡ found.old ++ spec.function_findings of.now) }
{
    find_untyped(alloc, found, NO_RESULT_TYPE, of.at, &of.name, &of.result)?;
    find_params(alloc, found, of.params.as_slice())?;
    find_block(alloc, found, of.body.get())?;
    Ok(())
}

/// A parameter that needs a type.
#[cycle(finding)]
fn find_param(alloc: Global, found: &mut List<Finding>, of: &Param) -> Result<(), NoMemory>
    ensures { OnOk result (found.new ≡ found.old ++ spec.whole_param (spec.param_findings of.now)) }
{
    find_untyped(alloc, found, NO_PARAM_TYPE, of.at, &of.name, &of.annotation)?;
    find_value(alloc, found, &of.value)?;
    Ok(())
}

#[cycle(finding)]
fn find_params(alloc: Global, found: &mut List<Finding>, all: &[Param]) -> Result<(), NoMemory>
    ensures { OnOk result (found.new ≡ found.old ++ spec.params_findings all.now) }
{
    for of in all {
        find_param(alloc, found, of)?;
    }
    Ok(())
}

/// A parameter of an arrow needs no type here.
#[cycle(finding)]
fn find_arrow_param(alloc: Global, found: &mut List<Finding>, of: &Param) -> Result<(), NoMemory>
    ensures { OnOk result (found.new ≡ found.old ++ spec.arrow_param (spec.param_findings of.now)) }
{
    find_value(alloc, found, &of.value)
}

#[cycle(finding)]
fn find_arrow_params(
    alloc: Global,
    found: &mut List<Finding>,
    all: &[Param],
) -> Result<(), NoMemory>
    ensures { OnOk result (found.new ≡ found.old ++ flat_map (λ of. spec.arrow_param (spec.param_findings of)) all.now) }
{
    for of in all {
        find_arrow_param(alloc, found, of)?;
    }
    Ok(())
}

#[cycle(finding)]
fn find_value(
    alloc: Global,
    found: &mut List<Finding>,
    of: &Option<Boxed<Expr>>,
) -> Result<(), NoMemory>
    ensures { OnOk result (found.new ≡ found.old ++ spec.value_findings of.now) }
{
    match of {
        Some(value) => find_expr(alloc, found, value.get()),
        None => Ok(()),
    }
}

#[cycle(finding)]
fn find_exprs(alloc: Global, found: &mut List<Finding>, all: &[Expr]) -> Result<(), NoMemory>
    ensures { OnOk result (found.new ≡ found.old ++ flat_map spec.expr_findings all.now) }
{
    for of in all {
        find_expr(alloc, found, of)?;
    }
    Ok(())
}

#[cycle(finding)]
fn find_expr(alloc: Global, found: &mut List<Finding>, of: &Expr) -> Result<(), NoMemory>
    ensures { OnOk result (found.new ≡ found.old ++ spec.expr_findings of.now) }
{
    match of {
        Expr::Name { .. } => Ok(()),
        Expr::This { .. } => Ok(()),
        Expr::Null { .. } => Ok(()),
        Expr::Undefined { .. } => Ok(()),
        Expr::Boolean { .. } => Ok(()),
        Expr::Number { .. } => Ok(()),
        Expr::String { .. } => Ok(()),
        Expr::Template { spans, .. } => find_spans(alloc, found, spans.as_slice()),
        Expr::Parens { inner, .. } => find_expr(alloc, found, inner.get()),
        Expr::Array { elements, .. } => find_exprs(alloc, found, elements.as_slice()),
        Expr::Object { props, .. } => find_props(alloc, found, props.as_slice()),
        Expr::New { arguments, .. } => find_exprs(alloc, found, arguments.as_slice()),
        Expr::Member { base, .. } => find_expr(alloc, found, base.get()),
        Expr::Index { base, index, .. } => {
            find_expr(alloc, found, base.get())?;
            find_expr(alloc, found, index.get())?;
            Ok(())
        }
        Expr::Call {
            callee,
            arguments,
            ..
        } => {
            find_expr(alloc, found, callee.get())?;
            find_exprs(alloc, found, arguments.as_slice())?;
            Ok(())
        }
        Expr::Unary { operand, .. } => find_expr(alloc, found, operand.get()),
        Expr::Update { target, .. } => find_expr(alloc, found, target.get()),
        Expr::Binary { left, right, .. } => {
            find_expr(alloc, found, left.get())?;
            find_expr(alloc, found, right.get())?;
            Ok(())
        }
        Expr::As { value, .. } => find_expr(alloc, found, value.get()),
        Expr::Conditional {
            condition,
            then,
            otherwise,
            ..
        } => {
            find_expr(alloc, found, condition.get())?;
            find_expr(alloc, found, then.get())?;
            find_expr(alloc, found, otherwise.get())?;
            Ok(())
        }
        Expr::Assign { target, value, .. } => {
            find_expr(alloc, found, target.get())?;
            find_expr(alloc, found, value.get())?;
            Ok(())
        }
        Expr::Arrow { params, body, .. } => {
            find_arrow_params(alloc, found, params.as_slice())?;
            find_arrow_body(alloc, found, body)?;
            Ok(())
        }
    }
}

#[cycle(finding)]
fn find_span(alloc: Global, found: &mut List<Finding>, of: &TemplateSpan) -> Result<(), NoMemory>
    ensures { OnOk result (found.new ≡ found.old ++ spec.span_findings of.now) }
{
    find_expr(alloc, found, of.value.get())
}

#[cycle(finding)]
fn find_spans(
    alloc: Global,
    found: &mut List<Finding>,
    all: &[TemplateSpan],
) -> Result<(), NoMemory>
    ensures { OnOk result (found.new ≡ found.old ++ flat_map spec.span_findings all.now) }
{
    for of in all {
        find_span(alloc, found, of)?;
    }
    Ok(())
}

#[cycle(finding)]
fn find_prop(alloc: Global, found: &mut List<Finding>, of: &Prop) -> Result<(), NoMemory>
    ensures { OnOk result (found.new ≡ found.old ++ spec.prop_findings of.now) }
{
    match of {
        Prop::Valued { value, .. } => find_expr(alloc, found, value.get()),
        Prop::Short { .. } => Ok(()),
    }
}

#[cycle(finding)]
fn find_props(alloc: Global, found: &mut List<Finding>, all: &[Prop]) -> Result<(), NoMemory>
    ensures { OnOk result (found.new ≡ found.old ++ flat_map spec.prop_findings all.now) }
{
    for of in all {
        find_prop(alloc, found, of)?;
    }
    Ok(())
}

#[cycle(finding)]
fn find_arrow_body(alloc: Global, found: &mut List<Finding>, of: &ArrowBody) -> Result<(), NoMemory>
    ensures { OnOk result (found.new ≡ found.old ++ spec.arrow_body_findings of.now) }
{
    match of {
        ArrowBody::Block(block) => find_block(alloc, found, block.get()),
        ArrowBody::Expr(value) => find_expr(alloc, found, value.get()),
    }
}

#[cycle(finding)]
fn find_block(alloc: Global, found: &mut List<Finding>, of: &Block) -> Result<(), NoMemory>
    ensures { OnOk result (found.new ≡ found.old ++ spec.block_findings of.now) }
{
    find_block_items(alloc, found, of.items.as_slice())
}

#[cycle(finding)]
fn find_block_item(alloc: Global, found: &mut List<Finding>, of: &BlockItem) -> Result<(), NoMemory>
    ensures { OnOk result (found.new ≡ found.old ++ spec.block_item_findings of.now) }
{
    match of {
        BlockItem::Var(var) => find_var(alloc, found, var.get()),
        BlockItem::Function(function) => find_function(alloc, found, function.get()),
        BlockItem::Stmt(stmt) => find_stmt(alloc, found, stmt.get()),
    }
}

#[cycle(finding)]
fn find_block_items(
    alloc: Global,
    found: &mut List<Finding>,
    all: &[BlockItem],
) -> Result<(), NoMemory>
    ensures { OnOk result (found.new ≡ found.old ++ flat_map spec.block_item_findings all.now) }
{
    for of in all {
        find_block_item(alloc, found, of)?;
    }
    Ok(())
}

/// A variable in a body needs no annotation.
#[cycle(finding)]
fn find_declarator(
    alloc: Global,
    found: &mut List<Finding>,
    of: &Declarator,
) -> Result<(), NoMemory>
    ensures { OnOk result (found.new ≡ found.old ++ spec.declarator_findings of.now) }
{
    find_value(alloc, found, &of.value)
}

#[cycle(finding)]
fn find_declarators(
    alloc: Global,
    found: &mut List<Finding>,
    all: &[Declarator],
) -> Result<(), NoMemory>
    ensures { OnOk result (found.new ≡ found.old ++ flat_map spec.declarator_findings all.now) }
{
    for of in all {
        find_declarator(alloc, found, of)?;
    }
    Ok(())
}

#[cycle(finding)]
fn find_var(alloc: Global, found: &mut List<Finding>, of: &Var) -> Result<(), NoMemory>
    ensures { OnOk result (found.new ≡ found.old ++ spec.var_findings of.now) }
{
    find_declarators(alloc, found, of.declarators.as_slice())
}

#[cycle(finding)]
fn find_start(alloc: Global, found: &mut List<Finding>, of: &ForStart) -> Result<(), NoMemory>
    ensures { OnOk result (found.new ≡ found.old ++ spec.start_findings of.now) }
{
    match of {
        ForStart::Var(var) => find_var(alloc, found, var.get()),
        ForStart::Expr(value) => find_expr(alloc, found, value.get()),
        ForStart::Nothing => Ok(()),
    }
}

#[cycle(finding)]
fn find_otherwise(
    alloc: Global,
    found: &mut List<Finding>,
    of: &Option<Boxed<Stmt>>,
) -> Result<(), NoMemory>
    ensures { OnOk result (found.new ≡ found.old ++ spec.otherwise_findings of.now) }
{
    match of {
        Some(stmt) => find_stmt(alloc, found, stmt.get()),
        None => Ok(()),
    }
}

#[cycle(finding)]
fn find_clause(alloc: Global, found: &mut List<Finding>, of: &Clause) -> Result<(), NoMemory>
    ensures { OnOk result (found.new ≡ found.old ++ spec.clause_findings of.now) }
{
    match of {
        Clause::Case { value, items, .. } => {
            find_expr(alloc, found, value.get())?;
            find_block_items(alloc, found, items.as_slice())?;
            Ok(())
        }
        Clause::Default { items, .. } => find_block_items(alloc, found, items.as_slice()),
    }
}

#[cycle(finding)]
fn find_clauses(alloc: Global, found: &mut List<Finding>, all: &[Clause]) -> Result<(), NoMemory>
    ensures { OnOk result (found.new ≡ found.old ++ flat_map spec.clause_findings all.now) }
{
    for of in all {
        find_clause(alloc, found, of)?;
    }
    Ok(())
}

#[cycle(finding)]
fn find_stmt(alloc: Global, found: &mut List<Finding>, of: &Stmt) -> Result<(), NoMemory>
    ensures { OnOk result (found.new ≡ found.old ++ spec.stmt_findings of.now) }
{
    match of {
        Stmt::Block(block) => find_block(alloc, found, block.get()),
        Stmt::If {
            condition,
            then,
            otherwise,
            ..
        } => {
            find_expr(alloc, found, condition.get())?;
            find_stmt(alloc, found, then.get())?;
            find_otherwise(alloc, found, otherwise)?;
            Ok(())
        }
        Stmt::While {
            condition,
            body,
            ..
        } => {
            find_expr(alloc, found, condition.get())?;
            find_stmt(alloc, found, body.get())?;
            Ok(())
        }
        Stmt::Do {
            body,
            condition,
            ..
        } => {
            find_stmt(alloc, found, body.get())?;
            find_expr(alloc, found, condition.get())?;
            Ok(())
        }
        Stmt::For {
            start,
            condition,
            update,
            body,
            ..
        } => {
            find_start(alloc, found, start)?;
            find_value(alloc, found, condition)?;
            find_value(alloc, found, update)?;
            find_stmt(alloc, found, body.get())?;
            Ok(())
        }
        Stmt::ForOf { subject, body, .. } => {
            find_expr(alloc, found, subject.get())?;
            find_stmt(alloc, found, body.get())?;
            Ok(())
        }
        Stmt::Return { value, .. } => find_value(alloc, found, value),
        Stmt::Break { .. } => Ok(()),
        Stmt::Continue { .. } => Ok(()),
        Stmt::Throw { value, .. } => find_expr(alloc, found, value.get()),
        Stmt::Switch {
            subject,
            clauses,
            ..
        } => {
            find_expr(alloc, found, subject.get())?;
            find_clauses(alloc, found, clauses.as_slice())?;
            Ok(())
        }
        Stmt::Expr { value, .. } => find_expr(alloc, found, value.get()),
        Stmt::Empty { .. } => Ok(()),
    }
}
