//! Tests of `tb_parse_body`.

use crate::shared::{key_text, nested, row};
use sqlite_items::Boxed;
use std::alloc::{AllocError, Global};
use std::rt::HostRuntime;
use std::test::Fail;
use tb_parse_body::{read_expr, read_stmt};
use tb_parse_type::ReadFault;
use tb_scan::scan;
use tb_tree::{
    ArrowBody, AssignOperator, BinaryOperator, Block, BlockItem, Clause, Declarator, Expr,
    ForStart, Function, Param, Prop, Stmt, TemplateSpan, TypeExpr, UnaryOperator, UpdateOperator,
    Var, VarKind,
};

fn unary_text(operator: UnaryOperator) -> &'static str {
    match operator {
        UnaryOperator::Not => "!",
        UnaryOperator::Minus => "-",
        UnaryOperator::Plus => "+",
        UnaryOperator::Typeof => "typeof ",
    }
}

fn update_text(operator: UpdateOperator) -> &'static str {
    match operator {
        UpdateOperator::Increment => "++",
        UpdateOperator::Decrement => "--",
    }
}

fn binary_text(operator: BinaryOperator) -> &'static str {
    match operator {
        BinaryOperator::Or => " || ",
        BinaryOperator::Nullish => " ?? ",
        BinaryOperator::And => " && ",
        BinaryOperator::Same => " === ",
        BinaryOperator::NotSame => " !== ",
        BinaryOperator::Less => " < ",
        BinaryOperator::Greater => " > ",
        BinaryOperator::LessEqual => " <= ",
        BinaryOperator::GreaterEqual => " >= ",
        BinaryOperator::Plus => " + ",
        BinaryOperator::Minus => " - ",
        BinaryOperator::Times => " * ",
        BinaryOperator::Divided => " / ",
        BinaryOperator::Remainder => " % ",
    }
}

fn assign_text(operator: AssignOperator) -> &'static str {
    match operator {
        AssignOperator::Assign => " = ",
        AssignOperator::Plus => " += ",
        AssignOperator::Minus => " -= ",
        AssignOperator::Times => " *= ",
        AssignOperator::Divided => " /= ",
        AssignOperator::Remainder => " %= ",
    }
}

fn kind_text(kind: VarKind) -> &'static str {
    match kind {
        VarKind::Const => "const ",
        VarKind::Let => "let ",
    }
}

// A name, `array(name)`, `readonly(name)`, or `type`.
#[cycle(show_type)]
fn show_type(out: &mut String, of: &TypeExpr) -> Result<(), AllocError> {
    match of {
        TypeExpr::Written { name, .. } => out.push_str(name.as_str()),
        TypeExpr::Array {
            read_only,
            element,
            ..
        } => {
            out.push_str(if *read_only { "readonly(" } else { "array(" })?;
            show_type(out, element.get())?;
            out.push_str(")")
        }
        _ => out.push_str("type"),
    }
}

fn show_annotation(out: &mut String, of: &Option<TypeExpr>) -> Result<(), AllocError> {
    match of {
        Some(shape) => {
            out.push_str(": ")?;
            show_type(out, shape)
        }
        None => Ok(()),
    }
}

// Each expression with one inside it stands in `[ ]`, `{ }`, or `< >` where it was written in parentheses.
#[cycle(show)]
fn show(out: &mut String, of: &Expr) -> Result<(), AllocError> {
    match of {
        Expr::Name { name, .. } => out.push_str(name.as_str()),
        Expr::This { .. } => out.push_str("this"),
        Expr::Null { .. } => out.push_str("null"),
        Expr::Undefined { .. } => out.push_str("undefined"),
        Expr::Boolean { value, .. } => out.push_str(if *value { "true" } else { "false" }),
        Expr::Number { spelled, .. } => out.push_str(spelled.as_str()),
        Expr::String { spelled, .. } => out.push_str(spelled.as_str()),
        Expr::Template { head, spans, .. } => {
            out.push_str(head.as_str())?;
            show_spans(out, spans.as_slice())
        }
        Expr::Parens { inner, .. } => {
            out.push_str("<")?;
            show(out, inner.get())?;
            out.push_str(">")
        }
        Expr::Array { elements, .. } => {
            out.push_str("list[")?;
            show_all(out, elements.as_slice())?;
            out.push_str("]")
        }
        Expr::Object { props, .. } => {
            out.push_str("{")?;
            show_props(out, props.as_slice())?;
            out.push_str("}")
        }
        Expr::New {
            class,
            arguments,
            ..
        } => {
            out.push_str("new[")?;
            out.push_str(class.name.as_str())?;
            out.push_str(", ")?;
            show_all(out, arguments.as_slice())?;
            out.push_str("]")
        }
        Expr::Member { base, member, .. } => {
            out.push_str("[")?;
            show(out, base.get())?;
            out.push_str(".")?;
            out.push_str(member.as_str())?;
            out.push_str("]")
        }
        Expr::Index { base, index, .. } => {
            out.push_str("[")?;
            show(out, base.get())?;
            out.push_str(" at ")?;
            show(out, index.get())?;
            out.push_str("]")
        }
        Expr::Call {
            callee,
            arguments,
            ..
        } => {
            out.push_str("call[")?;
            show(out, callee.get())?;
            out.push_str(", ")?;
            show_all(out, arguments.as_slice())?;
            out.push_str("]")
        }
        Expr::Unary {
            operator,
            operand,
            ..
        } => {
            out.push_str("[")?;
            out.push_str(unary_text(*operator))?;
            show(out, operand.get())?;
            out.push_str("]")
        }
        Expr::Update {
            operator,
            before,
            target,
            ..
        } => {
            out.push_str(if *before { "[" } else { "[after " })?;
            out.push_str(update_text(*operator))?;
            show(out, target.get())?;
            out.push_str("]")
        }
        Expr::Binary {
            left,
            operator,
            right,
            ..
        } => {
            out.push_str("[")?;
            show(out, left.get())?;
            out.push_str(binary_text(*operator))?;
            show(out, right.get())?;
            out.push_str("]")
        }
        Expr::As { value, shape, .. } => {
            out.push_str("[")?;
            show(out, value.get())?;
            out.push_str(" as ")?;
            show_type(out, shape)?;
            out.push_str("]")
        }
        Expr::Conditional {
            condition,
            then,
            otherwise,
            ..
        } => {
            out.push_str("[")?;
            show(out, condition.get())?;
            out.push_str(" ? ")?;
            show(out, then.get())?;
            out.push_str(" : ")?;
            show(out, otherwise.get())?;
            out.push_str("]")
        }
        Expr::Assign {
            target,
            operator,
            value,
            ..
        } => {
            out.push_str("[")?;
            show(out, target.get())?;
            out.push_str(assign_text(*operator))?;
            show(out, value.get())?;
            out.push_str("]")
        }
        Expr::Arrow {
            params,
            result: answer,
            body,
            ..
        } => {
            out.push_str("[(")?;
            show_params(out, params.as_slice())?;
            out.push_str(")")?;
            show_annotation(out, answer)?;
            out.push_str(" => ")?;
            show_arrow_body(out, body)?;
            out.push_str("]")
        }
    }
}

#[cycle(show)]
fn show_arrow_body(out: &mut String, of: &ArrowBody) -> Result<(), AllocError> {
    match of {
        ArrowBody::Block(block) => show_block(out, block.get()),
        ArrowBody::Expr(expr) => show(out, expr.get()),
    }
}

#[cycle(show)]
fn show_all(out: &mut String, all: &[Expr]) -> Result<(), AllocError> {
    for of in all {
        show(out, of)?;
        out.push_str(";")?;
    }
    Ok(())
}

#[cycle(show)]
fn show_spans(out: &mut String, spans: &[TemplateSpan]) -> Result<(), AllocError> {
    for span in spans {
        show(out, span.value.get())?;
        out.push_str(span.text.as_str())?;
    }
    Ok(())
}

#[cycle(show)]
fn show_props(out: &mut String, props: &[Prop]) -> Result<(), AllocError> {
    for prop in props {
        show_prop(out, prop)?;
    }
    Ok(())
}

#[cycle(show)]
fn show_prop(out: &mut String, of: &Prop) -> Result<(), AllocError> {
    match of {
        Prop::Valued { key, value, .. } => {
            out.push_str(key_text(key))?;
            out.push_str(": ")?;
            show(out, value.get())?;
        }
        Prop::Short { name, .. } => out.push_str(name.as_str())?,
    }
    out.push_str(";")
}

#[cycle(show)]
fn show_value(out: &mut String, of: &Option<Boxed<Expr>>) -> Result<(), AllocError> {
    match of {
        Some(value) => {
            out.push_str(" = ")?;
            show(out, value.get())
        }
        None => Ok(()),
    }
}

#[cycle(show)]
fn show_params(out: &mut String, params: &[Param]) -> Result<(), AllocError> {
    for param in params {
        out.push_str(param.name.as_str())?;
        out.push_str(if param.optional { "?" } else { "" })?;
        show_annotation(out, &param.annotation)?;
        show_value(out, &param.value)?;
        out.push_str(";")?;
    }
    Ok(())
}

#[cycle(show)]
fn show_block(out: &mut String, of: &Block) -> Result<(), AllocError> {
    out.push_str("{")?;
    show_items(out, of.items.as_slice())?;
    out.push_str("}")
}

#[cycle(show)]
fn show_items(out: &mut String, items: &[BlockItem]) -> Result<(), AllocError> {
    for of in items {
        show_item(out, of)?;
    }
    Ok(())
}

#[cycle(show)]
fn show_item(out: &mut String, of: &BlockItem) -> Result<(), AllocError> {
    match of {
        BlockItem::Var(var) => show_var(out, var.get()),
        BlockItem::Function(function) => show_function(out, function.get()),
        BlockItem::Stmt(stmt) => show_stmt(out, stmt.get()),
    }
}

#[cycle(show)]
fn show_var(out: &mut String, of: &Var) -> Result<(), AllocError> {
    out.push_str(kind_text(of.kind))?;
    show_declarators(out, of.declarators.as_slice())
}

#[cycle(show)]
fn show_declarators(out: &mut String, all: &[Declarator]) -> Result<(), AllocError> {
    for of in all {
        out.push_str(of.name.as_str())?;
        show_annotation(out, &of.annotation)?;
        show_value(out, &of.value)?;
        out.push_str(";")?;
    }
    Ok(())
}

#[cycle(show)]
fn show_function(out: &mut String, of: &Function) -> Result<(), AllocError> {
    out.push_str("function ")?;
    out.push_str(of.name.as_str())?;
    out.push_str("(")?;
    show_params(out, of.params.as_slice())?;
    out.push_str(")")?;
    show_annotation(out, &of.result)?;
    out.push_str(" ")?;
    show_block(out, of.body.get())
}

#[cycle(show)]
fn show_optional(out: &mut String, of: &Option<Boxed<Expr>>) -> Result<(), AllocError> {
    match of {
        Some(value) => show(out, value.get()),
        None => out.push_str("-"),
    }
}

#[cycle(show)]
fn show_stmt(out: &mut String, of: &Stmt) -> Result<(), AllocError> {
    match of {
        Stmt::Block(block) => show_block(out, block.get()),
        Stmt::If {
            condition,
            then,
            otherwise,
            ..
        } => {
            out.push_str("if(")?;
            show(out, condition.get())?;
            out.push_str(" then ")?;
            show_stmt(out, then.get())?;
            show_otherwise(out, otherwise)?;
            out.push_str(")")
        }
        Stmt::While {
            condition,
            body,
            ..
        } => {
            out.push_str("while(")?;
            show(out, condition.get())?;
            out.push_str(" do ")?;
            show_stmt(out, body.get())?;
            out.push_str(")")
        }
        Stmt::Do {
            body,
            condition,
            ..
        } => {
            out.push_str("do(")?;
            show_stmt(out, body.get())?;
            out.push_str(" while ")?;
            show(out, condition.get())?;
            out.push_str(")")
        }
        Stmt::For {
            start,
            condition,
            update,
            body,
            ..
        } => {
            out.push_str("for(")?;
            show_start(out, start)?;
            out.push_str(" while ")?;
            show_optional(out, condition)?;
            out.push_str(" then ")?;
            show_optional(out, update)?;
            out.push_str(" do ")?;
            show_stmt(out, body.get())?;
            out.push_str(")")
        }
        Stmt::ForOf {
            kind,
            element,
            subject,
            body,
            ..
        } => {
            out.push_str("for(")?;
            out.push_str(kind_text(*kind))?;
            out.push_str(element.name.as_str())?;
            out.push_str(" of ")?;
            show(out, subject.get())?;
            out.push_str(" do ")?;
            show_stmt(out, body.get())?;
            out.push_str(")")
        }
        Stmt::Return { value, .. } => {
            out.push_str("return ")?;
            show_optional(out, value)?;
            out.push_str(";")
        }
        Stmt::Break { .. } => out.push_str("break;"),
        Stmt::Continue { .. } => out.push_str("continue;"),
        Stmt::Throw { value, .. } => {
            out.push_str("throw ")?;
            show(out, value.get())?;
            out.push_str(";")
        }
        Stmt::Switch {
            subject,
            clauses,
            ..
        } => {
            out.push_str("switch(")?;
            show(out, subject.get())?;
            out.push_str(")")?;
            show_clauses(out, clauses.as_slice())
        }
        Stmt::Expr { value, .. } => {
            show(out, value.get())?;
            out.push_str(";")
        }
        Stmt::Empty { .. } => out.push_str(";"),
    }
}

#[cycle(show)]
fn show_otherwise(out: &mut String, of: &Option<Boxed<Stmt>>) -> Result<(), AllocError> {
    match of {
        Some(stmt) => {
            out.push_str(" else ")?;
            show_stmt(out, stmt.get())
        }
        None => Ok(()),
    }
}

#[cycle(show)]
fn show_start(out: &mut String, of: &ForStart) -> Result<(), AllocError> {
    match of {
        ForStart::Var(var) => show_var(out, var.get()),
        ForStart::Expr(expr) => show(out, expr.get()),
        ForStart::Nothing => out.push_str("-"),
    }
}

#[cycle(show)]
fn show_clauses(out: &mut String, clauses: &[Clause]) -> Result<(), AllocError> {
    for clause in clauses {
        match clause {
            Clause::Case { value, items, .. } => {
                out.push_str(" case ")?;
                show(out, value.get())?;
                out.push_str(": ")?;
                show_items(out, items.as_slice())?;
            }
            Clause::Default { items, .. } => {
                out.push_str(" default: ")?;
                show_items(out, items.as_slice())?;
            }
        }
    }
    Ok(())
}

fn show_at(out: &mut String, of: &Expr, next: usize) -> Result<(), Fail> {
    write!(out, "{next} ")?;
    show(out, of)?;
    Ok(())
}

fn show_stmt_at(out: &mut String, of: &Stmt, next: usize) -> Result<(), Fail> {
    write!(out, "{next} ")?;
    show_stmt(out, of)?;
    Ok(())
}

// What was read is owned by a function of its own: what a function owns is what its check grows with.
fn show_front(out: &mut String, of: Expr, next: usize) -> Result<(), Fail> {
    show_at(out, &of, next)
}

fn show_stmt_front(out: &mut String, of: Stmt, next: usize) -> Result<(), Fail> {
    show_stmt_at(out, &of, next)
}

// How many tokens the expression at the front takes, and the expression; or `-`.
fn shown_expr(alloc: Global, text: &str) -> Result<String, Fail> {
    let tokens = scan(alloc, text)?;
    let mut out = String::new(alloc);
    match read_expr(alloc, tokens.as_slice(), text, 0) {
        Ok((of, next)) => show_front(&mut out, of, next)?,
        Err(ReadFault::NotDerived) => out.push_str("-")?,
        Err(ReadFault::NoMemory) => out.push_str("?")?,
    }
    Ok(out)
}

// The same of the statement at the front.
fn shown_stmt(alloc: Global, text: &str, in_body: bool) -> Result<String, Fail> {
    let tokens = scan(alloc, text)?;
    let mut out = String::new(alloc);
    match read_stmt(alloc, tokens.as_slice(), text, 0, in_body) {
        Ok((of, next)) => show_stmt_front(&mut out, of, next)?,
        Err(ReadFault::NotDerived) => out.push_str("-")?,
        Err(ReadFault::NoMemory) => out.push_str("?")?,
    }
    Ok(out)
}

// A text and what is read of it, with a `~` between.
const EXPRS: &str = r#";~-
~-
a~1 a
this~1 this
null~1 null
undefined~1 undefined
true~1 true
false~1 false
1.5e3~1 1.5e3
'x'~1 'x'
class~-
`a`~1 `a`
`a${b}c${d + e}f`~7 `a${b}c${[d + e]}f`
`a${}c`~-
`a${`b${c}d`}e`~5 `a${`b${c}d`}e`
(a)~3 <a>
(a~-
()~-
[]~2 list[]
[a, b]~5 list[a;b;]
[a, b,]~6 list[a;b;]
[, a]~-
{}~2 {}
{ a: 1, b, 'c': d, class: e }~15 {a: 1;b;'c': d;class: e;}
{ a, }~4 {a;}
{ class }~-
{ 1: a }~-
{ a: }~-
new A(b, c)~7 new[A, b;c;]
new A~-
new a.b()~-
a.b.class~5 [[a.b].class]
a.1~1 a
1 .a~1 1
(1).a~5 [<1>.a]
a[b][c]~7 [[a at b] at c]
a[]~1 a
f()~3 call[f, ]
f(a, b,)(c)~10 call[call[f, a;b;], c;]
f(a b)~1 f
a.b(c)[d].e~11 [[call[[a.b], c;] at d].e]
!a~2 [!a]
!!-+typeof a.b~8 [![![-[+[typeof [a.b]]]]]]
- -a~3 [-[-a]]
++a~2 [++a]
--a.b[c]~7 [--[[a.b] at c]]
++a()~2 [++a]
++a.b()()~4 [++[a.b]]
++a().b()~6 [++[call[a, ].b]]
++1~-
++(a)~-
++this.a~4 [++[this.a]]
a++~2 [after ++a]
a.b--~4 [after --[a.b]]
a()++~3 call[a, ]
a++ ++~2 [after ++a]
++a++~2 [++a]
-a++~3 [-[after ++a]]
a * b / c % d~7 [[[a * b] / c] % d]
a + b - c~5 [[a + b] - c]
a + b * c - d~7 [[a + [b * c]] - d]
a < b > c <= d >= e~9 [[[[a < b] > c] <= d] >= e]
a < b + c~5 [a < [b + c]]
a === b !== c~5 [[a === b] !== c]
a === b < c~5 [a === [b < c]]
a && b && c~5 [[a && b] && c]
a && b === c~5 [a && [b === c]]
a || b || c~5 [[a || b] || c]
a || b && c~5 [a || [b && c]]
a ?? b ?? c~5 [[a ?? b] ?? c]
a ?? b === c~5 [a ?? [b === c]]
a ?? b && c~3 [a ?? b]
a ?? b || c~3 [a ?? b]
a || b ?? c~3 [a || b]
a && b ?? c~3 [a && b]
a === b ?? c~5 [[a === b] ?? c]
a +~1 a
a + ;~1 a
a as B~3 [a as B]
a as B as C~5 [[a as B] as C]
a as B < c~5 [[a as B] < c]
a + b as C~5 [[a + b] as C]
a as B + c~3 [a as B]
a as B === c~5 [[a as B] === c]
a as B[]~5 [a as array(B)]
a as readonly B[]~6 [a as readonly(B)]
a as readonly as B~5 [[a as readonly] as B]
a as readonly as[]~6 [a as readonly(as)]
a as readonly as B[]~7 [[a as readonly] as array(B)]
a as ;~1 a
a ? b : c~5 [a ? b : c]
a ? b : c ? d : e~9 [a ? b : [c ? d : e]]
a ? b ? c : d : e~9 [a ? [b ? c : d] : e]
a ? b~1 a
a ? b :~1 a
a || b ? c : d~7 [[a || b] ? c : d]
a ?? b ? c : d~7 [[a ?? b] ? c : d]
a ? (b) : c => d~9 [a ? <b> : [(c;) => d]]
a ? (b) : c~7 [a ? <b> : c]
a ? (b): T => c : d~9 [a ? <b> : [(T;) => c]]
a ? [(b): T => c] : d~13 [a ? list[[(b;): T => c];] : d]
a ? b => c : d~7 [a ? [(b;) => c] : d]
a = b~3 [a = b]
a = b = c~5 [a = [b = c]]
a.b += c~5 [[a.b] += c]
a[b] -= c *= d /= e %= f~12 [[a at b] -= [c *= [d /= [e %= f]]]]
a() = b~3 call[a, ]
(a) = b~3 <a>
a + b = c~3 [a + b]
a = b ? c : d~7 [a = [b ? c : d]]
a ? b : c = d~7 [a ? b : [c = d]]
a ? b = c : d~7 [a ? [b = c] : d]
a =~1 a
a => b~3 [(a;) => b]
a => b => c~5 [(a;) => [(b;) => c]]
a => {}~4 [(a;) => {}]
a => ({})~6 [(a;) => <{}>]
a => {}.b~4 [(a;) => {}]
a =>~1 a
a = b => c + d~7 [a = [(b;) => [c + d]]]
a + b => c~3 [a + b]
() => a~4 [() => a]
()~-
(a) => b~5 [(a;) => b]
(a, b) => c~7 [(a;b;) => c]
(a, b,) => c~8 [(a;b;) => c]
(a: T, b?: U, c = d) => e~16 [(a: T;b?: U;c = d;) => e]
(a?, b) => c~-
(a = 1, b) => c~-
(a = 1, b?) => c~10 [(a = 1;b?;) => c]
(a? = 1) => c~-
(a = 1) => c~7 [(a = 1;) => c]
(a = 1)~5 <[a = 1]>
(a = 1) + 2~7 [<[a = 1]> + 2]
(a = 1).b = c~9 [[<[a = 1]>.b] = c]
(a = (b = (c = 1)))~13 <[a = <[b = <[c = 1]>]>]>
(a = (b = (c = 1)), d?) => e~18 [(a = <[b = <[c = 1]>]>;d?;) => e]
(a = 1, b)~-
(a = 1,)~-
(a = 1,) => b~8 [(a = 1;) => b]
(a = 1) =>~5 <[a = 1]>
(a = ) => b~-
(a): T => b~7 [(a;): T => b]
(a): T~3 <a>
(a: T) => b~7 [(a: T;) => b]
(a: T)~-
(a): (b: T) => U => c~13 [(a;): type => c]
(a).b => c~5 [<a>.b]
(1) => a~3 <1>
(a) => b => c~7 [(a;) => [(b;) => c]]
(a) => { return a; }~9 [(a;) => {return a;}]
f(a => b, (c) => d)~12 call[f, [(a;) => b];[(c;) => d];]
{ a: b => c }.d~9 [{a: [(b;) => c];}.d]
!a => b~2 [!a]
"#;

#[test]
fn reads_the_longest_expression(rt: HostRuntime) -> Result<(), Fail> {
    for line in EXPRS.lines() {
        let (text, wanted) = row(line);
        let found = shown_expr(rt.alloc(), text)?;
        assert_eq!(rt; found.as_str(), wanted, "{text}");
    }
    Ok(())
}

const STMTS: &str = r#"~-
;~1 ;
{}~2 {}
{ ; ; }~4 {;;}
{ a: 1 }~-
{ a; }.b~4 {a;}
a;~2 a;
a~-
a b;~-
({});~5 <{}>;
{ const a = 1; let b; let c: T = 2, d; }~19 {const a = 1;let b;let c: T = 2;d;}
{ const a; }~-
{ const a = 1, b; }~-
{ let a, ; }~-
{ let }~-
{ function f(a: T, b = 1): U { return a; } }~20 {function f(a: T;b = 1;): U {return a;}}
{ function f() {} g(); }~12 {function f() {}call[g, ];}
{ function f(): readonly {} [] {} }~14 {function f(): readonly(type) {}}
{ function f(): readonly {} []; }~13 {function f(): readonly {}list[];}
{ function f(): readonly {} [] | readonly {} []; }~19 {function f(): type {}list[];}
{ function f(): T }~-
if (a) b;~6 if(a then b;)
if (a) b; else c;~9 if(a then b; else c;)
if (a) if (b) c; else d;~13 if(a then if(b then c; else d;))
if (a) if (b) c; else d; else e;~16 if(a then if(b then c; else d;) else e;)
if (a) { if (b) c; } else d;~15 if(a then {if(b then c;)} else d;)
if (a) while (b) if (c) d; else e;~17 if(a then while(b do if(c then d; else e;)))
if (a) b; else if (c) d; else e;~16 if(a then b; else if(c then d; else e;))
if (a) b; else~6 if(a then b;)
if (a) if (b) c; else~10 if(a then if(b then c;))
if a b;~-
while (a) b;~6 while(a do b;)
while (a) { b; break; continue; }~12 while(a do {b;break;continue;})
do a; while (b);~8 do(a; while b)
do { a; } while (b);~10 do({a;} while b)
do if (a) b; else c; while (d);~15 do(if(a then b; else c;) while d)
do a; while (b)~-
for (;;) ;~6 for(- while - then - do ;)
for (a; b; c) d;~10 for(a while b then c do d;)
for (let i = 0, n; i < n; i++) f(i);~21 for(let i = 0;n; while [i < n] then [after ++i] do call[f, i;];)
for (const a of b) c;~9 for(const a of b do c;)
for (let of of of) ;~8 for(let of of of do ;)
for (let of; ;) ;~8 for(let of; while - then - do ;)
for (let a = of; ;) ;~10 for(let a = of; while - then - do ;)
for (a of b) c;~-
for (const a; ;) ;~-
break;~-
continue;~-
return;~-
return a;~-
throw a;~3 throw a;
throw;~-
while (a) break;~6 while(a do break;)
while (a) () => { break; };~-
while (a) () => { while (b) break; };~16 while(a do [() => {while(b do break;)}];)
switch (a) {}~6 switch(a)
switch (a) { case b: c; break; default: case d => e: }~20 switch(a) case b: c;break; default:  case [(d;) => e]: 
switch (a) { case (b): c; }~13 switch(a) case <b>: c;
switch (a) { case (b): c => d: e; }~-
switch (a) { default: default: }~-
switch (a) { case b: continue; }~-
switch (a) { case b: let c; function d() {} }~18 switch(a) case b: let c;function d() {}
switch (a) { b; }~-
"#;

#[test]
fn reads_the_longest_statement(rt: HostRuntime) -> Result<(), Fail> {
    for line in STMTS.lines() {
        let (text, wanted) = row(line);
        let found = shown_stmt(rt.alloc(), text, false)?;
        assert_eq!(rt; found.as_str(), wanted, "{text}");
    }
    Ok(())
}

#[test]
fn returns_stand_in_bodies(rt: HostRuntime) -> Result<(), Fail> {
    for (text, in_body, wanted) in [
        ("return;", true, "2 return -;"),
        ("return a;", true, "3 return a;"),
        ("{ return a; }", true, "5 {return a;}"),
        ("{ return a; }", false, "-"),
        ("if (a) return;", true, "6 if(a then return -;)"),
        ("break;", true, "-"),
        (
            "{ function f() { return; } }",
            false,
            "10 {function f() {return -;}}",
        ),
    ] {
        let found = shown_stmt(rt.alloc(), text, in_body)?;
        assert_eq!(rt; found.as_str(), wanted, "{text}");
    }
    Ok(())
}

// the place behind the statement that is read, or 0
fn end_of(alloc: Global, text: &str) -> Result<usize, Fail> {
    let tokens = scan(alloc, text)?;
    match read_stmt(alloc, tokens.as_slice(), text, 0, true) {
        Ok((_, next)) => Ok(next),
        Err(ReadFault::NotDerived) => Ok(0),
        Err(ReadFault::NoMemory) => Ok(usize::MAX),
    }
}

// the same of the expression
fn end_of_expr(alloc: Global, text: &str) -> Result<usize, Fail> {
    let tokens = scan(alloc, text)?;
    match read_expr(alloc, tokens.as_slice(), text, 0) {
        Ok((_, next)) => Ok(next),
        Err(ReadFault::NotDerived) => Ok(0),
        Err(ReadFault::NoMemory) => Ok(usize::MAX),
    }
}

#[test]
fn stops_at_the_depth(rt: HostRuntime) -> Result<(), Fail> {
    for (before, text, behind, count, wanted) in [
        ("(", "1", ")", 199, 399),
        ("(", "1", ")", 200, 0),
        ("[", "1", "]", 199, 399),
        ("[", "1", "]", 200, 0),
        ("", "a", ".b", 199, 399),
        ("", "a", ".b", 200, 399),
        ("!", "a", "", 199, 200),
        ("!", "a", "", 200, 0),
        ("", "a", "+b", 199, 399),
        ("", "a", "+b", 200, 399),
        ("a=", "b", "", 199, 399),
        ("a=", "b", "", 200, 399),
        ("a=>", "b", "", 199, 399),
        ("a=>", "b", "", 200, 399),
        ("a?", "b", ":c", 199, 797),
        ("(a=", "b", ")", 99, 397),
        ("(a=", "b", ")", 100, 0),
        ("f(", "a", ")", 199, 598),
        ("f(", "a", ")", 200, 1),
    ] {
        let whole = nested(rt.alloc(), before, text, behind, count)?;
        let found = end_of_expr(rt.alloc(), whole.as_str())?;
        assert_eq!(rt; found, wanted, "{before} {behind} {count}");
    }
    for (before, text, behind, count, wanted) in [
        ("{", ";", "}", 200, 401),
        ("{", ";", "}", 201, 0),
        ("{", "a;", "}", 199, 400),
        ("{", "a;", "}", 200, 0),
        ("if(a)", ";", "", 199, 797),
        ("while(a)", ";", "", 199, 797),
        ("while(a)", ";", "", 200, 0),
        ("do ", ";", "while(a);", 199, 1195),
        ("do ", ";", "while(a);", 200, 0),
        ("for(;;)", ";", "", 200, 1001),
        ("for(;;)", ";", "", 201, 0),
    ] {
        let whole = nested(rt.alloc(), before, text, behind, count)?;
        let found = end_of(rt.alloc(), whole.as_str())?;
        assert_eq!(rt; found, wanted, "{before} {behind} {count}");
    }
    Ok(())
}
