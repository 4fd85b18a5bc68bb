//! Tests of `tb_emit_js`.

use crate::shared::nested;
use sqlite_items::{Boxed, Items};
use std::alloc::{AllocError, Global};
use std::rt::HostRuntime;
use std::test::Fail;
use tb_emit_js::js;
use tb_parse_file::{FileFault, read_file};
use tb_text::{Name, NoMemory, Text};
use tb_tree::{
    Alias, ArrowBody, BinaryOperator, Block, BlockItem, ClassDeclaration, ClassMember, Clause,
    Declaration, Declarator, ExportList, Expr, File, ForStart, Function, Identifier, Import,
    Interface, Item, Key, Param, Prop, Spec, Specifier, Stmt, TemplateSpan, TypeExpr,
    UnaryOperator, UpdateOperator, Var, VarKind,
};

fn name(alloc: Global, text: &str) -> Result<Name, NoMemory> {
    Name::copy_of(alloc, text)
}

fn expr(alloc: Global, text: &str) -> Result<Boxed<Expr>, NoMemory> {
    let expr = Expr::Name {
        at: 0,
        name: name(alloc, text)?,
    };
    Ok(Boxed::new(alloc, expr)?)
}

fn unary(
    alloc: Global,
    operator: UnaryOperator,
    operand: Boxed<Expr>,
) -> Result<Boxed<Expr>, NoMemory> {
    let expr = Expr::Unary {
        at: 0,
        operator,
        operand,
    };
    Ok(Boxed::new(alloc, expr)?)
}

fn update(
    alloc: Global,
    operator: UpdateOperator,
    before: bool,
    text: &str,
) -> Result<Boxed<Expr>, NoMemory> {
    let target = expr(alloc, text)?;
    let expr = Expr::Update {
        at: 0,
        operator,
        before,
        target,
    };
    Ok(Boxed::new(alloc, expr)?)
}

// `text;`
fn named(alloc: Global, text: &str) -> Result<Boxed<Stmt>, NoMemory> {
    let value = expr(alloc, text)?;
    Ok(Boxed::new(alloc, Stmt::Expr { at: 0, value })?)
}

// `{ }`, or a block with `text;` in it
fn block(alloc: Global, text: Option<&str>) -> Result<Block, NoMemory> {
    let mut items = Items::new(alloc);
    if let Some(text) = text {
        items.push(BlockItem::Stmt(named(alloc, text)?))?;
    }
    Ok(Block { at: 0, items })
}

fn boxed_block(alloc: Global, text: Option<&str>) -> Result<Boxed<Stmt>, NoMemory> {
    let block = Boxed::new(alloc, block(alloc, text)?)?;
    Ok(Boxed::new(alloc, Stmt::Block(block))?)
}

// `let text = value;`
fn var(alloc: Global, text: &str, value: Boxed<Expr>) -> Result<Var, NoMemory> {
    let mut declarators = Items::new(alloc);
    declarators.push(Declarator {
        at: 0,
        name: name(alloc, text)?,
        annotation: None,
        value: Some(value),
    })?;
    Ok(Var {
        kind: VarKind::Let,
        declarators,
    })
}

fn params(alloc: Global, text: &str) -> Result<Items<Param>, NoMemory> {
    let mut params = Items::new(alloc);
    params.push(Param {
        at: 0,
        name: name(alloc, text)?,
        optional: true,
        annotation: None,
        value: None,
    })?;
    params.push(Param {
        at: 0,
        name: name(alloc, "z")?,
        optional: false,
        annotation: None,
        value: Some(expr(alloc, "y")?),
    })?;
    Ok(params)
}

fn one(alloc: Global, item: Item) -> Result<Text, NoMemory> {
    let mut items = Items::new(alloc);
    items.push(item)?;
    js(alloc, &File { items })
}

fn value(alloc: Global, of: Boxed<Expr>) -> Result<Text, NoMemory> {
    one(alloc, Item::Stmt(Stmt::Expr { at: 0, value: of }))
}

// A statement in a block: what a function owns is what its check grows with, so that statements are owned boxed.
fn statement(alloc: Global, of: Boxed<Stmt>) -> Result<Text, NoMemory> {
    let mut items = Items::new(alloc);
    items.push(BlockItem::Stmt(of))?;
    let block = Boxed::new(alloc, Block { at: 0, items })?;
    one(alloc, Item::Stmt(Stmt::Block(block)))
}

fn empty(alloc: Global) -> Result<Boxed<Stmt>, NoMemory> {
    Ok(Boxed::new(alloc, Stmt::Empty { at: 0 })?)
}

// `if (text) chosen else otherwise`
fn branch(
    alloc: Global,
    text: &str,
    chosen: Boxed<Stmt>,
    otherwise: Option<Boxed<Stmt>>,
) -> Result<Boxed<Stmt>, NoMemory> {
    let condition = expr(alloc, text)?;
    let branch = Stmt::If {
        at: 0,
        condition,
        then: chosen,
        otherwise,
    };
    Ok(Boxed::new(alloc, branch)?)
}

#[test]
fn lays_out_operators(rt: HostRuntime) -> Result<(), Fail> {
    let alloc = rt.alloc();
    let minus = unary(alloc, UnaryOperator::Minus, expr(alloc, "a")?)?;
    let twice = value(alloc, unary(alloc, UnaryOperator::Minus, minus)?)?;
    assert_eq!(rt; twice.as_slice(), b"- -a;\nexport {};\n".as_slice());
    let less = update(alloc, UpdateOperator::Decrement, true, "a")?;
    let less = value(alloc, unary(alloc, UnaryOperator::Minus, less)?)?;
    assert_eq!(rt; less.as_slice(), b"- --a;\nexport {};\n".as_slice());
    let more = update(alloc, UpdateOperator::Increment, true, "a")?;
    let more = value(alloc, unary(alloc, UnaryOperator::Minus, more)?)?;
    assert_eq!(rt; more.as_slice(), b"-++a;\nexport {};\n".as_slice());
    let plus = update(alloc, UpdateOperator::Increment, true, "a")?;
    let plus = value(alloc, unary(alloc, UnaryOperator::Plus, plus)?)?;
    assert_eq!(rt; plus.as_slice(), b"+ ++a;\nexport {};\n".as_slice());
    let not = unary(alloc, UnaryOperator::Not, expr(alloc, "a")?)?;
    let kind = value(alloc, unary(alloc, UnaryOperator::Typeof, not)?)?;
    assert_eq!(rt; kind.as_slice(), b"typeof !a;\nexport {};\n".as_slice());
    let right = unary(alloc, UnaryOperator::Minus, expr(alloc, "b")?)?;
    let left = expr(alloc, "a")?;
    let binary = Expr::Binary {
        at: 0,
        left,
        operator: BinaryOperator::Minus,
        right,
    };
    let binary = value(alloc, Boxed::new(alloc, binary)?)?;
    assert_eq!(rt; binary.as_slice(), b"a - -b;\nexport {};\n".as_slice());
    Ok(())
}

#[test]
fn lays_out_branches(rt: HostRuntime) -> Result<(), Fail> {
    let alloc = rt.alloc();
    let inner = branch(alloc, "b", empty(alloc)?, None)?;
    let chosen = boxed_block(alloc, Some("x"))?;
    let text = statement(alloc, branch(alloc, "a", chosen, Some(inner))?)?;
    assert_eq!(rt;
        text.as_slice(),
        b"{\n    if (a) {\n        x;\n    }\n    else\n        if (b)\n            ;\n}\nexport {};\n".as_slice()
    );
    let otherwise = boxed_block(alloc, None)?;
    let text = statement(
        alloc,
        branch(alloc, "a", named(alloc, "x")?, Some(otherwise))?,
    )?;
    assert_eq!(rt;
        text.as_slice(),
        b"{\n    if (a)\n        x;\n    else { }\n}\nexport {};\n".as_slice()
    );
    Ok(())
}

#[test]
fn lays_out_loops(rt: HostRuntime) -> Result<(), Fail> {
    let alloc = rt.alloc();
    let text = one(
        alloc,
        Item::Stmt(Stmt::While {
            at: 0,
            condition: expr(alloc, "a")?,
            body: boxed_block(alloc, Some("x"))?,
        }),
    )?;
    assert_eq!(rt;
        text.as_slice(),
        b"while (a) {\n    x;\n}\nexport {};\n".as_slice()
    );
    let text = one(
        alloc,
        Item::Stmt(Stmt::Do {
            at: 0,
            body: boxed_block(alloc, Some("x"))?,
            condition: expr(alloc, "a")?,
        }),
    )?;
    assert_eq!(rt;
        text.as_slice(),
        b"do {\n    x;\n}\nwhile (a);\nexport {};\n".as_slice()
    );
    let text = one(
        alloc,
        Item::Stmt(Stmt::For {
            at: 0,
            start: ForStart::Nothing,
            condition: None,
            update: None,
            body: named(alloc, "x")?,
        }),
    )?;
    assert_eq!(rt;
        text.as_slice(),
        b"for (;;)\n    x;\nexport {};\n".as_slice()
    );
    let start = Boxed::new(alloc, var(alloc, "i", expr(alloc, "a")?)?)?;
    let condition = expr(alloc, "b")?;
    let step = update(alloc, UpdateOperator::Increment, false, "i")?;
    let body = boxed_block(alloc, None)?;
    let text = one(
        alloc,
        Item::Stmt(Stmt::For {
            at: 0,
            start: ForStart::Var(start),
            condition: Some(condition),
            update: Some(step),
            body,
        }),
    )?;
    assert_eq!(rt;
        text.as_slice(),
        b"for (let i = a; b; i++) { }\nexport {};\n".as_slice()
    );
    let text = one(
        alloc,
        Item::Stmt(Stmt::ForOf {
            at: 0,
            kind: VarKind::Const,
            element: Identifier {
                at: 0,
                name: name(alloc, "x")?,
            },
            subject: expr(alloc, "xs")?,
            body: named(alloc, "x")?,
        }),
    )?;
    assert_eq!(rt;
        text.as_slice(),
        b"for (const x of xs)\n    x;\nexport {};\n".as_slice()
    );
    Ok(())
}

#[test]
fn lays_out_leaps(rt: HostRuntime) -> Result<(), Fail> {
    let alloc = rt.alloc();
    let value = expr(alloc, "a")?;
    let text = one(alloc, Item::Stmt(Stmt::Throw { at: 0, value }))?;
    assert_eq!(rt; text.as_slice(), b"throw a;\nexport {};\n".as_slice());
    let text = one(alloc, Item::Stmt(Stmt::Return { at: 0, value: None }))?;
    assert_eq!(rt; text.as_slice(), b"return;\nexport {};\n".as_slice());
    let body = Boxed::new(alloc, Stmt::Continue { at: 0 })?;
    let condition = expr(alloc, "a")?;
    let text = one(
        alloc,
        Item::Stmt(Stmt::While {
            at: 0,
            condition,
            body,
        }),
    )?;
    assert_eq!(rt;
        text.as_slice(),
        b"while (a)\n    continue;\nexport {};\n".as_slice()
    );
    Ok(())
}

#[test]
fn lays_out_switches(rt: HostRuntime) -> Result<(), Fail> {
    let alloc = rt.alloc();
    let empty = one(
        alloc,
        Item::Stmt(Stmt::Switch {
            at: 0,
            subject: expr(alloc, "a")?,
            clauses: Items::new(alloc),
        }),
    )?;
    assert_eq!(rt;
        empty.as_slice(),
        b"switch (a) {\n}\nexport {};\n".as_slice()
    );
    let mut items = Items::new(alloc);
    items.push(BlockItem::Stmt(named(alloc, "x")?))?;
    items.push(BlockItem::Stmt(Boxed::new(alloc, Stmt::Break { at: 0 })?))?;
    let mut others = Items::new(alloc);
    others.push(BlockItem::Stmt(boxed_block(alloc, None)?))?;
    let mut clauses = Items::new(alloc);
    clauses.push(Clause::Case {
        at: 0,
        value: expr(alloc, "b")?,
        items,
    })?;
    clauses.push(Clause::Default {
        at: 0,
        items: others,
    })?;
    let text = one(
        alloc,
        Item::Stmt(Stmt::Switch {
            at: 0,
            subject: expr(alloc, "a")?,
            clauses,
        }),
    )?;
    assert_eq!(rt;
        text.as_slice(),
        b"switch (a) {\n    case b:\n        x;\n        break;\n    default:\n        { }\n}\nexport {};\n".as_slice()
    );
    Ok(())
}

#[test]
fn lays_out_functions(rt: HostRuntime) -> Result<(), Fail> {
    let alloc = rt.alloc();
    let body = Boxed::new(alloc, block(alloc, Some("x"))?)?;
    let params_of_arrow = params(alloc, "a")?;
    let arrow = Expr::Arrow {
        at: 0,
        params: params_of_arrow,
        result: None,
        body: ArrowBody::Block(body),
    };
    let arrow = Boxed::new(alloc, arrow)?;
    let returned = Stmt::Return {
        at: 0,
        value: Some(arrow),
    };
    let mut items = Items::new(alloc);
    items.push(BlockItem::Stmt(Boxed::new(alloc, returned)?))?;
    let function = Function {
        at: 0,
        name: name(alloc, "f")?,
        variables: Items::new(alloc),
        params: params(alloc, "b")?,
        result: None,
        body: Boxed::new(alloc, Block { at: 0, items })?,
    };
    let text = one(
        alloc,
        Item::Declaration {
            exported: true,
            declaration: Declaration::Function(function),
        },
    )?;
    assert_eq!(rt;
        text.as_slice(),
        b"export function f(b, z = y) {\n    return (a, z = y) => {\n        x;\n    };\n}\n".as_slice()
    );
    Ok(())
}

#[test]
fn lays_out_values(rt: HostRuntime) -> Result<(), Fail> {
    let alloc = rt.alloc();
    let mut spans = Items::new(alloc);
    spans.push(TemplateSpan {
        value: expr(alloc, "a")?,
        text: name(alloc, "}!`")?,
    })?;
    let head = name(alloc, "`n ${")?;
    let template = Expr::Template { at: 0, head, spans };
    let template = Boxed::new(alloc, template)?;
    let key = name(alloc, "'k'")?;
    let mut props = Items::new(alloc);
    props.push(Prop::Valued {
        at: 0,
        key: Key::String(key),
        value: template,
    })?;
    props.push(Prop::Short {
        at: 0,
        name: name(alloc, "b")?,
    })?;
    let mut elements = Items::new(alloc);
    elements.push(Expr::Object { at: 0, props })?;
    elements.push(Expr::Object {
        at: 0,
        props: Items::new(alloc),
    })?;
    let text = value(alloc, Boxed::new(alloc, Expr::Array { at: 0, elements })?)?;
    assert_eq!(rt;
        text.as_slice(),
        b"[{ 'k': `n ${a}!`, b }, {}];\nexport {};\n".as_slice()
    );
    Ok(())
}

#[test]
fn lays_out_classes(rt: HostRuntime) -> Result<(), Fail> {
    let alloc = rt.alloc();
    let empty = one(
        alloc,
        Item::Declaration {
            exported: false,
            declaration: Declaration::Class(ClassDeclaration {
                at: 0,
                name: name(alloc, "C")?,
                implements: Items::new(alloc),
                members: Items::new(alloc),
            }),
        },
    )?;
    assert_eq!(rt; empty.as_slice(), b"class C {\n}\nexport {};\n".as_slice());
    let mut members = Items::new(alloc);
    members.push(ClassMember::Field {
        at: 0,
        is_static: true,
        read_only: true,
        name: name(alloc, "a")?,
        optional: false,
        annotation: None,
        value: Some(Expr::Boolean { at: 0, value: true }),
    })?;
    members.push(ClassMember::Constructor {
        at: 0,
        params: Items::new(alloc),
        body: block(alloc, None)?,
    })?;
    members.push(ClassMember::Method {
        at: 0,
        is_static: false,
        name: name(alloc, "m")?,
        params: params(alloc, "b")?,
        result: None,
        body: block(alloc, Some("x"))?,
    })?;
    let text = one(
        alloc,
        Item::Declaration {
            exported: true,
            declaration: Declaration::Class(ClassDeclaration {
                at: 0,
                name: name(alloc, "C")?,
                implements: Items::new(alloc),
                members,
            }),
        },
    )?;
    assert_eq!(rt;
        text.as_slice(),
        b"export class C {\n    static a = true;\n    constructor() { }\n    m(b, z = y) {\n        x;\n    }\n}\n".as_slice()
    );
    Ok(())
}

#[test]
fn lays_out_declarations(rt: HostRuntime) -> Result<(), Fail> {
    let alloc = rt.alloc();
    let var = var(alloc, "i", expr(alloc, "a")?)?;
    let text = one(
        alloc,
        Item::Declaration {
            exported: true,
            declaration: Declaration::Var(var),
        },
    )?;
    assert_eq!(rt; text.as_slice(), b"export let i = a;\n".as_slice());
    let interface = Interface {
        at: 0,
        name: name(alloc, "I")?,
        variables: Items::new(alloc),
        extends: Items::new(alloc),
        members: Items::new(alloc),
    };
    let text = one(
        alloc,
        Item::Declaration {
            exported: true,
            declaration: Declaration::Interface(interface),
        },
    )?;
    assert_eq!(rt; text.as_slice(), b"export {};\n".as_slice());
    let alias = Alias {
        at: 0,
        name: name(alloc, "A")?,
        variables: Items::new(alloc),
        shape: TypeExpr::Boolean { at: 0, value: true },
    };
    let text = one(
        alloc,
        Item::Declaration {
            exported: false,
            declaration: Declaration::Alias(alias),
        },
    )?;
    assert_eq!(rt; text.as_slice(), b"export {};\n".as_slice());
    Ok(())
}

fn specs(alloc: Global, typed: bool) -> Result<Items<Spec>, NoMemory> {
    let mut specs = Items::new(alloc);
    specs.push(Spec {
        at: 0,
        type_only: true,
        name: Identifier {
            at: 0,
            name: name(alloc, "T")?,
        },
        renamed: None,
    })?;
    specs.push(Spec {
        at: 0,
        type_only: typed,
        name: Identifier {
            at: 0,
            name: name(alloc, "a")?,
        },
        renamed: Some(Identifier {
            at: 0,
            name: name(alloc, "b")?,
        }),
    })?;
    Ok(specs)
}

fn import(alloc: Global, type_only: bool, typed: bool) -> Result<Item, NoMemory> {
    Ok(Item::Import(Import::List {
        at: 0,
        type_only,
        specs: specs(alloc, typed)?,
        from: Specifier {
            at: 0,
            spelled: name(alloc, "'./m'")?,
        },
    }))
}

fn list(alloc: Global, typed: bool, from: bool) -> Result<Item, NoMemory> {
    let mut origin = None;
    if from {
        origin = Some(Specifier {
            at: 0,
            spelled: name(alloc, "'./m'")?,
        });
    }
    Ok(Item::ExportList(ExportList {
        at: 0,
        type_only: false,
        specs: specs(alloc, typed)?,
        from: origin,
    }))
}

#[test]
fn lays_out_imports_and_exports(rt: HostRuntime) -> Result<(), Fail> {
    let alloc = rt.alloc();
    let text = one(alloc, import(alloc, false, false)?)?;
    assert_eq!(rt;
        text.as_slice(),
        b"import { a as b } from './m';\n".as_slice()
    );
    let text = one(alloc, import(alloc, false, true)?)?;
    assert_eq!(rt; text.as_slice(), b"import {} from './m';\n".as_slice());
    let from = Specifier {
        at: 0,
        spelled: name(alloc, "'./m'")?,
    };
    let text = one(alloc, Item::Import(Import::Bare { at: 0, from }))?;
    assert_eq!(rt; text.as_slice(), b"import './m';\n".as_slice());
    let text = one(alloc, import(alloc, true, false)?)?;
    assert_eq!(rt; text.as_slice(), b"export {};\n".as_slice());
    let text = one(alloc, list(alloc, false, false)?)?;
    assert_eq!(rt; text.as_slice(), b"export { a as b };\n".as_slice());
    let text = one(alloc, list(alloc, true, false)?)?;
    assert_eq!(rt; text.as_slice(), b"export {};\n".as_slice());
    let text = one(alloc, list(alloc, true, true)?)?;
    assert_eq!(rt; text.as_slice(), b"export {} from './m';\n".as_slice());
    Ok(())
}

// A file that was read is owned by a function of its own: what a function owns is what its check grows with.
fn js_of(alloc: Global, file: File) -> Result<Text, NoMemory> {
    js(alloc, &file)
}

fn js_of_text(alloc: Global, text: &str) -> Result<Text, FileFault> {
    let file = read_file(alloc, text.as_bytes())?;
    Ok(js_of(alloc, file)?)
}

fn put_lines(out: &mut String, margin: &str, lines: &str) -> Result<(), AllocError> {
    for line in lines.lines() {
        out.push_str(margin)?;
        out.push_str(line)?;
        out.push_str("\n")?;
    }
    Ok(())
}

// So many times some lines, a line, and so many times others, each time one margin further inside.
fn nested_lines(
    alloc: Global,
    margin: &str,
    before: &str,
    line: &str,
    behind: &str,
    count: usize,
) -> Result<String, AllocError> {
    let mut out = String::new(alloc);
    for n in 0..count {
        put_lines(&mut out, margin.repeat(alloc, n)?.as_str(), before)?;
    }
    put_lines(&mut out, margin.repeat(alloc, count)?.as_str(), line)?;
    for n in (0..count).rev() {
        put_lines(&mut out, margin.repeat(alloc, n)?.as_str(), behind)?;
    }
    out.push_str("export {};\n")?;
    Ok(out)
}

// What stands so many times round a statement, that statement, and the lines of each.
const DEEP: [(&str, &str, &str, usize, &str, &str, &str); 4] = [
    ("{", "a;", "}", 199, "    ", "{", "}"),
    ("{", ";", "}", 200, "    ", "{", "}"),
    ("while(a)", "a;", "", 199, "    ", "while (a)", ""),
    (
        "switch(a){default:",
        "a;",
        "}",
        199,
        "        ",
        "switch (a) {\n    default:",
        "}",
    ),
];

#[test]
fn lays_out_the_deepest_items(rt: HostRuntime) -> Result<(), Fail> {
    let alloc = rt.alloc();
    for (before, text, behind, count, margin, first, last) in DEEP {
        let source = nested(alloc, before, text, behind, count)?;
        let found = js_of_text(alloc, source.as_str())?;
        let wanted = nested_lines(alloc, margin, first, text, last, count)?;
        assert!(rt; found.as_slice() == wanted.as_bytes(), "{before}");
    }
    Ok(())
}
