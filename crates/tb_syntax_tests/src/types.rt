//! Tests of `tb_parse_type`.

use crate::shared::{key_text, nested, row};
use std::alloc::{AllocError, Global};
use std::rt::HostRuntime;
use std::test::Fail;
use tb_parse_type::{
    Limits, MAX_COUNT, ReadFault, Reader, read_type, type_at, type_members_at, type_params_at,
};
use tb_scan::scan;
use tb_tree::{TypeExpr, TypeKeyword, TypeMember, TypeParam};

fn keyword_text(keyword: TypeKeyword) -> &'static str {
    match keyword {
        TypeKeyword::Any => "any",
        TypeKeyword::Unknown => "unknown",
        TypeKeyword::Never => "never",
        TypeKeyword::Number => "number",
        TypeKeyword::String => "string",
        TypeKeyword::Boolean => "boolean",
        TypeKeyword::Void => "void",
        TypeKeyword::Null => "null",
        TypeKeyword::Undefined => "undefined",
    }
}

fn show_place(out: &mut String, at: usize, places: bool) -> Result<(), AllocError> {
    if places {
        write!(out, "@{at}")?;
    }
    Ok(())
}

// `name`, `array(name)`, `function(a?: name; => name)`, `object(readonly a: name; m(=> name);)`, `union(a; b;)`, each
// with its offset behind its first word where places are asked for.
#[cycle(show)]
fn show(out: &mut String, of: &TypeExpr, places: bool) -> Result<(), AllocError> {
    match of {
        TypeExpr::Keyword { at, keyword } => {
            out.push_str(keyword_text(*keyword))?;
            show_place(out, *at, places)
        }
        TypeExpr::Boolean { at, value } => {
            out.push_str(if *value { "true" } else { "false" })?;
            show_place(out, *at, places)
        }
        TypeExpr::String { at, spelled } => {
            out.push_str(spelled.as_str())?;
            show_place(out, *at, places)
        }
        TypeExpr::Integer { at, minus, digits } => {
            out.push_str(if *minus { "-" } else { "" })?;
            out.push_str(digits.as_str())?;
            show_place(out, *at, places)
        }
        TypeExpr::Written { at, name, .. } => {
            out.push_str(name.as_str())?;
            show_place(out, *at, places)
        }
        TypeExpr::Array {
            at,
            read_only,
            element,
        } => {
            out.push_str(if *read_only { "readonly" } else { "array" })?;
            show_place(out, *at, places)?;
            out.push_str("(")?;
            show(out, element.get(), places)?;
            out.push_str(")")
        }
        TypeExpr::Function {
            at,
            params,
            result: answer,
        } => {
            out.push_str("function")?;
            show_place(out, *at, places)?;
            show_params(out, params.as_slice(), places)?;
            show(out, answer.get(), places)?;
            out.push_str(")")
        }
        TypeExpr::Object { at, members } => {
            out.push_str("object")?;
            show_place(out, *at, places)?;
            out.push_str("(")?;
            for member in members.as_slice() {
                show_member(out, member, places)?;
            }
            out.push_str(")")
        }
        TypeExpr::Union { at, parts } => {
            out.push_str("union")?;
            show_place(out, *at, places)?;
            out.push_str("(")?;
            for part in parts.as_slice() {
                show(out, part, places)?;
                out.push_str(";")?;
            }
            out.push_str(")")
        }
        _ => out.push_str("?"),
    }
}

#[cycle(show)]
fn show_params(out: &mut String, params: &[TypeParam], places: bool) -> Result<(), AllocError> {
    out.push_str("(")?;
    for param in params {
        out.push_str(param.name.as_str())?;
        show_place(out, param.at, places)?;
        out.push_str(if param.optional { "?: " } else { ": " })?;
        show(out, param.shape.get(), places)?;
        out.push_str("; ")?;
    }
    out.push_str("=> ")
}

#[cycle(show)]
fn show_member(out: &mut String, of: &TypeMember, places: bool) -> Result<(), AllocError> {
    match of {
        TypeMember::Property {
            at,
            read_only,
            key,
            optional,
            shape,
        } => {
            out.push_str(if *read_only { "readonly " } else { "" })?;
            out.push_str(key_text(key))?;
            show_place(out, *at, places)?;
            out.push_str(if *optional { "?: " } else { ": " })?;
            show(out, shape.get(), places)?;
        }
        TypeMember::Method {
            at,
            key,
            optional,
            params,
            result: answer,
        } => {
            out.push_str(key_text(key))?;
            show_place(out, *at, places)?;
            out.push_str(if *optional { "?" } else { "" })?;
            show_params(out, params.as_slice(), places)?;
            show(out, answer.get(), places)?;
            out.push_str(")")?;
        }
    }
    out.push_str(";")
}

// How many places the type at a place takes, and the type; or `-`.
fn shown(alloc: Global, text: &str, at: usize, places: bool) -> Result<String, Fail> {
    let tokens = scan(alloc, text)?;
    let mut out = String::new(alloc);
    if at > tokens.as_slice().len() {
        return Ok(out);
    }
    match read_type(alloc, tokens.as_slice(), text, at) {
        Ok((of, next)) => {
            write!(out, "{next} ")?;
            show(&mut out, &of, places)?;
        }
        Err(ReadFault::NotDerived) => out.push_str("-")?,
        Err(ReadFault::NoMemory) => out.push_str("?")?,
    }
    Ok(out)
}

// A text and what is read of it, with a `~` between.
const ROWS: &str =
    r#"any | unknown | never | number | string | boolean | void | null | undefined | true | false~21 union(any;unknown;never;number;string;boolean;void;null;undefined;true;false;)
A~1 A
as~1 as
'x'~1 'x'
"x\"y"~1 "x\"y"
-1~2 -1
- 12~2 -12
-0~-
0~1 0
123456789012345~1 123456789012345
1234567890123456~-
-123456789012345~2 -123456789012345
-1234567890123456~-
01~-
1.5~-
1e3~-
0x1~-
+1~-
`a`~-
class~-
typeof a~-
number[]~3 array(number)
a[][]~5 array(array(a))
readonly a[][]~6 readonly(array(a))
readonly~1 readonly
readonly a~1 readonly
readonly[]~3 array(readonly)
readonly readonly[]~4 readonly(readonly)
readonly { a: b }[]~8 readonly(object(a: b;))
readonly { a: b }~1 readonly
readonly (a | b)[]~8 readonly(union(a;b;))
| a~2 a
| a | b~4 union(a;b;)
| | a~-
a |~1 a
a | | b~1 a
a || b~1 a
(a | b) | c~7 union(a;b;c;)
a | (b | (| c | d))~12 union(a;b;c;d;)
(a | b)[] | c~9 union(array(union(a;b;));c;)
((a))~5 a
(() => a)[]~8 array(function(=> a))
a | (() => b)~8 union(a;function(=> b);)
() => a | b~6 function(=> union(a;b;))
a | () => b~1 a
(a?: T, b: U,) => R~13 function(a?: T; b: U; => R)
(any: any, readonly?: readonly) => void~12 function(any: any; readonly?: readonly; => void)
(a: b) => (c: d) => e~13 function(a: b; => function(c: d; => e))
(a) => b~3 a
(a: b)~-
()~-
(a, b)~-
(, ) => a~-
(class: a) => b~-
(a: b) c~-
{}~2 object()
{ a: b }~5 object(a: b;)
{ a: b; }~6 object(a: b;)
{ a: b, c: d; }~10 object(a: b;c: d;)
{ ; }~-
{ a: b;; }~-
{ a: b c: d }~-
{ readonly: number }~5 object(readonly: number;)
{ readonly readonly: T; "k"?: T, m?(): R }~18 object(readonly readonly: T;"k"?: T;m?(=> R);)
{ readonly?: a; readonly(): b; 'x'(c: d): e }~21 object(readonly?: a;readonly(=> b);'x'(c: d; => e);)
{ readonly "k"?: a }~7 object(readonly "k"?: a;)
{ readonly m(): a }~-
{ class: a }~5 object(class: a;)
{ 1: a }~-
{ a }~-
{ a: }~-
{ m() }~-
{ m(b): c }~-
{ a: b~-
{ a: { b: c }[]; d: (e: f) => g }~21 object(a: array(object(b: c;));d: function(e: f; => g);)
{ a: readonly b[] }~8 object(a: readonly(b);)
number[~1 number
number[1]~1 number
a.b~1 a
a<b>~1 a
a b~1 a
]~-
"#;

#[test]
fn reads_the_longest_front(rt: HostRuntime) -> Result<(), Fail> {
    for line in ROWS.lines() {
        let (text, wanted) = row(line);
        let found = shown(rt.alloc(), text, 0, false)?;
        assert_eq!(rt; found.as_str(), wanted, "{text}");
    }
    Ok(())
}

#[test]
fn reads_at_a_place(rt: HostRuntime) -> Result<(), Fail> {
    for (text, at, wanted) in [
        ("a: number[] = 1", 2, "5 array(number)"),
        ("a: number[] = 1", 1, "-"),
        ("a", 1, "-"),
        ("", 0, "-"),
    ] {
        let found = shown(rt.alloc(), text, at, false)?;
        assert_eq!(rt; found.as_str(), wanted, "{text}");
    }
    Ok(())
}

#[test]
fn tells_where_each_begins(rt: HostRuntime) -> Result<(), Fail> {
    for (text, wanted) in [
        (" any", "1 any@1"),
        (" ( a )[]", "5 array@1(a@3)"),
        ("| a | -1", "5 union@2(a@2;-1@6;)"),
        ("readonly 'x'[][]", "6 readonly@0(array@9('x'@9))"),
        (" (a?: b) => c", "8 function@1(a@2?: b@6; => c@12)"),
        (
            "{ readonly a: 1; \"m\"(): true }",
            "12 object@0(readonly a@11: 1@14;\"m\"@17(=> true@24);)",
        ),
        ("(a | b) | c", "7 union@0(a@1;b@5;c@10;)"),
    ] {
        let found = shown(rt.alloc(), text, 0, true)?;
        assert_eq!(rt; found.as_str(), wanted, "{text}");
    }
    Ok(())
}

// the place behind the type that is read, or 0
fn end_of(alloc: Global, text: &str) -> Result<usize, Fail> {
    let tokens = scan(alloc, text)?;
    match read_type(alloc, tokens.as_slice(), text, 0) {
        Ok((_, next)) => Ok(next),
        Err(ReadFault::NotDerived) => Ok(0),
        Err(ReadFault::NoMemory) => Ok(usize::MAX),
    }
}

#[test]
fn stops_at_the_count(rt: HostRuntime) -> Result<(), Fail> {
    for (before, text, behind, count, wanted) in [
        ("", "a", "[]", 199, 399),
        ("", "a", "[]", 200, 399),
        ("", "a", "[]", 250, 399),
        ("(", "a", ")", 198, 397),
        ("(", "a", ")", 199, 399),
        ("(", "a", ")", 200, 0),
        ("(1|", "1", ")", 198, 793),
        ("(1|", "1", ")", 199, 0),
        ("{a:", "b", "}", 199, 797),
        ("{a:", "b", "}", 200, 0),
        ("()=>", "a", "", 199, 598),
        ("()=>", "a", "", 200, 0),
        ("(a:", "b", ")=>c", 199, 1195),
        ("(a:", "b", ")=>c", 200, 0),
    ] {
        let whole = nested(rt.alloc(), before, text, behind, count)?;
        let found = end_of(rt.alloc(), whole.as_str())?;
        assert_eq!(rt; found, wanted, "{before} {count}");
    }
    for (count, wanted) in [(198, 795), (199, 1)] {
        let inner = nested(rt.alloc(), "(1|", "1", ")", count)?;
        let mut whole = String::from_str(rt.alloc(), "1|")?;
        whole.push_str(inner.as_str())?;
        let found = end_of(rt.alloc(), whole.as_str())?;
        assert_eq!(rt; found, wanted, "{count}");
    }
    Ok(())
}

// the place behind what is read, its own count and its depth
fn counted(alloc: Global, text: &str, limits: Limits) -> Result<String, Fail> {
    let tokens = scan(alloc, text)?;
    let reader = Reader {
        alloc,
        tokens: tokens.as_slice(),
        text,
    };
    match type_at(reader, 0, limits)? {
        Some(read) => {
            let next = read.next;
            let own = read.own;
            let depth = read.depth;
            Ok(format!(in alloc; "{next} {own} {depth}")?)
        }
        None => Ok(String::from_str(alloc, "-")?),
    }
}

#[test]
fn reads_within_both_limits(rt: HostRuntime) -> Result<(), Fail> {
    for (text, own, depth, wanted) in [
        ("((a))", 200, 1, "5 3 1"),
        ("((a))", 2, 200, "-"),
        ("a", 200, 0, "-"),
        ("a", 0, 200, "-"),
        ("a[][]", 200, 2, "3 2 2"),
        ("a[][]", 2, 200, "3 2 2"),
        ("readonly a[][]", 200, 2, "4 2 2"),
        ("a|b", 200, 2, "3 2 2"),
        ("a|b", 200, 1, "1 1 1"),
        ("a|b", 1, 200, "1 1 1"),
        ("(a|b)|c", 200, 2, "7 3 2"),
        ("(a|b)|c", 3, 200, "7 3 2"),
        ("a|b[]", 200, 2, "3 2 2"),
        ("a|(b[])", 200, 2, "1 1 1"),
        ("{a:b}", 200, 2, "5 2 2"),
        ("{a:b}", 200, 1, "-"),
        ("()=>(a)", 200, 2, "6 3 2"),
        ("()=>(a)", 2, 200, "-"),
        ("()=>a", 200, 1, "-"),
    ] {
        let found = counted(rt.alloc(), text, Limits { own, depth })?;
        assert_eq!(rt; found.as_str(), wanted, "{text} {own} {depth}");
    }
    Ok(())
}

#[test]
fn reads_members_and_parameters_alone(rt: HostRuntime) -> Result<(), Fail> {
    let alloc = rt.alloc();
    let limits = Limits {
        own: MAX_COUNT,
        depth: MAX_COUNT,
    };
    for (text, count, next) in [("a: b; c(): d }", 2, 9), ("}", 0, 0)] {
        let tokens = scan(alloc, text)?;
        let reader = Reader {
            alloc,
            tokens: tokens.as_slice(),
            text,
        };
        let read = type_members_at(reader, 0, limits)?;
        assert_eq!(rt; read.tree.as_slice().len(), count, "{text}");
        assert_eq!(rt; read.next, next, "{text}");
    }
    for (text, count, next) in [("a: b, c?: d[],)", 2, 11), (")", 0, 0)] {
        let tokens = scan(alloc, text)?;
        let reader = Reader {
            alloc,
            tokens: tokens.as_slice(),
            text,
        };
        let read = type_params_at(reader, 0, limits)?;
        assert_eq!(rt; read.tree.as_slice().len(), count, "{text}");
        assert_eq!(rt; read.next, next, "{text}");
    }
    Ok(())
}
