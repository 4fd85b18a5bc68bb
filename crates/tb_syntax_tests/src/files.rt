//! Tests of `tb_parse_file`.

use crate::shared::{nested, row};
use std::alloc::{AllocError, Global};
use std::rt::HostRuntime;
use std::test::Fail;
use tb_parse_file::{FileFault, NO_ITEM, NO_TEXT, read_file};
use tb_text::Finding;
use tb_tree::{Declaration, File, Import, Item, Spec, Specifier};

// `type a as b`
fn show_spec(out: &mut String, of: &Spec) -> Result<(), AllocError> {
    if of.type_only {
        out.push_str("type ")?;
    }
    out.push_str(of.name.name.as_str())?;
    match &of.renamed {
        Some(renamed) => {
            out.push_str(" as ")?;
            out.push_str(renamed.name.as_str())
        }
        None => Ok(()),
    }
}

// `type {a, b} "m"`
fn show_list(
    out: &mut String,
    type_only: bool,
    specs: &[Spec],
    from: Option<&Specifier>,
) -> Result<(), AllocError> {
    if type_only {
        out.push_str("type ")?;
    }
    out.push_str("{")?;
    let mut before = "";
    for spec in specs {
        out.push_str(before)?;
        show_spec(out, spec)?;
        before = ", ";
    }
    out.push_str("}")?;
    match from {
        Some(from) => {
            out.push_str(" ")?;
            out.push_str(from.spelled.as_str())
        }
        None => Ok(()),
    }
}

fn show_import(out: &mut String, of: &Import) -> Result<(), AllocError> {
    match of {
        Import::List {
            type_only,
            specs,
            from,
            ..
        } => show_list(out, *type_only, specs.as_slice(), Some(from)),
        Import::Bare { from, .. } => out.push_str(from.spelled.as_str()),
    }
}

fn kind_of(of: &Declaration) -> &'static str {
    match of {
        Declaration::Var(_) => "var",
        Declaration::Function(_) => "function",
        Declaration::Class(_) => "class",
        Declaration::Interface(_) => "interface",
        Declaration::Alias(_) => "alias",
    }
}

// `import {a} "m";`, `export {a};`, `export var;`, `stmt;`
fn show_item(out: &mut String, of: &Item) -> Result<(), AllocError> {
    match of {
        Item::Import(import) => {
            out.push_str("import ")?;
            show_import(out, import)?;
        }
        Item::ExportList(list) => {
            out.push_str("export ")?;
            show_list(
                out,
                list.type_only,
                list.specs.as_slice(),
                list.from.as_ref(),
            )?;
        }
        Item::Declaration {
            exported,
            declaration,
        } => {
            out.push_str(if *exported { "export " } else { "" })?;
            out.push_str(kind_of(declaration))?;
        }
        Item::Stmt(_) => out.push_str("stmt")?,
    }
    out.push_str(";")
}

fn show_items(out: &mut String, items: &[Item]) -> Result<(), AllocError> {
    for of in items {
        show_item(out, of)?;
    }
    Ok(())
}

// A file that was read is owned by a function of its own: what a function owns is what its check grows with.
fn show_file(out: &mut String, file: File) -> Result<(), AllocError> {
    show_items(out, file.items.as_slice())
}

// Whether a finding has this number and this offset, and no arguments.
fn is_finding(of: &Finding, number: u16, at: u64) -> bool {
    of.code.own
        && of.code.number == number
        && of.offset == at
        && of.first.as_str().is_empty()
        && of.second.as_str().is_empty()
}

// The items of a text; or `-` where its first one has no reading.
fn shown(alloc: Global, text: &str) -> Result<String, Fail> {
    let mut out = String::new(alloc);
    match read_file(alloc, text.as_bytes()) {
        Ok(file) => show_file(&mut out, file)?,
        Err(FileFault::Syntax(finding)) => {
            out.push_str(if is_finding(&finding, NO_ITEM, 0) {
                "-"
            } else {
                "?"
            })?
        }
        Err(FileFault::NoMemory) => out.push_str("no memory")?,
    }
    Ok(out)
}

// A text and what is read of it, with a `~` between.
const IMPORTS: &str = r#"~
import "m";~import "m";
import 'm' ;~import 'm';
import "m"~-
import m;~-
import {} from "m";~import {} "m";
import { a } from "m";~import {a} "m";
import { a, } from "m";~import {a} "m";
import { , } from "m";~-
import { a,, } from "m";~-
import { a b } from "m";~-
import { a as b } from "m";~import {a as b} "m";
import { a as a, c } from "m";~import {a as a, c} "m";
import { default as d } from "m";~import {default as d} "m";
import { default } from "m";~-
import { a as default } from "m";~-
import { a as } from "m";~-
import { as } from "m";~import {as} "m";
import { as as b } from "m";~import {as as b} "m";
import { as as as } from "m";~import {as as as} "m";
import { string } from "m";~import {string} "m";
import { "a" as b } from "m";~-
import { type a } from "m";~import {type a} "m";
import { type a as b } from "m";~import {type a as b} "m";
import { type if as b } from "m";~import {type if as b} "m";
import { type if } from "m";~-
import { type } from "m";~import {type} "m";
import { type, type } from "m";~import {type, type} "m";
import { type type } from "m";~import {type type} "m";
import { type type as type } from "m";~import {type type as type} "m";
import { type as b } from "m";~import {type as b} "m";
import { type as as } from "m";~import {type as as} "m";
import { type as } from "m";~-
import { type as as as } from "m";~-
import { type as as b } from "m";~-
import type { a } from "m";~import type {a} "m";
import type { type } from "m";~import type {type} "m";
import type { type as b } from "m";~import type {type as b} "m";
import type { type a } from "m";~-
import type {} from "m";~import type {} "m";
import type "m";~-
import type from "m";~-
import { a } from "m"~-
import { a } from m;~-
import { a } "m";~-
import { a from "m";~-
import a from "m";~-
import { a } from "m"; import "n";~import {a} "m";import "n";
export { a } from "m";~export {a} "m";"#;

const EXPORTS: &str = r#"~
export {};~export {};
export { a };~export {a};
export { a, };~export {a};
export { a as b };~export {a as b};
export { a as default };~export {a as default};
export { default };~-
export { default as a };~-
export { default } from "m";~export {default} "m";
export { default as a } from "m";~export {default as a} "m";
export { if as else } from "m";~export {if as else} "m";
export { if as else };~-
export { a, if };~-
export { if, a };~-
export { a, if } from "m";~export {a, if} "m";
export type { a };~export type {a};
export type { a } from "m";~export type {a} "m";
export { type a };~export {type a};
export { type if };~-
export { type if } from "m";~export {type if} "m";
export { type a as if };~export {type a as if};
export { type };~export {type};
export { type as if };~export {type as if};
export { type as as };~export {type as as};
export { type as };~-
export { type as as as };~-
export type { type a };~-
export type { type };~export type {type};
export {} from "m";~export {} "m";
export { a } from "m"~-
export { a } from;~-
export { a }~-
export { a } "m";~-
export * from "m";~-
export { a;~-
export a;~-
import { a } from "m";~import {a} "m";"#;

#[test]
fn reads_imports(rt: HostRuntime) -> Result<(), Fail> {
    for line in IMPORTS.lines() {
        let (text, wanted) = row(line);
        let found = shown(rt.alloc(), text)?;
        assert_eq!(rt; found.as_str(), wanted, "{text}");
    }
    Ok(())
}

#[test]
fn reads_export_lists(rt: HostRuntime) -> Result<(), Fail> {
    for line in EXPORTS.lines() {
        let (text, wanted) = row(line);
        let found = shown(rt.alloc(), text)?;
        assert_eq!(rt; found.as_str(), wanted, "{text}");
    }
    Ok(())
}

// Where a list begins, where each Spec and its words do, and where the specifier does.
fn show_list_places(
    out: &mut String,
    at: usize,
    specs: &[Spec],
    from: Option<&Specifier>,
) -> Result<(), AllocError> {
    write!(out, "{at}")?;
    for spec in specs {
        let (start, name) = (spec.at, spec.name.at);
        write!(out, " {start}:{name}")?;
        if let Some(renamed) = &spec.renamed {
            let other = renamed.at;
            write!(out, "-{other}")?;
        }
    }
    if let Some(from) = from {
        let start = from.at;
        write!(out, " {start}")?;
    }
    out.push_str(";")
}

fn show_item_places(out: &mut String, of: &Item) -> Result<(), AllocError> {
    match of {
        Item::Import(
            Import::List {
                at,
                specs,
                from,
                ..
            },
        ) => show_list_places(out, *at, specs.as_slice(), Some(from)),
        Item::Import(Import::Bare { at, from }) => {
            let start = from.at;
            write!(out, "{at} {start};")
        }
        Item::ExportList(list) => {
            show_list_places(out, list.at, list.specs.as_slice(), list.from.as_ref())
        }
        _ => out.push_str("-;"),
    }
}

fn show_all_places(out: &mut String, items: &[Item]) -> Result<(), AllocError> {
    for of in items {
        show_item_places(out, of)?;
    }
    Ok(())
}

fn show_places(out: &mut String, file: File) -> Result<(), AllocError> {
    show_all_places(out, file.items.as_slice())
}

// The places of each item of a text; or `-`.
fn places(alloc: Global, text: &str) -> Result<String, Fail> {
    let mut out = String::new(alloc);
    match read_file(alloc, text.as_bytes()) {
        Ok(file) => show_places(&mut out, file)?,
        Err(_) => out.push_str("-")?,
    }
    Ok(out)
}

#[test]
fn keeps_places(rt: HostRuntime) -> Result<(), Fail> {
    for (text, wanted) in [
        (" import \"m\";", "1 8;"),
        (
            "import { a, type b as c } from \"m\";",
            "0 9:9 12:17-22 31;",
        ),
        ("\u{feff}import type { é as b } from 'm';", "0 14:14-20 29;"),
        ("export { type as b };", "0 9:9-17;"),
        ("export type { a, b } from \"m\";", "0 14:14 17:17 26;"),
        ("export {} from \"m\";", "0 15;"),
    ] {
        let found = places(rt.alloc(), text)?;
        assert_eq!(rt; found.as_str(), wanted, "{text}");
    }
    Ok(())
}

#[test]
fn reads_items(rt: HostRuntime) -> Result<(), Fail> {
    for (text, wanted) in [
        ("", ""),
        (" \t\n// nothing", ""),
        ("\u{feff}", ""),
        (";", "stmt;"),
        ("import \"m\";", "import \"m\";"),
        ("export {};", "export {};"),
        ("export const a: number = 1;", "export var;"),
        ("let a; a = 1;", "var;stmt;"),
        ("function f() {} f();", "function;stmt;"),
        ("export class C { constructor() {} }", "export class;"),
        ("interface I {} type A = I; type;", "interface;alias;stmt;"),
        ("type = 1; type A = B; type(A);", "stmt;alias;stmt;"),
        ("if (a) ; else ; ;", "stmt;stmt;"),
        (
            "import { a } from \"m\"; export { a }; export { b } from \"m\";",
            "import {a} \"m\";export {a};export {b} \"m\";",
        ),
        (
            "\u{feff}export interface A { }\r\n{ }",
            "export interface;stmt;",
        ),
    ] {
        let found = shown(rt.alloc(), text)?;
        assert_eq!(rt; found.as_str(), wanted, "{text}");
    }
    Ok(())
}

// Whether reading ends with one finding of this number at this offset, which has no arguments.
fn has_fault(alloc: Global, text: &[u8], number: u16, at: u64) -> bool {
    match read_file(alloc, text) {
        Err(FileFault::Syntax(finding)) => is_finding(&finding, number, at),
        _ => false,
    }
}

#[test]
fn finds_the_first_item_without_reading(rt: HostRuntime) -> Result<(), Fail> {
    for (text, at) in [
        ("const a: number;", 0),
        ("export const a: number = 1", 0),
        ("export const a: number = 1;\nexport const = 2;", 28),
        ("export const a: string = \"x", 0),
        ("  export x;", 2),
        ("\u{feff}\u{feff} export", 4),
        ("return;", 0),
        ("break;", 0),
        ("else ;", 0),
        ("if (a) ; else ; else ;", 16),
        ("export { a }", 0),
        ("export {};\nimport { if } from \"m\";", 11),
        ("export { default };", 0),
        ("a; b", 3),
        ("a; @", 3),
        ("a; /* open", 3),
        ("class any {}", 0),
        ("type string = number;", 0),
        ("export ;", 0),
        ("export type;", 0),
    ] {
        let found = has_fault(rt.alloc(), text.as_bytes(), NO_ITEM, at);
        assert!(rt; found, "{text}");
    }
    Ok(())
}

#[test]
fn finds_what_is_no_text(rt: HostRuntime) -> Result<(), Fail> {
    assert!(rt; has_fault(rt.alloc(), b"\xFF", NO_TEXT, 0));
    assert!(rt; has_fault(rt.alloc(), b"export {};\xC3", NO_TEXT, 0));
    assert!(rt; has_fault(rt.alloc(), b"\xEF\xBB\xBF\xED\xA0\x80", NO_TEXT, 0));
    Ok(())
}

// A constant whose value is a number in so many parentheses.
fn deep(alloc: Global, count: usize) -> Result<String, AllocError> {
    let value = nested(alloc, "(", "1", ")", count)?;
    format!(in alloc; "export const a: number = {value};")
}

#[test]
fn stops_at_the_depth(rt: HostRuntime) -> Result<(), Fail> {
    let within = deep(rt.alloc(), 199)?;
    let found = shown(rt.alloc(), within.as_str())?;
    assert_eq!(rt; found.as_str(), "export var;");
    let beyond = deep(rt.alloc(), 200)?;
    assert!(rt; has_fault(rt.alloc(), beyond.as_str().as_bytes(), NO_ITEM, 0));
    Ok(())
}
