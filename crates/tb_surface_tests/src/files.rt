//! Tests of reading declaration files.

use std::alloc::Global;
use std::rt::HostRuntime;
use std::test::Fail;
use tb_parse_file::{FileFault, NO_ITEM, NO_TEXT, read_decl};
use tb_show::{write_member, write_type, write_type_params};
use tb_text::NoMemory;
use tb_tree::{
    Base, Declared, DeclaredMember, Import, Interface, Key, Spec, Specifier, Surface, SurfaceItem,
    TypeExpr, TypeMember, VarKind,
};

fn put(out: &mut String, text: &str) -> Result<(), NoMemory> {
    out.push_str(text)?;
    Ok(())
}

// `type {type a as b,}from"m"`
fn show_list(
    out: &mut String,
    type_only: bool,
    specs: &[Spec],
    from: Option<&Specifier>,
) -> Result<(), NoMemory> {
    put(out, if type_only { "type {" } else { "{" })?;
    for spec in specs {
        put(out, if spec.type_only { "type " } else { "" })?;
        put(out, spec.name.name.as_str())?;
        if let Some(renamed) = &spec.renamed {
            put(out, " as ")?;
            put(out, renamed.name.as_str())?;
        }
        put(out, ",")?;
    }
    put(out, "}")?;
    if let Some(from) = from {
        put(out, "from")?;
        put(out, from.spelled.as_str())?;
    }
    Ok(())
}

fn show_import(out: &mut String, of: &Import) -> Result<(), NoMemory> {
    put(out, "import ")?;
    match of {
        Import::List {
            type_only,
            specs,
            from,
            ..
        } => show_list(out, *type_only, specs.as_slice(), Some(from)),
        Import::Bare { from, .. } => put(out, from.spelled.as_str()),
    }
}

// `:A,B,`
fn show_bases(out: &mut String, all: &[Base]) -> Result<(), NoMemory> {
    put(out, ":")?;
    for base in all {
        put(out, base.name.as_str())?;
        put(out, ",")?;
    }
    Ok(())
}

fn show_declared_member(out: &mut String, of: &DeclaredMember) -> Result<(), NoMemory> {
    match of {
        DeclaredMember::Field {
            is_static,
            read_only,
            name,
            optional,
            shape,
            ..
        } => {
            put(out, if *is_static { "static " } else { "" })?;
            put(out, if *read_only { "readonly " } else { "" })?;
            put(out, name.as_str())?;
            put(out, if *optional { "?: " } else { ": " })?;
            write_type(out, shape)
        }
        DeclaredMember::Constructor { params, .. } => {
            put(out, "new(")?;
            write_type_params(out, params.as_slice())?;
            put(out, ")")
        }
        DeclaredMember::Method {
            is_static,
            name,
            params,
            result,
            ..
        } => {
            put(out, if *is_static { "static " } else { "" })?;
            put(out, name.as_str())?;
            put(out, "(")?;
            write_type_params(out, params.as_slice())?;
            put(out, "): ")?;
            write_type(out, result)
        }
    }
}

fn show_interface(out: &mut String, of: &Interface) -> Result<(), NoMemory> {
    put(out, "interface ")?;
    put(out, of.name.as_str())?;
    show_bases(out, of.extends.as_slice())?;
    for member in of.members.as_slice() {
        put(out, "{")?;
        write_member(out, member)?;
        put(out, "}")?;
    }
    Ok(())
}

fn show_declared(out: &mut String, of: &Declared) -> Result<(), NoMemory> {
    match of {
        Declared::Variable {
            kind,
            name,
            shape,
            ..
        } => {
            put(
                out,
                match kind {
                    VarKind::Const => "const ",
                    VarKind::Let => "let ",
                },
            )?;
            put(out, name.as_str())?;
            put(out, ": ")?;
            write_type(out, shape)
        }
        Declared::Function {
            name,
            params,
            result,
            ..
        } => {
            put(out, "function ")?;
            put(out, name.as_str())?;
            put(out, "(")?;
            write_type_params(out, params.as_slice())?;
            put(out, "): ")?;
            write_type(out, result)
        }
        Declared::Class(class) => {
            put(out, "class ")?;
            put(out, class.name.as_str())?;
            show_bases(out, class.implements.as_slice())?;
            for member in class.members.as_slice() {
                put(out, "{")?;
                show_declared_member(out, member)?;
                put(out, "}")?;
            }
            Ok(())
        }
        Declared::Interface(interface) => show_interface(out, interface),
        Declared::Alias(alias) => {
            put(out, "type ")?;
            put(out, alias.name.as_str())?;
            put(out, " = ")?;
            write_type(out, &alias.shape)
        }
    }
}

// What is kept, each item with `;` behind it.
fn shown(alloc: Global, surface: &Surface) -> Result<String, NoMemory> {
    let mut out = String::new(alloc);
    for item in surface.items.as_slice() {
        match item {
            SurfaceItem::Import(import) => show_import(&mut out, import)?,
            SurfaceItem::ExportList(list) => {
                put(&mut out, "export ")?;
                show_list(
                    &mut out,
                    list.type_only,
                    list.specs.as_slice(),
                    list.from.as_ref(),
                )?;
            }
            SurfaceItem::Declaration { exported, declared } => {
                put(&mut out, if *exported { "export " } else { "" })?;
                show_declared(&mut out, declared)?;
            }
        }
        put(&mut out, ";")?;
    }
    Ok(out)
}

// A text and what is read of it, with a `~` between.
const DECLARATIONS: &str = r#"~
export {};~
export type {};~
export { } from 'm';~export {}from"m";
export { default, a as if, } from 'm';~export {default,a as if,}from"m";
export { a as default, type b };~export {a as default,type b,};
export type { A };~export type {A,};
import 'm';~import "m";
import { type A, b as c } from 'm';~import {type A,b as c,}from"m";
import type { } from "m";~import type {}from"m";
export const a: number;~export const a: number;
declare const a: "x";~const a: "x";
export declare let type: 'x' | -5;~export let type: "x" | -5;
let declare: declare;~let declare: declare;
export declare function f(): void;~export function f(): void;
function f(a?: A, b: (c: 1) => B,): readonly C[];~function f(a?: A, b: (c: 1) => B): readonly C[];
export interface I extends A, B { readonly 'k'?: 1, m(): void }~export interface I:A,B,{readonly "k"?: 1}{m(): void};
declare interface I { constructor: string; }~interface I:{constructor: string};
declare type A = | B;~type A = B;
export type A = { a: 'b' }[];~export type A = { a: "b"; }[];
declare class C { }~class C:;
export class C implements A, B { a: number; }~export class C:A,B,{a: number};
class C { static: A; readonly: B; static readonly: C; readonly static: D; }~class C:{static: A}{readonly: B}{static readonly: C}{readonly static: D};
class C { static readonly a?: 1; constructor(a: A, b?: B); if(): C; }~class C:{static readonly a?: 1}{new(a: A, b?: B)}{if(): C};
class C { static m(a: A): B; static(): C; readonly(): D; }~class C:{static m(a: A): B}{static(): C}{readonly(): D};
class C { f: { constructor(): A }; g: () => void; constructor(); }~class C:{f: { constructor(): A; }}{g: () => void}{new()};
import { B } from "m"; declare const a: B; export { a }; export {};~import {B,}from"m";const a: B;export {a,};"#;

#[test]
fn reads_what_is_declared(rt: HostRuntime) -> Result<(), Fail> {
    for line in DECLARATIONS.lines() {
        let (text, wanted) = match line.split_once('~') {
            Some(row) => row,
            None => (line, ""),
        };
        match read_decl(rt.alloc(), text.as_bytes()) {
            Ok(surface) => {
                let found = shown(rt.alloc(), &surface)?;
                assert_eq!(rt; found.as_str(), wanted, "{text}");
            }
            Err(_) => assert!(rt; false, "{text}"),
        }
    }
    Ok(())
}

// Whether reading ends with one finding of this number at this offset, which has no arguments.
fn has_fault(alloc: Global, text: &[u8], number: u16, at: u64) -> bool {
    match read_decl(alloc, text) {
        Err(FileFault::Syntax(finding)) => {
            let arguments = finding.first.as_str().len() + finding.second.as_str().len();
            finding.code.own
                && finding.code.number == number
                && finding.offset == at
                && arguments == 0
        }
        _ => false,
    }
}

// What has no reading from the start.
const FAULTS: &str = r#";
const a = 1;
const a: number = 1;
const a: number
const a: number, b: string;
export let a;
var a: number;
const if: number;
const a: if;
declare export const a: number;
export export const a: number;
declare declare const a: number;
declare;
declare import "m";
declare { a };
declare export {};
export declare {};
export declare { a };
export type type;
function f(): void {}
function f();
function f(a): void;
function f(a: A = 1): void;
function (): void;
function if(): void;
async function f(): void;
class { }
class any { }
interface string { }
interface I extends { }
type never = 1;
type A = 1
class C extends D { }
class C implements { }
class C { a; }
class C { a = 1; }
class C { a: number = 1; }
class C { a: number }
class C { a: number, }
class C { m(); }
class C { m(): void {} }
class C { m?(): void; }
class C { readonly m(): void; }
class C { constructor() {} }
class C { constructor(): C; }
class C { constructor(); constructor(); }
class C { constructor: A; }
class C { static constructor(); }
class C { readonly static m(): A; }
class C { 'a': A; }
class C { ; }
class C { a: A;
a;
return;
f();
export { if };
import { a as if } from "m";
export default A;
@"#;

#[test]
fn finds_the_first_declaration_without_reading(rt: HostRuntime) -> Result<(), Fail> {
    let alloc = rt.alloc();
    for text in FAULTS.lines() {
        assert!(rt; has_fault(alloc, text.as_bytes(), NO_ITEM, 0), "{text}");
    }
    for (text, at) in [
        ("interface I { };", 15),
        ("export const a: number; @", 24),
        ("export {};\n  a", 13),
        ("\u{feff}type A = B; type C = \"x", 12),
        ("declare const a: A;;", 19),
        (
            "class C { constructor(); } class D { constructor(); constructor(); }",
            27,
        ),
    ] {
        assert!(rt; has_fault(alloc, text.as_bytes(), NO_ITEM, at), "{text}");
    }
    assert!(rt; has_fault(alloc, b"\xFF", NO_TEXT, 0));
    assert!(rt; has_fault(alloc, b"export {};\xC3", NO_TEXT, 0));
    Ok(())
}

// `declare const a: 1;` with the type in so many parentheses, or as so many arrays
fn deep(alloc: Global, open: &str, close: &str, count: usize) -> Result<String, NoMemory> {
    let mut out = String::new(alloc);
    put(&mut out, "declare const a: ")?;
    for _ in 0..count {
        put(&mut out, open)?;
    }
    put(&mut out, "1")?;
    for _ in 0..count {
        put(&mut out, close)?;
    }
    put(&mut out, ";")?;
    Ok(out)
}

#[test]
fn reads_types_up_to_their_depth(rt: HostRuntime) -> Result<(), Fail> {
    let alloc = rt.alloc();
    for (open, close) in [("(", ")"), ("", "[]")] {
        let within = deep(alloc, open, close, 199)?;
        let found = read_decl(alloc, within.as_str().as_bytes());
        assert!(rt; found.is_ok());
        let beyond = deep(alloc, open, close, 200)?;
        assert!(rt; has_fault(alloc, beyond.as_str().as_bytes(), NO_ITEM, 0));
    }
    Ok(())
}

fn string_of(of: &TypeExpr) -> &str {
    match of {
        TypeExpr::String { spelled, .. } => spelled.as_str(),
        TypeExpr::Array { element, .. } => match element.get() {
            TypeExpr::String { spelled, .. } => spelled.as_str(),
            _ => "",
        },
        _ => "",
    }
}

fn key_of(of: &TypeMember) -> &str {
    match of {
        TypeMember::Property { key, .. } => match key {
            Key::Word(name) => name.as_str(),
            Key::String(spelled) => spelled.as_str(),
        },
        TypeMember::Method { .. } => "",
    }
}

// The strings of what is declared, each with a blank behind it.
fn put_strings(out: &mut String, of: &Declared) -> Result<(), NoMemory> {
    match of {
        Declared::Alias(alias) => {
            put(out, string_of(&alias.shape))?;
            put(out, " ")
        }
        Declared::Interface(interface) => {
            for member in interface.members.as_slice() {
                put(out, key_of(member))?;
                put(out, " ")?;
            }
            Ok(())
        }
        _ => Ok(()),
    }
}

fn strings_of(alloc: Global, surface: &Surface) -> Result<String, NoMemory> {
    let mut out = String::new(alloc);
    for item in surface.items.as_slice() {
        if let SurfaceItem::Declaration { declared, .. } = item {
            put_strings(&mut out, declared)?;
        }
    }
    Ok(out)
}

#[test]
fn strings_have_one_spelling(rt: HostRuntime) -> Result<(), Fail> {
    let text = r#"type A = '\u{41}"\x0a\x07\0\'\u00e9'; type B = 'b'[]; interface I { 'k': A; }"#;
    match read_decl(rt.alloc(), text.as_bytes()) {
        Ok(surface) => {
            let found = strings_of(rt.alloc(), &surface)?;
            assert_eq!(rt; found.as_str(), r#""A\"\n\x07\x00'é" "b" "k" "#);
        }
        Err(_) => assert!(rt; false),
    }
    Ok(())
}

fn place(of: &Declared) -> usize {
    match of {
        Declared::Variable { at, .. } => *at,
        Declared::Function { at, .. } => *at,
        Declared::Class(class) => class.at,
        Declared::Interface(interface) => interface.at,
        Declared::Alias(alias) => alias.at,
    }
}

// Where the items that are kept are, each with a blank behind it.
fn places(alloc: Global, surface: &Surface) -> Result<String, Fail> {
    let mut out = String::new(alloc);
    for item in surface.items.as_slice() {
        let at = match item {
            SurfaceItem::Import(Import::List { at, .. }) => *at,
            SurfaceItem::Import(Import::Bare { at, .. }) => *at,
            SurfaceItem::ExportList(list) => list.at,
            SurfaceItem::Declaration { declared, .. } => place(declared),
        };
        write!(out, "{at} ")?;
    }
    Ok(out)
}

#[test]
fn keeps_places_of_declarations(rt: HostRuntime) -> Result<(), Fail> {
    let text =
        "import 'm'; export {}; import {} from 'm'; export { a }; export declare const a: A; function f(): A; declare class C {} interface I {} type T = I;";
    match read_decl(rt.alloc(), text.as_bytes()) {
        Ok(surface) => {
            let found = places(rt.alloc(), &surface)?;
            assert_eq!(rt; found.as_str(), "0 23 43 78 93 115 130 140 ");
        }
        Err(_) => assert!(rt; false),
    }
    Ok(())
}
