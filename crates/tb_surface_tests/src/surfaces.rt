//! Tests of `tb_surface` and `tb_emit_dts`: what a source declares, and that this reads back.

use std::alloc::Global;
use std::rt::HostRuntime;
use std::test::Fail;
use tb_emit_dts::dts;
use tb_parse_file::{read_decl, read_file};
use tb_surface::surface;
use tb_text::{NoMemory, Text};
use tb_tree::{File, Surface};

// A tree that was read is owned by a function of its own: what a function owns is what its check grows with.
fn written(alloc: Global, of: Surface) -> Result<Text, NoMemory> {
    dts(alloc, &of)
}

fn declared_by(alloc: Global, file: &File) -> Result<Text, NoMemory> {
    match surface(alloc, file) {
        Ok(of) => written(alloc, of),
        Err(refused) => Err(refused),
    }
}

fn declared(alloc: Global, file: File) -> Result<Text, NoMemory> {
    declared_by(alloc, &file)
}

fn string_of(alloc: Global, text: Text) -> Result<String, Fail> {
    Ok(String::from_str(alloc, std::str::from_utf8(text.as_slice())?)?)
}

// The declarations of a source; or nothing where it does not read.
fn declarations(alloc: Global, source: &str) -> Result<String, Fail> {
    match read_file(alloc, source.as_bytes()) {
        Ok(file) => string_of(alloc, declared(alloc, file)?),
        Err(_) => Ok(String::new(alloc)),
    }
}

// What is written for declarations that were read; or nothing where they do not read.
fn read_again(alloc: Global, text: &str) -> Result<String, Fail> {
    match read_decl(alloc, text.as_bytes()) {
        Ok(of) => string_of(alloc, written(alloc, of)?),
        Err(_) => Ok(String::new(alloc)),
    }
}

// Sources of small projects, and their declarations.
const PROJECTS: &[(&str, &str)] = &[
    (
        r"interface A1 { next: B1; }
interface B1 { next: A1; v: { w: number; }; }
interface A2 { next: B2; }
interface B2 { next: A2; v: { w: string; }; }
export function f(x: A1): A2 { return x; }
",
        r"interface A1 {
    next: B1;
}
interface B1 {
    next: A1;
    v: { w: number; };
}
interface A2 {
    next: B2;
}
interface B2 {
    next: A2;
    v: { w: string; };
}
export declare function f(x: A1): A2;
export {};
",
    ),
    (
        r"function f(): number { return 1; }
export const x = f();
",
        "export declare const x: any;\n",
    ),
    (
        r#"export interface Circle { kind: "circle"; radius: number; }
export interface Square { kind: "square"; side: number; }
export type Shape = Circle | Square;
export function area(s: Shape): number { switch (s.kind) { case "circle": return 3 * s.radius * s.radius; case "square": return s.side * s.side; } }
"#,
        r#"export interface Circle {
    kind: "circle";
    radius: number;
}
export interface Square {
    kind: "square";
    side: number;
}
export type Shape = Circle | Square;
export declare function area(s: Shape): number;
"#,
    ),
    (
        "export class Log { readonly lines: string[] = []; add(line: string): void { this.lines.push(line); } }\n",
        r"export declare class Log {
    readonly lines: string[];
    add(line: string): void;
}
",
    ),
    (
        r#"import { area, type Shape } from "@core/shape";
import { Log } from "../../util/src/log";
const log: Log = new Log();
const all: Shape[] = [{ kind: "circle", radius: 2 }, { kind: "square", side: 3 }];
for (const s of all) { log.add(`${s.kind}: ${area(s)}`); }
export function summary(): string { return log.lines.join("; "); }
"#,
        "export declare function summary(): string;\n",
    ),
    ("export const x = 1;", "export declare const x: 1;\n"),
    (
        "export const a: number = 1;\n",
        "export declare const a: number;\n",
    ),
    ("", "export {};\n"),
    ("export type A = number;\n", "export type A = number;\n"),
    (
        r"export interface S { readonly id: number; name: string; }
export const base: number = 0;
",
        r"export interface S {
    readonly id: number;
    name: string;
}
export declare const base: number;
",
    ),
    (
        r#"import { type S as P } from "../../p1/src/f0";
export interface S { readonly id: number; name: string; up?: P; }
export const base: number = 4;
"#,
        r#"import { type S as P } from "../../p1/src/f0";
export interface S {
    readonly id: number;
    name: string;
    up?: P;
}
export declare const base: number;
"#,
    ),
    (
        r#"import { base, type S } from "./f0";
export function f(s: S, n: number): number { return s.id + n + base + 2; }
"#,
        r#"import { type S } from "./f0";
export declare function f(s: S, n: number): number;
"#,
    ),
];

// Variables, functions and classes, and their declarations.
const VALUES: &[(&str, &str)] = &[
    ("export const a: A = f();", "export declare const a: A;\n"),
    (
        "export let a: string, b: A = 1, c: B;",
        r"export declare let a: string;
export declare let b: A;
export declare let c: B;
",
    ),
    (
        r#"export const a = "x", b = 'it\'s "y"\n', c = '', d = true, e = false;"#,
        r#"export declare const a: "x";
export declare const b: "it's \"y\"\n";
export declare const c: "";
export declare const d: true;
export declare const e: false;
"#,
    ),
    (
        "export const a = 0, b = 7, c = -7, d = - 12, e = 123456789012345;",
        r"export declare const a: 0;
export declare const b: 7;
export declare const c: -7;
export declare const d: -12;
export declare const e: 123456789012345;
",
    ),
    (
        "export const a = -0, b = 1.5, c = -1.5, d = 1.0, e = 1e3, f = 0x10, g = 0o7, h = 0b1, i = 1234567890123456, j = -0x1;",
        r"export declare const a: number;
export declare const b: number;
export declare const c: number;
export declare const d: number;
export declare const e: number;
export declare const f: number;
export declare const g: number;
export declare const h: number;
export declare const i: number;
export declare const j: number;
",
    ),
    (
        r#"export const a = (1), b = 1 as number, c = +1, d = `x`, e = null, f = undefined, g = !true, h = -(1), i = - -1, j = [1], k = {}, l = f, m = "a" + "b", n = () => 1;"#,
        r"export declare const a: any;
export declare const b: any;
export declare const c: any;
export declare const d: any;
export declare const e: any;
export declare const f: any;
export declare const g: any;
export declare const h: any;
export declare const i: any;
export declare const j: any;
export declare const k: any;
export declare const l: any;
export declare const m: any;
export declare const n: any;
",
    ),
    (
        r#"export let a = "x", b = 1, c = -1, d = true, e = 0x10, f = -0, g, h = (1), i = null;"#,
        r"export declare let a: string;
export declare let b: number;
export declare let c: number;
export declare let d: boolean;
export declare let e: number;
export declare let f: number;
export declare let g: any;
export declare let h: any;
export declare let i: any;
",
    ),
    (
        r#"export let a: 1 = 1, b: any = "x";"#,
        r"export declare let a: 1;
export declare let b: any;
",
    ),
    (
        "export function f(): void { }",
        "export declare function f(): void;\n",
    ),
    (
        "export function f() { return 1; }",
        "export declare function f(): any;\n",
    ),
    (
        "export function f(a: A, b?: B, c: C = d, e?: E): R { return a; }",
        "export declare function f(a: A, b?: B, c?: C, e?: E): R;\n",
    ),
    (
        r#"export function f(a, b?, c = 1, d = "x"): R { }"#,
        "export declare function f(a: any, b?: any, c?: any, d?: any): R;\n",
    ),
    (
        "export function f(type: A, of: B, as?: C): type { function g(): D { } }",
        "export declare function f(type: A, of: B, as?: C): type;\n",
    ),
    (
        "export function f(a: { b: A }, c: (d: B) => C): () => D { }",
        "export declare function f(a: { b: A; }, c: (d: B) => C): () => D;\n",
    ),
    (
        "export class C { }",
        r"export declare class C {
}
",
    ),
    (
        "export class C { a: A; b?: B; c: C = d; readonly e: E; static f: F = 1; static readonly g?: G; }",
        r"export declare class C {
    a: A;
    b?: B;
    c: C;
    readonly e: E;
    static f: F;
    static readonly g?: G;
}
",
    ),
    (
        r#"export class C { a = 1; b = "x"; c = -1; d = true; e? = 2; static f = 1; g; h = [1]; i = 1.5; }"#,
        r"export declare class C {
    a: number;
    b: string;
    c: number;
    d: boolean;
    e?: number;
    static f: number;
    g: any;
    h: any;
    i: number;
}
",
    ),
    (
        r#"export class C { readonly a = 1; readonly b = "x"; readonly c = -1; readonly d = true; readonly e? = 2; static readonly f = 'y'; readonly g; readonly h = (1); readonly i = 1.5; readonly j = -0; }"#,
        r#"export declare class C {
    readonly a: 1;
    readonly b: "x";
    readonly c: -1;
    readonly d: true;
    readonly e?: 2;
    static readonly f: "y";
    readonly g: any;
    readonly h: any;
    readonly i: number;
    readonly j: number;
}
"#,
    ),
    (
        r#"export class C { a: A = 1; readonly b: B = 2; readonly c: string = "x"; }"#,
        r"export declare class C {
    a: A;
    readonly b: B;
    readonly c: string;
}
",
    ),
    (
        "export class C { constructor() { } m(): void { } }",
        r"export declare class C {
    constructor();
    m(): void;
}
",
    ),
    (
        "export class C { constructor(a: A, b?: B, c: D = e, f = 1, g?) { this.a = a; } }",
        r"export declare class C {
    constructor(a: A, b?: B, c?: D, f?: any, g?: any);
}
",
    ),
    (
        "export class C { m(a: A, b = 1): B { return a; } n() { } static o(a): C { } static p(a?: A): void { } }",
        r"export declare class C {
    m(a: A, b?: any): B;
    n(): any;
    static o(a: any): C;
    static p(a?: A): void;
}
",
    ),
    (
        "export class C { static: A; readonly: B; static readonly: D; static static: E; readonly static: F; readonly readonly = 1; static readonly static = 2; }",
        r"export declare class C {
    static: A;
    readonly: B;
    static readonly: D;
    static static: E;
    readonly static: F;
    readonly readonly: 1;
    static readonly static: 2;
}
",
    ),
    (
        "export class C { static(): A { } readonly(): B { } static static(): C { } static readonly(): D { } if(): E { } get: F; set(): G { } any: H; }",
        r"export declare class C {
    static(): A;
    readonly(): B;
    static static(): C;
    static readonly(): D;
    if(): E;
    get: F;
    set(): G;
    any: H;
}
",
    ),
    (
        "export class C implements I { }",
        r"export declare class C implements I {
}
",
    ),
    (
        "export class C implements I, J, C { a: A; }",
        r"export declare class C implements I, J, C {
    a: A;
}
",
    ),
];

// Interfaces and aliases, and their declarations.
const TYPES: &[(&str, &str)] = &[
    (
        "export interface I { }",
        r"export interface I {
}
",
    ),
    (
        "export interface I extends J { }",
        r"export interface I extends J {
}
",
    ),
    (
        "export interface I extends J, K { a: A; readonly b: B, c?: C; readonly d?: D }",
        r"export interface I extends J, K {
    a: A;
    readonly b: B;
    c?: C;
    readonly d?: D;
}
",
    ),
    (
        "export interface I { m(): A; n?(a: A, b?: B): C, o(f: () => D): (e: E) => F }",
        r"export interface I {
    m(): A;
    n?(a: A, b?: B): C;
    o(f: () => D): (e: E) => F;
}
",
    ),
    (
        r#"export interface I { 'a b': A; readonly "c"?: B; 'd"e'(): C; "f"?(): D; "": E; }"#,
        r#"export interface I {
    "a b": A;
    readonly "c"?: B;
    "d\"e"(): C;
    "f"?(): D;
    "": E;
}
"#,
    ),
    (
        "export interface I { readonly: A; readonly readonly: B; constructor: C; static(): D; if?: E; any: F; undefined: G }",
        r"export interface I {
    readonly: A;
    readonly readonly: B;
    constructor: C;
    static(): D;
    if?: E;
    any: F;
    undefined: G;
}
",
    ),
    (
        "export interface I { a: { b: { c: C, d(): D }, readonly 'e'?: E } }",
        r#"export interface I {
    a: { b: { c: C; d(): D; }; readonly "e"?: E; };
}
"#,
    ),
    (
        "export type A = any; export type B = unknown; export type C = never; export type D = number; export type E = string; export type F = boolean; export type G = void; export type H = null; export type I = undefined;",
        r"export type A = any;
export type B = unknown;
export type C = never;
export type D = number;
export type E = string;
export type F = boolean;
export type G = void;
export type H = null;
export type I = undefined;
",
    ),
    (
        r#"export type A = true; export type B = false; export type C = 0; export type D = -15; export type E = - 15; export type F = 'x'; export type G = "\u{41}\0\x7F\t"; export type H = X;"#,
        r#"export type A = true;
export type B = false;
export type C = 0;
export type D = -15;
export type E = -15;
export type F = "x";
export type G = "A\x00\x7f\t";
export type H = X;
"#,
    ),
    (
        "export type A = X | Y; export type B = | X; export type C = | X | (Y | (Z | 1)); export type D = ((X)); export type E = true | false;",
        r"export type A = X | Y;
export type B = X;
export type C = X | Y | Z | 1;
export type D = X;
export type E = true | false;
",
    ),
    (
        r#"export type A = X[]; export type B = X[][]; export type C = (X)[]; export type D = 1[]; export type E = "x"[]; export type F = {}[]; export type G = { a: X }[][];"#,
        r#"export type A = X[];
export type B = X[][];
export type C = X[];
export type D = 1[];
export type E = "x"[];
export type F = {}[];
export type G = { a: X; }[][];
"#,
    ),
    (
        "export type A = readonly X[]; export type B = readonly X[][]; export type C = (readonly X[])[]; export type D = readonly (readonly X[])[]; export type E = readonly (readonly X[][])[][]; export type F = readonly (X | Y)[]; export type G = readonly X[] | readonly Y[][];",
        r"export type A = readonly X[];
export type B = readonly X[][];
export type C = (readonly X[])[];
export type D = readonly (readonly X[])[];
export type E = readonly (readonly X[][])[][];
export type F = readonly (X | Y)[];
export type G = readonly X[] | readonly Y[][];
",
    ),
    (
        "export type A = (X | Y)[]; export type B = (X | Y)[][]; export type C = (() => X)[]; export type D = ((() => X) | Y)[]; export type E = (X)[] | (Y[])[];",
        r"export type A = (X | Y)[];
export type B = (X | Y)[][];
export type C = (() => X)[];
export type D = ((() => X) | Y)[];
export type E = X[] | Y[][];
",
    ),
    (
        "export type A = () => X; export type B = (a: X, b?: Y) => Z; export type C = (a: X,) => () => Y; export type D = () => X | Y; export type E = () => X[]; export type F = (a: () => X) => void;",
        r"export type A = () => X;
export type B = (a: X, b?: Y) => Z;
export type C = (a: X) => () => Y;
export type D = () => X | Y;
export type E = () => X[];
export type F = (a: () => X) => void;
",
    ),
    (
        "export type A = (() => X) | Y; export type B = X | (() => Y); export type C = X | (() => Y | Z) | (() => X); export type D = (() => X); export type E = | (() => X);",
        r"export type A = (() => X) | Y;
export type B = X | (() => Y);
export type C = X | (() => Y | Z) | (() => X);
export type D = () => X;
export type E = () => X;
",
    ),
    (
        "export type A = ((() => (() => X)[] | readonly (readonly X[])[])[] | (() => () => X | Y))[][]; export type B = { a: (X | (() => Y))[]; b(c: (() => X)[]): readonly (X | Y)[]; };",
        r"export type A = ((() => (() => X)[] | readonly (readonly X[])[])[] | (() => () => X | Y))[][];
export type B = { a: (X | (() => Y))[]; b(c: (() => X)[]): readonly (X | Y)[]; };
",
    ),
    (
        "export type A = {}; export type B = { a: X }; export type C = { a: X, b?: Y; readonly c: Z }; export type D = { m(): X, n?(a: Y): Z; 'k': X | Y; f: () => X };",
        r#"export type A = {};
export type B = { a: X; };
export type C = { a: X; b?: Y; readonly c: Z; };
export type D = { m(): X; n?(a: Y): Z; "k": X | Y; f: () => X; };
"#,
    ),
    (
        "export type readonly = readonly readonly[]; export type type = type; export type of = as; export type as = of | declare;",
        r"export type readonly = readonly readonly[];
export type type = type;
export type of = as;
export type as = of | declare;
",
    ),
    (
        "export const declare: declare = 1, type: type = 1, from: of = 1, readonly: readonly = 1;",
        r"export declare const declare: declare;
export declare const type: type;
export declare const from: of;
export declare const readonly: readonly;
",
    ),
];

// Imports and export lists, and their declarations.
const LISTS: &[(&str, &str)] = &[
    (
        r#"import { a } from "m"; import { b as c } from 'n'; import { type d } from "o"; import { type e as f, g } from "p"; export { a, c, d, f, g };"#,
        r#"import { a } from "m";
import { b as c } from "n";
import { type d } from "o";
import { type e as f, g } from "p";
export { a, c, d, f, g };
"#,
    ),
    (
        r#"import type { A } from 'm'; import type { B as C, D } from "n"; export type { A, C, D };"#,
        r#"import type { A } from "m";
import type { B as C, D } from "n";
export type { A, C, D };
"#,
    ),
    (
        r#"import { type } from "m"; import { type as t } from "n"; import { type as as } from "o"; import { type type } from "p"; import { as as u } from "q"; export { type, t, as, u };"#,
        r#"import { type } from "m";
import { type as t } from "n";
import { type as as } from "o";
import { type type } from "p";
import { as as u } from "q";
export { type, t, as, u };
"#,
    ),
    (
        r#"import { default as d } from "m"; import { a as a } from "n"; import { type if as b } from "o"; export { d, a, b };"#,
        r#"import { default as d } from "m";
import { a as a } from "n";
import { type if as b } from "o";
export { d, a, b };
"#,
    ),
    (
        "const a: A = 1; export { a }; export { a as b, a as default }; export { type a as c };",
        r"declare const a: A;
export { a };
export { a as b, a as default };
export { type a as c };
export {};
",
    ),
    (
        "const a: A = 1; export { a as a, }; export type { a as if }; export { type a };",
        r"declare const a: A;
export { a as a };
export type { a as if };
export { type a };
export {};
",
    ),
    (
        r#"export { a } from "m"; export { b as c, default } from 'n'; export { type d } from "o"; export type { e, f as default } from "p"; export { type if as else } from "q";"#,
        r#"export { a } from "m";
export { b as c, default } from "n";
export { type d } from "o";
export type { e, f as default } from "p";
export { type if as else } from "q";
"#,
    ),
    (
        r#"export {} from "m"; export type {} from 'n';"#,
        r#"export {} from "m";
export type {} from "n";
"#,
    ),
    ("export { }; export type { };", "export {};\n"),
    (
        r#"export { a } from "a\u0062\"";"#,
        r#"export { a } from "ab\"";
"#,
    ),
    (
        "\u{feff}/* a */ export /* b */ const // c\r\n\té: X\u{a0}= 1;\r\n",
        "export declare const é: X;\n",
    ),
    (
        "export const $_ = 1; export const é中 = 2; export const a: 中 = 3;",
        r"export declare const $_: 1;
export declare const é中: 2;
export declare const a: 中;
",
    ),
    (
        "export type A = 1; export type A = 2; export function f(): A { } export const f = 1;",
        r"export type A = 1;
export type A = 2;
export declare function f(): A;
export declare const f: 1;
",
    ),
];

// What stays and what goes, by the names that occur.
const NAMED: &[(&str, &str)] = &[
    (
        "interface A { b: B; } type B = C[]; class C { d: D; } type D = 1; type E = A; export const a: A = 1;",
        r"interface A {
    b: B;
}
type B = C[];
declare class C {
    d: D;
}
type D = 1;
export declare const a: A;
export {};
",
    ),
    (
        "type A = { x: B }; type B = { y: C }; type C = { z: A }; type D = A; export { D };",
        r"type A = { x: B; };
type B = { y: C; };
type C = { z: A; };
type D = A;
export { D };
export {};
",
    ),
    (
        "type D = A; type C = { z: A }; type B = { y: C }; type A = { x: B }; export { B };",
        r"type C = { z: A; };
type B = { y: C; };
type A = { x: B; };
export { B };
export {};
",
    ),
    (
        "interface A { a: B; } interface B { b: C; } interface C { c: A; } export interface I { m(a: A): void; }",
        r"interface A {
    a: B;
}
interface B {
    b: C;
}
interface C {
    c: A;
}
export interface I {
    m(a: A): void;
}
export {};
",
    ),
    (
        "interface A { a: B; } interface B { b: A; } interface C { c: C; }",
        "export {};\n",
    ),
    (
        "interface A { a: A; } type B = B[]; class C { c: C; } export const a: number = 1;",
        "export declare const a: number;\n",
    ),
    (
        "export type Z = A1; type A9 = 1; type A8 = A9; type A7 = A8; type A6 = A7; type A5 = A6; type A4 = A5; type A3 = A4; type A2 = A3; type A1 = A2;",
        r"export type Z = A1;
type A9 = 1;
type A8 = A9;
type A7 = A8;
type A6 = A7;
type A5 = A6;
type A4 = A5;
type A3 = A4;
type A2 = A3;
type A1 = A2;
export {};
",
    ),
    (
        "type A = 1; type B = 1; type C = 1; type D = 1; export let a: A | (() => B)[] | ((c: C) => readonly D[]);",
        r"type A = 1;
type B = 1;
type C = 1;
type D = 1;
export declare let a: A | (() => B)[] | ((c: C) => readonly D[]);
export {};
",
    ),
    (
        "type A = 1; type B = 1; type C = 1; type D = 1; export type T = { a: A; 'b'?: B; m(c?: C): D; };",
        r#"type A = 1;
type B = 1;
type C = 1;
type D = 1;
export type T = { a: A; "b"?: B; m(c?: C): D; };
export {};
"#,
    ),
    (
        "type A = 1; type B = 1; type C = 1; type R = 1; export function f(a: A, b?: B, c: C = 1): R { }",
        r"type A = 1;
type B = 1;
type C = 1;
type R = 1;
export declare function f(a: A, b?: B, c?: C): R;
export {};
",
    ),
    (
        "interface A { } interface B extends A { } interface C extends B { } interface D { } export interface E extends C { }",
        r"interface A {
}
interface B extends A {
}
interface C extends B {
}
export interface E extends C {
}
export {};
",
    ),
    (
        "interface A { } class B implements A { } export class C implements B { }",
        r"interface A {
}
declare class B implements A {
}
export declare class C implements B {
}
export {};
",
    ),
    (
        "type A = 1; type B = 1; type C = 1; type D = 1; type E = 1; type F = 1; export class K { a: A; static b: B; readonly c?: C = 1; constructor(d: D) { } m(e: E): F { } }",
        r"type A = 1;
type B = 1;
type C = 1;
type D = 1;
type E = 1;
type F = 1;
export declare class K {
    a: A;
    static b: B;
    readonly c?: C;
    constructor(d: D);
    m(e: E): F;
}
export {};
",
    ),
    (
        "class A { private_: B; constructor(c: C) { } static m(): D { } } type B = 1; type C = 1; type D = 1; export const a: (x: A) => void = f;",
        r"declare class A {
    private_: B;
    constructor(c: C);
    static m(): D;
}
type B = 1;
type C = 1;
type D = 1;
export declare const a: (x: A) => void;
export {};
",
    ),
    (
        "interface A { } export function f() { const x: A = 1; function g(a: A): A { return a as A; } return (y: A) => y; }",
        "export declare function f(): any;\n",
    ),
    (
        "type A = 1; export const a = 1 as A, b = (x: A): A => x; export let c = f as A; export function f(x = 1 as A): void { }",
        r"export declare const a: any;
export declare const b: any;
export declare let c: any;
export declare function f(x?: any): void;
",
    ),
    (
        "class A { } interface B { } export class C { a = new A(); m(): void { let b: B; } constructor() { const b: B = 1; } }",
        r"export declare class C {
    a: any;
    m(): void;
    constructor();
}
",
    ),
    (
        "type A = 1; type b = 1; type C = 1; export const A: { b: 1; C(): 2 } = 1; export function b(C: 3): void { }",
        r"export declare const A: { b: 1; C(): 2; };
export declare function b(C: 3): void;
",
    ),
    (
        "type x = 1; type A = 'x'; export let x: A;",
        r#"type A = "x";
export declare let x: A;
export {};
"#,
    ),
    (
        "interface A { } function f(a: A): A { } const b: A = 1; let c: A[]; export const d = f(b);",
        "export declare const d: any;\n",
    ),
    (
        "interface A { } { const a: A = 1; } if (a) { function f(a: A): void { } } for (const a: A = 1; ; ) ; export {};",
        "export {};\n",
    ),
    (
        r#"import { any } from "m"; export let a: any;"#,
        "export declare let a: any;\n",
    ),
    (
        r#"import { any, string } from "m"; export interface I extends any { a: string; }"#,
        r#"import { any } from "m";
export interface I extends any {
    a: string;
}
"#,
    ),
    (
        r#"export { A } from "m"; interface A { } export {};"#,
        r#"export { A } from "m";
"#,
    ),
    (
        "export { a }; export { I }; const a: number = 1; interface I { }",
        r"export { a };
export { I };
declare const a: number;
interface I {
}
export {};
",
    ),
    (
        "function f(): void { } const g: number = 1; export type T = f | g;",
        "export type T = f | g;\n",
    ),
    (
        "const A: 1 = 1; function B(): void { } type C = A | B; export const c: C = 1;",
        r"type C = A | B;
export declare const c: C;
export {};
",
    ),
    (
        "const a = f(), b = 1; let c; function d(p) { } class e { } export { a, b as z, c, d, e };",
        r"declare const a: any;
declare const b: 1;
declare let c: any;
declare function d(p: any): any;
declare class e {
}
export { a, b as z, c, d, e };
export {};
",
    ),
    (
        "const a: A = 1, b: B = 2; type A = 1; type B = 1; export { a };",
        r"declare const a: A;
type A = 1;
export { a };
export {};
",
    ),
    (
        "function f(a: A): void { } interface A { } function g(): void { } export { f as g };",
        r"declare function f(a: A): void;
interface A {
}
export { f as g };
export {};
",
    ),
    (
        "class C { a: A; } interface I { b: B; } type T = D; type A = 1; type B = 1; type D = 1; export { C }; export type { I }; export { type T as U };",
        r"declare class C {
    a: A;
}
interface I {
    b: B;
}
type T = D;
type A = 1;
type B = 1;
type D = 1;
export { C };
export type { I };
export { type T as U };
export {};
",
    ),
    (
        r#"import { A, B, type C, D as E, F as G } from "m"; export let a: A | C | E; export const b = B, f = G;"#,
        r#"import { A, type C, D as E } from "m";
export declare let a: A | C | E;
export declare const b: any;
export declare const f: any;
"#,
    ),
    (
        r#"import { A } from "m"; export { A }; import { B } from "n"; import { C } from "o"; export { B as C };"#,
        r#"import { A } from "m";
export { A };
import { B } from "n";
export { B as C };
"#,
    ),
    (
        r#"import { A as B } from "m"; export { A };"#,
        "export { A };\n",
    ),
    (
        r#"import { A as B } from "m"; export { A } from "m"; export type T = A;"#,
        r#"export { A } from "m";
export type T = A;
"#,
    ),
    (
        r#"import type { A, B } from "m"; export interface I extends B { }"#,
        r#"import type { B } from "m";
export interface I extends B {
}
"#,
    ),
    (
        r#"import { A } from "m"; interface I { a: A; } type J = I; export function f(j: J): void { }"#,
        r#"import { A } from "m";
interface I {
    a: A;
}
type J = I;
export declare function f(j: J): void;
export {};
"#,
    ),
    (
        r#"import { A } from "m"; interface I { a: A; } export function f(): void { }"#,
        "export declare function f(): void;\n",
    ),
    (
        r#"import "m"; import {} from "n"; import type {} from "o"; import { a } from "p"; export const b: number = a;"#,
        "export declare const b: number;\n",
    ),
    (
        r#"import { A } from "m"; import { A } from "n"; export type T = A;"#,
        r#"import { A } from "m";
import { A } from "n";
export type T = A;
"#,
    ),
    (
        r#"import { A } from "m"; const A = 1; interface A { } type A = B; export { A }; interface B { } function B() { } const B = 2; export type Z = A;"#,
        r#"import { A } from "m";
declare const A: 1;
interface A {
}
type A = B;
export { A };
interface B {
}
export type Z = A;
export {};
"#,
    ),
    ("const a: number = 1; a;", "export {};\n"),
    (r#"import { A } from "m"; let a: A;"#, "export {};\n"),
    (
        r#"export { a } from "m";"#,
        r#"export { a } from "m";
"#,
    ),
    (
        r#"export {} from "m"; type A = 1;"#,
        r#"export {} from "m";
"#,
    ),
    (
        "const a: number = 1; export { a };",
        r"declare const a: number;
export { a };
export {};
",
    ),
    (
        r#"import { a } from "m"; export { a };"#,
        r#"import { a } from "m";
export { a };
"#,
    ),
    (
        r#"import { A } from "m"; export let a: A; export type B = A;"#,
        r#"import { A } from "m";
export declare let a: A;
export type B = A;
"#,
    ),
    (
        "export let a: A; type A = 1;",
        r"export declare let a: A;
type A = 1;
export {};
",
    ),
    (
        "class C { } export let c: C;",
        r"declare class C {
}
export declare let c: C;
export {};
",
    ),
    (
        "let a; export { a };",
        r"declare let a: any;
export { a };
export {};
",
    ),
    (
        "function f(): void { } export { f }; export class C { }",
        r"declare function f(): void;
export { f };
export declare class C {
}
export {};
",
    ),
    (
        "export interface I { } interface J { } export {};",
        r"export interface I {
}
",
    ),
];

// Declarations, and what is written for them.
const DECLARED: &[(&str, &str)] = &[
    ("", "export {};\n"),
    (
        "import 'm';",
        r#"import "m";
export {};
"#,
    ),
    (
        r#"import "m"; export {};"#,
        r#"import "m";
export {};
"#,
    ),
    (
        r#"import { } from "m"; import type {} from "n"; export {} from "o"; export type {} from "p";"#,
        r#"import {} from "m";
import type {} from "n";
export {} from "o";
export type {} from "p";
"#,
    ),
    (
        r#"import { type A, b as c } from 'm'; import type { D } from "n"; import "o"; export const a: A;"#,
        r#"import { type A, b as c } from "m";
import type { D } from "n";
import "o";
export declare const a: A;
"#,
    ),
    ("export {}; export type {};", "export {};\n"),
    (
        r#"declare const a: number; let b: "x" | 'y'; declare let declare: declare;"#,
        r#"declare const a: number;
declare let b: "x" | "y";
declare let declare: declare;
export {};
"#,
    ),
    (
        "export const a: A; export declare const b: B; export let c: C;",
        r"export declare const a: A;
export declare const b: B;
export declare let c: C;
",
    ),
    (
        "function f(): void; declare function g(a?: A, b: B): (c: C) => D; export function h(type: T,): R;",
        r"declare function f(): void;
declare function g(a?: A, b: B): (c: C) => D;
export declare function h(type: T): R;
export {};
",
    ),
    (
        "class C { } declare class D implements C, I { a: A; static readonly b?: B; constructor(a?: A, b: B); static m(): C; }",
        r"declare class C {
}
declare class D implements C, I {
    a: A;
    static readonly b?: B;
    constructor(a?: A, b: B);
    static m(): C;
}
export {};
",
    ),
    (
        "export class C { constructor(); static: A; readonly: B; if(): C; }",
        r"export declare class C {
    constructor();
    static: A;
    readonly: B;
    if(): C;
}
",
    ),
    (
        "interface I { } declare interface J extends I { 'a': 1, m?(): void } export declare interface K { }",
        r#"interface I {
}
interface J extends I {
    "a": 1;
    m?(): void;
}
export interface K {
}
export {};
"#,
    ),
    (
        "type A = B; declare type C = (D | E)[]; export declare type F = ((() => G)) | H;",
        r"type A = B;
type C = (D | E)[];
export type F = (() => G) | H;
export {};
",
    ),
    (
        "export { default, a as if } from 'm'; export { type b }; export type { c as default };",
        r#"export { default, a as if } from "m";
export { type b };
export type { c as default };
"#,
    ),
    (
        "\u{feff}export /* a */ declare const é: \"\\x41\"; // b",
        r#"export declare const é: "A";
"#,
    ),
];

#[test]
fn small_projects_have_these_declarations(rt: HostRuntime) -> Result<(), Fail> {
    for (source, wanted) in PROJECTS {
        let found = declarations(rt.alloc(), source)?;
        assert_eq!(rt; found.as_str(), *wanted, "{source}");
        let again = read_again(rt.alloc(), found.as_str())?;
        assert_eq!(rt; again.as_str(), *wanted, "{source}");
    }
    Ok(())
}

#[test]
fn values_are_declared(rt: HostRuntime) -> Result<(), Fail> {
    for (source, wanted) in VALUES {
        let found = declarations(rt.alloc(), source)?;
        assert_eq!(rt; found.as_str(), *wanted, "{source}");
        let again = read_again(rt.alloc(), found.as_str())?;
        assert_eq!(rt; again.as_str(), *wanted, "{source}");
    }
    Ok(())
}

#[test]
fn types_are_declared(rt: HostRuntime) -> Result<(), Fail> {
    for (source, wanted) in TYPES {
        let found = declarations(rt.alloc(), source)?;
        assert_eq!(rt; found.as_str(), *wanted, "{source}");
        let again = read_again(rt.alloc(), found.as_str())?;
        assert_eq!(rt; again.as_str(), *wanted, "{source}");
    }
    Ok(())
}

#[test]
fn lists_are_declared(rt: HostRuntime) -> Result<(), Fail> {
    for (source, wanted) in LISTS {
        let found = declarations(rt.alloc(), source)?;
        assert_eq!(rt; found.as_str(), *wanted, "{source}");
        let again = read_again(rt.alloc(), found.as_str())?;
        assert_eq!(rt; again.as_str(), *wanted, "{source}");
    }
    Ok(())
}

#[test]
fn what_is_named_stays(rt: HostRuntime) -> Result<(), Fail> {
    for (source, wanted) in NAMED {
        let found = declarations(rt.alloc(), source)?;
        assert_eq!(rt; found.as_str(), *wanted, "{source}");
        let again = read_again(rt.alloc(), found.as_str())?;
        assert_eq!(rt; again.as_str(), *wanted, "{source}");
    }
    Ok(())
}

#[test]
fn declarations_are_written_as_they_are_read(rt: HostRuntime) -> Result<(), Fail> {
    for (text, wanted) in DECLARED {
        let found = read_again(rt.alloc(), text)?;
        assert_eq!(rt; found.as_str(), *wanted, "{text}");
        let again = read_again(rt.alloc(), found.as_str())?;
        assert_eq!(rt; again.as_str(), *wanted, "{text}");
    }
    Ok(())
}
