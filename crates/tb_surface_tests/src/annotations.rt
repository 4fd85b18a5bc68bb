//! Tests of `tb_surface`: what lacks an annotation.

use std::alloc::Global;
use std::rt::HostRuntime;
use std::test::Fail;
use tb_parse_file::read_file;
use tb_surface::annotation_findings;
use tb_text::{Finding, List, NoMemory};
use tb_tree::File;

// `TB9001@48 x;`
fn show(out: &mut String, of: &Finding) -> Result<(), NoMemory> {
    out.push_str(if of.code.own { "TB" } else { "TS" })?;
    let (number, at) = (of.code.number, of.offset);
    let (first, second) = (of.first.as_str(), of.second.as_str());
    write!(out, "{number}@{at} {first}{second};")?;
    Ok(())
}

fn show_all(out: &mut String, all: &[Finding]) -> Result<(), NoMemory> {
    let mut before = "";
    for of in all {
        out.push_str(before)?;
        show(out, of)?;
        before = " ";
    }
    Ok(())
}

fn show_found(out: &mut String, all: List<Finding>) -> Result<(), NoMemory> {
    show_all(out, all.as_slice())
}

fn show_findings(alloc: Global, out: &mut String, file: &File) -> Result<(), NoMemory> {
    match annotation_findings(alloc, file) {
        Ok(all) => show_found(out, all),
        Err(refused) => Err(refused),
    }
}

// A file that was read is owned by a function of its own: what a function owns is what its check grows with.
fn show_file(alloc: Global, out: &mut String, file: File) -> Result<(), NoMemory> {
    show_findings(alloc, out, &file)
}

// The findings of a source; or `-` where it does not read.
fn findings(alloc: Global, source: &str) -> Result<String, Fail> {
    let mut out = String::new(alloc);
    match read_file(alloc, source.as_bytes()) {
        Ok(file) => show_file(alloc, &mut out, file)?,
        Err(_) => out.push_str("-")?,
    }
    Ok(out)
}

// A source, and its findings.
const ROWS: &[(&str, &str)] = &[
    ("", ""),
    (
        r"interface A1 { next: B1; }
interface B1 { next: A1; v: { w: number; }; }
interface A2 { next: B2; }
interface B2 { next: A2; v: { w: string; }; }
export function f(x: A1): A2 { return x; }
",
        "",
    ),
    (
        r"function f(): number { return 1; }
export const x = f();
",
        "TB9001@48 x;",
    ),
    (
        r#"export interface Circle { kind: "circle"; radius: number; }
export interface Square { kind: "square"; side: number; }
export type Shape = Circle | Square;
export function area(s: Shape): number { switch (s.kind) { case "circle": return 3 * s.radius * s.radius; case "square": return s.side * s.side; } }
"#,
        "",
    ),
    (
        "export class Log { readonly lines: string[] = []; add(line: string): void { this.lines.push(line); } }\n",
        "",
    ),
    (
        r#"import { area, type Shape } from "@core/shape";
import { Log } from "../../util/src/log";
const log: Log = new Log();
const all: Shape[] = [{ kind: "circle", radius: 2 }, { kind: "square", side: 3 }];
for (const s of all) { log.add(`${s.kind}: ${area(s)}`); }
export function summary(): string { return log.lines.join("; "); }
"#,
        "",
    ),
    (
        r#"export const a = 1, b = "x", c = -1, d = true, e: A = f(), g: B = (h) => h; export let i = 1, j: A;"#,
        "",
    ),
    (
        "export function f(a: A, b?: B, c: C = 1): R { return (x, y = 1) => x; }",
        "",
    ),
    (
        r#"export class C { a = 1; b: A; readonly c = "x"; d?: B; static e = -0x1; constructor(a: A) { } m(b: B): C { } }"#,
        "",
    ),
    (
        r#"interface I { m(a: A): B; } type T = (a: A) => B; import { x } from "m"; export { x }; export { y } from "n";"#,
        "",
    ),
    (
        "export const a = f(), b = (1), c = 1 as A, d = +1, e = `x`, f = null, g = undefined, h = -(1), i = !true;",
        "TB9001@13 a; TB9001@22 b; TB9001@31 c; TB9001@43 d; TB9001@51 e; TB9001@60 f; TB9001@70 g; TB9001@85 h; TB9001@95 i;",
    ),
    (
        r#"export let a, b = 1, c = "x" + "y", d: A, e = [1], f = {};"#,
        "TB9001@11 a; TB9001@21 c; TB9001@42 e; TB9001@51 f;",
    ),
    (
        r#"const a = f(); let b; export { a }; export { b as c, d }; const d = b; let e; export { e } from "m"; const g = e;"#,
        "TB9001@6 a; TB9001@19 b; TB9001@64 d;",
    ),
    ("const a = f(); export { b as a };", ""),
    (
        "const a = f(); export type { a }; const b = a; export { type b as c };",
        "TB9001@6 a; TB9001@40 b;",
    ),
    (
        "export const a: A = f(); { const a = 1 + 1; let b; } if (x) { const c = f(); } for (let d; ; ) { const e = d; } function g(): void { let h; const i = f(); }",
        "",
    ),
    ("let a; { let a; } export { a };", "TB9001@4 a;"),
    (
        "let a; let a = f(); export { a };",
        "TB9001@4 a; TB9001@11 a;",
    ),
    (
        "class C { a; b = f(); c? ; d: A; static e; static readonly f; readonly g = (1); readonly h = 1; i = 'x'; j = null; } export class D { k; }",
        "TB9001@10 a; TB9001@13 b; TB9001@22 c; TB9001@40 e; TB9001@59 f; TB9001@71 g; TB9001@105 j; TB9001@134 k;",
    ),
    (
        "class C { static; readonly; static static; readonly readonly; static readonly readonly; }",
        "TB9001@10 static; TB9001@18 readonly; TB9001@35 static; TB9001@52 readonly; TB9001@78 readonly;",
    ),
    ("function f() { }", "TB9002@9 f;"),
    (
        "function f(a, b: B, c?, d = 1, e: E = 2, g?: G) { } export function h(i): R { }",
        "TB9002@9 f; TB9003@11 a; TB9003@20 c; TB9003@24 d; TB9003@70 i;",
    ),
    (
        r#"class C { constructor(a, c: A, b = 1, d?) { } m() { } n(a): A { } static o(b?, c = "x") { } static(): A { } }"#,
        "TB9003@22 a; TB9003@31 b; TB9003@38 d; TB9002@46 m; TB9003@56 a; TB9002@73 o; TB9003@75 b; TB9003@79 c;",
    ),
    (
        "export class C { m(a) { return a; } a = 1; b; }",
        "TB9002@17 m; TB9003@19 a; TB9001@43 b;",
    ),
    (
        "const f = (a, b = 1) => a; const g = a => (b) => { return (c) => c; }; export const h: A = (a) => a;",
        "",
    ),
    (
        "const f = (a = (b = function_) => b) => { function g(c) { } let d; };",
        "TB9002@51 g; TB9003@53 c;",
    ),
    (
        "const f = (): A => { function g(a): B { return (b) => { function h() { } }; } };",
        "TB9003@32 a; TB9002@65 h;",
    ),
    (
        "f((a) => { function g(b): A { } }, [(c) => { function h() { } }], { k: () => { function i() { } }, l });",
        "TB9003@22 b; TB9002@54 h; TB9002@88 i;",
    ),
    (
        "function f(): A { function g() { function h(a): B { } } }",
        "TB9002@27 g; TB9003@44 a;",
    ),
    (
        "{ function a() { } { function b() { } } }",
        "TB9002@11 a; TB9002@30 b;",
    ),
    (
        "if (x) { function a() { } } else { function b() { } } if (x) ; else if (y) { function c() { } }",
        "TB9002@18 a; TB9002@44 b; TB9002@86 c;",
    ),
    (
        "while (x) { function a() { } } do { function b() { } } while (y);",
        "TB9002@21 a; TB9002@45 b;",
    ),
    (
        "while (x) y = () => { function a() { } }; do z(() => { function b() { } }); while (x); for (const c of d) e = () => { function g() { } };",
        "TB9002@31 a; TB9002@64 b; TB9002@127 g;",
    ),
    (
        "for (;;) { function a() { } } for (const x of y) { function b() { } } for (let i = 0; i < 1; i++) { function c() { } }",
        "TB9002@20 a; TB9002@60 b; TB9002@109 c;",
    ),
    (
        "switch (x) { case 1: function a() { } { function b() { } } default: function c() { } }",
        "TB9002@30 a; TB9002@49 b; TB9002@77 c;",
    ),
    (
        "function f(): A { if (x) return () => { function g() { } }; throw () => { function h() { } }; }",
        "TB9002@49 g; TB9002@83 h;",
    ),
    (
        "while (() => { function a() { } }) ; do ; while (() => { function b() { } }); if (() => { function c() { } }) ;",
        "TB9002@24 a; TB9002@66 b; TB9002@99 c;",
    ),
    (
        "for (let x = () => { function a() { } }; () => { function b() { } }; () => { function c() { } }) ; for (const y of () => { function d() { } }) ;",
        "TB9002@30 a; TB9002@58 b; TB9002@86 c; TB9002@132 d;",
    ),
    (
        "for (() => { function a() { } }; ; ) ; switch (() => { function b() { } }) { case () => { function c() { } }: }",
        "TB9002@22 a; TB9002@64 b; TB9002@99 c;",
    ),
    (
        "const x: A = () => { function a() { } }, y: B = (() => { function b() { } }); let z = !(() => { function c() { } });",
        "TB9002@30 a; TB9002@66 b; TB9002@105 c;",
    ),
    (
        "x = () => { function a() { } }; x.y += () => { function b() { } }; x[() => { function c() { } }] = 1;",
        "TB9002@21 a; TB9002@56 b; TB9002@86 c;",
    ),
    (
        "x((() => { function a() { } })(), y[() => { function b() { } }], new Z(() => { function c() { } }));",
        "TB9002@20 a; TB9002@53 b; TB9002@88 c;",
    ),
    (
        "(() => { function a() { } }).p; (() => { function b() { } })[0]; (() => { function c() { } }) as A;",
        "TB9002@18 a; TB9002@50 b; TB9002@83 c;",
    ),
    (
        "x ? () => { function a() { } } : () => { function b() { } }; (() => { function c() { } }) ? 1 : 2;",
        "TB9002@21 a; TB9002@50 b; TB9002@79 c;",
    ),
    (
        "(() => { function a() { } }) + (() => { function b() { } }); x && (() => { function c() { } }); typeof (() => { function d() { } });",
        "TB9002@18 a; TB9002@49 b; TB9002@84 c; TB9002@121 d;",
    ),
    (
        "`${() => { function a() { } }} ${x} ${() => { function b() { } }}`; -(() => { function c() { } }); (() => { function d() { } })[0]++;",
        "TB9002@20 a; TB9002@55 b; TB9002@87 c; TB9002@117 d;",
    ),
    (
        "function f(a: A = () => { function g() { } }, b = () => { function h() { } }): B { }",
        "TB9002@35 g; TB9003@46 b; TB9002@67 h;",
    ),
    (
        "class C { a: A = () => { function g() { } }; b = () => { function h() { } }; constructor(c = () => { function i() { } }) { function j() { } } m(d = () => { function k() { } }): D { function l() { } } }",
        "TB9002@34 g; TB9001@45 b; TB9002@66 h; TB9003@89 c; TB9002@110 i; TB9002@132 j; TB9003@144 d; TB9002@165 k; TB9002@190 l;",
    ),
    (
        "export function f(a = (b) => { function g(c) { } }, d?) { function h() { } } class C { e = () => { function i() { } }; k(l) { } } export let m = () => { function n() { } }, o;",
        "TB9002@16 f; TB9003@18 a; TB9002@40 g; TB9003@42 c; TB9003@52 d; TB9002@67 h; TB9001@87 e; TB9002@108 i; TB9002@119 k; TB9003@121 l; TB9001@141 m; TB9002@162 n; TB9001@173 o;",
    ),
    (
        "\u{feff}export let a;\r\n/* é */ export let é, 中;",
        "TB9001@11 a; TB9001@35 é; TB9001@39 中;",
    ),
];

#[test]
fn finds_what_lacks_an_annotation(rt: HostRuntime) -> Result<(), Fail> {
    for (source, wanted) in ROWS {
        let found = findings(rt.alloc(), source)?;
        assert_eq!(rt; found.as_str(), *wanted, "{source}");
    }
    Ok(())
}
