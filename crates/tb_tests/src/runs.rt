//! Whole runs: from the words and files of a workspace to all that the run leaves.

use crate::workspaces::{fresh, left_by, workspace};
use std::test::Fail;

const ONE: &str = r#"@tsconfig.json
{"compilerOptions":{"composite":true,"outDir":"dist"}}
@a.ts
export const a: number = 1;
"#;

const ONE_LEAVES: &str = r#"status 0, checked 1, built 1, settled 0
generation 0: 0 errors in 1 projects
@dist/a.d.ts
export declare const a: number;
@dist/a.js
export const a = 1;
@dist/tsconfig.tsbuildinfo
{"builder":"tb1","files":[{"edges":[],"findings":[],"path":"a.ts","reach":[],"signature":"52db5d1a3fa84d3692297673f6fede59e50d94b4ed2cab8398c7a65e1a45e6fa","version":"8fbccf1f29c58f5ceefc8a9a2d793cadf78d1f97e74c5e33b231b96a0cf74c66"}],"options":"da63203dc008c1b6c8cf9d5721928538f32bf662e66073ab65130a6732d4e545","pending":[],"project":"tsconfig.json","root":""}"#;

const ONE_LEAVES_VERBOSE: &str = r#"status 0, checked 1, built 1, settled 0
project tsconfig.json: 1 files, 0 errors
generation 0: 0 errors in 1 projects
@dist/a.d.ts
export declare const a: number;
@dist/a.js
export const a = 1;
@dist/tsconfig.tsbuildinfo
{"builder":"tb1","files":[{"edges":[],"findings":[],"path":"a.ts","reach":[],"signature":"52db5d1a3fa84d3692297673f6fede59e50d94b4ed2cab8398c7a65e1a45e6fa","version":"8fbccf1f29c58f5ceefc8a9a2d793cadf78d1f97e74c5e33b231b96a0cf74c66"}],"options":"da63203dc008c1b6c8cf9d5721928538f32bf662e66073ab65130a6732d4e545","pending":[],"project":"tsconfig.json","root":""}"#;

const BASES: &str = r#"@tsconfig.json
{
  // bases
  "extends": ["./base/one.json", "./base/two"],
  "files": ["a.ts"],
}
@a.ts
export const a: number = 1;
@base/one.json
{"compilerOptions":{"composite":true,"outDir":"../x"}}
@base/two.json
{"compilerOptions":{"outDir":"./y"}}
"#;

const BASES_LEAVE: &str = r#"status 0, checked 1, built 1, settled 0
generation 0: 0 errors in 1 projects
@base/y/a.d.ts
export declare const a: number;
@base/y/a.js
export const a = 1;
@base/y/tsconfig.tsbuildinfo
{"builder":"tb1","files":[{"edges":[],"findings":[],"path":"a.ts","reach":[],"signature":"52db5d1a3fa84d3692297673f6fede59e50d94b4ed2cab8398c7a65e1a45e6fa","version":"8fbccf1f29c58f5ceefc8a9a2d793cadf78d1f97e74c5e33b231b96a0cf74c66"}],"options":"607f176acdc70b33313bcf65ad3826982da867ee4cbe8540760c690a37c1897b","pending":[],"project":"tsconfig.json","root":""}"#;

const SOLUTION: &str = r#"@tsconfig.json
{"files":[],"references":[{"path":"p"},{"path":"q"}]}
@p/tsconfig.json
{"compilerOptions":{"composite":true,"outDir":"dist"}}
@p/a.ts
export const a: number = 1;
@q/tsconfig.json
{"compilerOptions":{"composite":true,"outDir":"dist"}}
@q/a.ts
export const a: number = 1;
"#;

// The output folder of a solution is none.
const SOLUTION_WITH_FOLDER: &str = r#"@tsconfig.json
{"compilerOptions":{"outDir":"."},"files":[],"references":[{"path":"p"},{"path":"q/tsconfig.json"}]}
@p/tsconfig.json
{"compilerOptions":{"composite":true,"outDir":"dist"}}
@p/a.ts
export const a: number = 1;
@q/tsconfig.json
{"compilerOptions":{"composite":true,"outDir":"dist"}}
@q/a.ts
export const a: number = 1;
"#;

const SOLUTION_LEAVES: &str = r#"status 0, checked 2, built 2, settled 0
generation 0: 0 errors in 3 projects
@p/dist/a.d.ts
export declare const a: number;
@p/dist/a.js
export const a = 1;
@p/dist/tsconfig.tsbuildinfo
{"builder":"tb1","files":[{"edges":[],"findings":[],"path":"p/a.ts","reach":[],"signature":"52db5d1a3fa84d3692297673f6fede59e50d94b4ed2cab8398c7a65e1a45e6fa","version":"8fbccf1f29c58f5ceefc8a9a2d793cadf78d1f97e74c5e33b231b96a0cf74c66"}],"options":"4952bd39ba5f6c01c97a11296dbf19d7cbb4d685af4ad8b5345f608005a702b3","pending":[],"project":"p/tsconfig.json","root":"p"}@q/dist/a.d.ts
export declare const a: number;
@q/dist/a.js
export const a = 1;
@q/dist/tsconfig.tsbuildinfo
{"builder":"tb1","files":[{"edges":[],"findings":[],"path":"q/a.ts","reach":[],"signature":"52db5d1a3fa84d3692297673f6fede59e50d94b4ed2cab8398c7a65e1a45e6fa","version":"8fbccf1f29c58f5ceefc8a9a2d793cadf78d1f97e74c5e33b231b96a0cf74c66"}],"options":"9e983d665c6e0a9ac5f0ccfc03c9d2b820e52caf40901ee301c7d66027b99298","pending":[],"project":"q/tsconfig.json","root":"q"}"#;

const CYCLE: &str = r#"@a/tsconfig.json
{"compilerOptions":{"composite":true,"outDir":"dist"},"references":[{"path":"../b"}]}
@a/a.ts
export const a: number = 1;
@b/tsconfig.json
{"compilerOptions":{"composite":true,"outDir":"dist"},"references":[{"path":"../c"}]}
@b/a.ts
export const a: number = 1;
@c/tsconfig.json
{"compilerOptions":{"composite":true,"outDir":"dist"},"references":[{"path":"../a"}]}
@c/a.ts
export const a: number = 1;
"#;

const CYCLE_LEAVES: &str = "status 4, checked 0, built 0, settled 0
a/tsconfig.json(1,1): error TS6202: Project references form a cycle: a/tsconfig.json, b/tsconfig.json, c/tsconfig.json.
generation 0: 1 errors in 0 projects
";

const MISSING_LEAVES: &str = "status 3, checked 0, built 0, settled 0
nope/tsconfig.json(1,1): error TB5002: Config not found.
generation 0: 1 errors in 0 projects
";

const NOT_COMPOSITE: &str = r#"@app/tsconfig.json
{"compilerOptions":{"outDir":"dist"},"references":[{"path":"../lib"}]}
@app/a.ts
export const a: number = 1;
@lib/tsconfig.json
{"compilerOptions":{"outDir":"dist"}}
@lib/a.ts
export const a: number = 1;
"#;

const NOT_COMPOSITE_LEAVES: &str = "status 1, checked 0, built 0, settled 0
app/tsconfig.json(1,1): error TS6306: Referenced project 'lib/tsconfig.json' must set composite.
generation 0: 1 errors in 0 projects
";

const UNKNOWN: &str = r#"@tsconfig.json
{"compilerOptions":{"composite":true,"outDir":"dist","foo":1}}
@a.ts
export const a: number = 1;
"#;

const UNKNOWN_LEAVES: &str = "status 1, checked 0, built 0, settled 0
tsconfig.json(1,1): error TB5005: Config fault 5005: 'foo'.
generation 0: 1 errors in 0 projects
";

const EMPTY: &str = r#"@tsconfig.json
{"compilerOptions":{"composite":true,"outDir":"dist"}}
@a.ts
"#;

const EMPTY_LEAVES: &str = r#"status 0, checked 1, built 1, settled 0
generation 0: 0 errors in 1 projects
@dist/a.d.ts
export {};
@dist/a.js
export {};
@dist/tsconfig.tsbuildinfo
{"builder":"tb1","files":[{"edges":[],"findings":[],"path":"a.ts","reach":[],"signature":"8e609bb71c20b858c77f0e9f90bb1319db8477b13f9f965f1a1e18524bf50881","version":"e3b0c44298fc1c149afbf4c8996fb92427ae41e4649b934ca495991b7852b855"}],"options":"da63203dc008c1b6c8cf9d5721928538f32bf662e66073ab65130a6732d4e545","pending":[],"project":"tsconfig.json","root":""}"#;

const FOLDERS: &str = r#"@tsconfig.json
{"compilerOptions":{"composite":true,"outDir":"dist"}}
@lib/one.ts
// the first
export interface Point { x: number; label: string; }
export const zero: number = 0;
@src/a-b.ts
@src/a.ts
export type Name = string;
"#;

const FOLDERS_LEAVE: &str = r#"status 0, checked 3, built 1, settled 0
generation 0: 0 errors in 1 projects
@dist/lib/one.d.ts
export interface Point {
    x: number;
    label: string;
}
export declare const zero: number;
@dist/lib/one.js
export const zero = 0;
@dist/src/a-b.d.ts
export {};
@dist/src/a-b.js
export {};
@dist/src/a.d.ts
export type Name = string;
@dist/src/a.js
export {};
@dist/tsconfig.tsbuildinfo
{"builder":"tb1","files":[{"edges":[],"findings":[],"path":"lib/one.ts","reach":[],"signature":"1f3e2bec8851c16200040bde0b61a3ea7e9a34cf353eff1057b3945d54c2b1c3","version":"5a93ea3745d08ed5c8da86981593704cde8ca104889b779e9662b3c8605c0943"},{"edges":[],"findings":[],"path":"src/a-b.ts","reach":[],"signature":"8e609bb71c20b858c77f0e9f90bb1319db8477b13f9f965f1a1e18524bf50881","version":"e3b0c44298fc1c149afbf4c8996fb92427ae41e4649b934ca495991b7852b855"},{"edges":[],"findings":[],"path":"src/a.ts","reach":[],"signature":"dd7279a6e85125444c833692cc3c8492871012b0e373a73e53f2db206f3a4ec9","version":"dd7279a6e85125444c833692cc3c8492871012b0e373a73e53f2db206f3a4ec9"}],"options":"da63203dc008c1b6c8cf9d5721928538f32bf662e66073ab65130a6732d4e545","pending":[],"project":"tsconfig.json","root":""}"#;

// A constant without an annotation has the type of its literal.
const LITERAL: &str = r#"@tsconfig.json
{"compilerOptions":{"composite":true,"outDir":"dist"}}
@a.ts
export const x = 1;
"#;

const LITERAL_LEAVES: &str = r#"status 0, checked 1, built 1, settled 0
generation 0: 0 errors in 1 projects
@dist/a.d.ts
export declare const x: 1;
@dist/a.js
export const x = 1;
@dist/tsconfig.tsbuildinfo
{"builder":"tb1","files":[{"edges":[],"findings":[],"path":"a.ts","reach":[],"signature":"a2074470d35187a4d7597b6f5394155aed39895485549c7b4ff17782fb71ad90","version":"b40dedde60828bf61d1fadbfc3bb7ea2e0421e9511d22f1b5fb44ae5ba07dbb3"}],"options":"da63203dc008c1b6c8cf9d5721928538f32bf662e66073ab65130a6732d4e545","pending":[],"project":"tsconfig.json","root":""}"#;

const LITERALS: &str = r#"@tsconfig.json
{"compilerOptions":{"composite":true,"outDir":"dist"}}
@a.ts
export const half = 0.5;
export const zero = 0;
export const hex = 0x10;
export const s = 'a"b';
export const yes = true;
export const no: boolean = false;
export interface I { x: number; }
export type T = string;
@b.ts
export const a: number = 1;
"#;

const LITERALS_LEAVE: &str = r#"status 0, checked 2, built 1, settled 0
generation 0: 0 errors in 1 projects
@dist/a.d.ts
export declare const half: number;
export declare const zero: 0;
export declare const hex: number;
export declare const s: "a\"b";
export declare const yes: true;
export declare const no: boolean;
export interface I {
    x: number;
}
export type T = string;
@dist/a.js
export const half = 0.5;
export const zero = 0;
export const hex = 0x10;
export const s = 'a"b';
export const yes = true;
export const no = false;
@dist/b.d.ts
export declare const a: number;
@dist/b.js
export const a = 1;
@dist/tsconfig.tsbuildinfo
{"builder":"tb1","files":[{"edges":[],"findings":[],"path":"a.ts","reach":[],"signature":"6680d217a605effb76da264677dce225223ba2d80b8098c5e7cd7657cd3dd8ad","version":"d5d865bcaff3f5a03c47cda88d818b86491d734bc9b0d7e2eed0d25c54369aa9"},{"edges":[],"findings":[],"path":"b.ts","reach":[],"signature":"52db5d1a3fa84d3692297673f6fede59e50d94b4ed2cab8398c7a65e1a45e6fa","version":"8fbccf1f29c58f5ceefc8a9a2d793cadf78d1f97e74c5e33b231b96a0cf74c66"}],"options":"da63203dc008c1b6c8cf9d5721928538f32bf662e66073ab65130a6732d4e545","pending":[],"project":"tsconfig.json","root":""}"#;

// Beside the one file, others that the config does not find.
const UNFOUND: &str = r#"@tsconfig.json
{"compilerOptions":{"composite":true,"outDir":"dist"}}
@a.ts
export const a: number = 1;
@.b.ts
not plain
@.hidden/b.ts
not plain
@a.d.ts
not plain
@bower_components/b.ts
not plain
@dist/b.ts
not plain
@notes.txt
not plain
@other.json
not plain
@src/.hidden/b.ts
not plain
@src/node_modules/b/c.ts
not plain
"#;

// A byte order mark begins the config, and blank lines end it.
const MARKED: &str = "@tsconfig.json
\u{feff}{\"compilerOptions\":{\"composite\":true,\"outDir\":\"dist\"}}


@a.ts
export const a: number = 1;
";

// The words, the files, and what the run leaves.
fn row(case: u8) -> (&'static str, &'static str, &'static str) {
    match case {
        0 => ("", ONE, ONE_LEAVES),
        1 => ("-b", ONE, ONE_LEAVES),
        2 => ("--build", ONE, ONE_LEAVES),
        3 => ("--workers 2 --turns 7", ONE, ONE_LEAVES),
        4 => ("--workers=64 -- tsconfig.json", ONE, ONE_LEAVES),
        5 => ("-v", ONE, ONE_LEAVES_VERBOSE),
        6 => ("--verbose --verbose", ONE, ONE_LEAVES_VERBOSE),
        7 => ("", BASES, BASES_LEAVE),
        8 => ("", SOLUTION, SOLUTION_LEAVES),
        9 => ("a", CYCLE, CYCLE_LEAVES),
        10 => ("nope", ONE, MISSING_LEAVES),
        11 => ("--verbose nope", ONE, MISSING_LEAVES),
        12 => ("app", NOT_COMPOSITE, NOT_COMPOSITE_LEAVES),
        13 => ("", UNKNOWN, UNKNOWN_LEAVES),
        14 => ("", EMPTY, EMPTY_LEAVES),
        15 => ("", FOLDERS, FOLDERS_LEAVE),
        16 => ("", UNFOUND, ONE_LEAVES),
        17 => ("", MARKED, ONE_LEAVES),
        18 => ("", SOLUTION_WITH_FOLDER, SOLUTION_LEAVES),
        19 => ("", LITERAL, LITERAL_LEAVES),
        _ => ("", LITERALS, LITERALS_LEAVE),
    }
}

#[test]
fn whole_runs_leave_just_this(rt: HostRuntime) -> Result<(), Fail> {
    let alloc = rt.alloc();
    for case in 0..21u8 {
        let (words, files, wanted) = row(case);
        let run = fresh(alloc, words, workspace(alloc, files)?)?;
        let left = left_by(alloc, &run)?;
        assert_eq!(rt; left.as_str(), wanted, "in case {case}");
    }
    Ok(())
}
