//! Runs over configs that use what a config may say: bases, folders, lists of files, patterns and comments.

use crate::workspaces::{fresh, left_by, workspace};
use std::test::Fail;

// A base gives options and what is excluded; the config has its own list, patterns and output folder.
const INHERITED: &str = r#"@base.json
// What all projects have.
{
  "compilerOptions": {
    "composite": true, /* for references */
    "rootDir": "packages/app/src",
    "outDir": "elsewhere", // is overridden
    "strict": true,
  },
  "exclude": ["packages/app/src/skip"],
}
@packages/app/tsconfig.json
{
  "extends": "../../base",
  "compilerOptions": {
    "outDir": "../../built/app",
    "paths": { "two": ["src/b"], "one/*": ["./src/*", "../lib/*"] },
  },
  "files": ["src/skip/named.ts"],
  "include": ["src"],
}
@packages/app/outside.ts
not plain
@packages/app/src/.hidden/a.ts
not plain
@packages/app/src/b.d.ts
not plain
@packages/app/src/b.ts
// no item
@packages/app/src/deep/a.ts
export interface Point { x: number; }
@packages/app/src/node_modules/a.ts
not plain
@packages/app/src/skip/named.ts
export const named: boolean = true;
@packages/app/src/skip/other.ts
not plain
"#;

const INHERITED_LEAVES: &str = r#"status 0, checked 3, built 1, settled 0
generation 0: 0 errors in 1 projects
@built/app/b.d.ts
export {};
@built/app/b.js
export {};
@built/app/deep/a.d.ts
export interface Point {
    x: number;
}
@built/app/deep/a.js
export {};
@built/app/skip/named.d.ts
export declare const named: boolean;
@built/app/skip/named.js
export const named = true;
@built/app/tsconfig.tsbuildinfo
{"builder":"tb1","files":[{"edges":[],"findings":[],"path":"packages/app/src/b.ts","reach":[],"signature":"8e609bb71c20b858c77f0e9f90bb1319db8477b13f9f965f1a1e18524bf50881","version":"ae9282ebdf46f84aab7f532ca25689f9606f8dbec2cb7ca2c71aa7340b66ee88"},{"edges":[],"findings":[],"path":"packages/app/src/deep/a.ts","reach":[],"signature":"1b89eb1540474fb422d6c0621c2384f3dcd5d39565634ad7cca64f33a472386e","version":"e730e26f774f635af516c1d59385dbeda089d2f66381f620d3d790058eaf8158"},{"edges":[],"findings":[],"path":"packages/app/src/skip/named.ts","reach":[],"signature":"c25e55507ff056cb4a7da8db20cc3c47d3555f90b95e1d5bcdffb4adf6752923","version":"2b8662fc341bdd9de43058b143ba583ebdc4e7f0c4351e34b1fc293e7ce3fe71"}],"options":"fabbfb4dd4140e0ae2742a8fd18bb45d6172960cd1420b3dc819b7a0ce3c6bab","pending":[],"project":"packages/app/tsconfig.json","root":"packages/app/src"}"#;

// Two projects of one folder, told apart by patterns.
const PATTERNS: &str = r#"@p/one.json
{"compilerOptions":{"composite":true,"outDir":"../out/one"},"include":["*.ts"],"exclude":["b?.ts"]}
@p/two.json
{"compilerOptions":{"outDir":"../out/two","target":"ES2022","module":"ESNext"},"include":["b*"],"references":[{"path":"./one.json"}]}
@p/a.ts
export const a: number = 1;
@p/b1.d.ts
not plain
@p/b1.ts
export type B = string;
@p/b2.ts
@p/deep/c.ts
not plain
"#;

const PATTERNS_LEAVE: &str = r#"status 0, checked 3, built 2, settled 0
project p/one.json: 1 files, 0 errors
project p/two.json: 2 files, 0 errors
generation 0: 0 errors in 2 projects
@out/one/a.d.ts
export declare const a: number;
@out/one/a.js
export const a = 1;
@out/one/tsconfig.tsbuildinfo
{"builder":"tb1","files":[{"edges":[],"findings":[],"path":"p/a.ts","reach":[],"signature":"52db5d1a3fa84d3692297673f6fede59e50d94b4ed2cab8398c7a65e1a45e6fa","version":"8fbccf1f29c58f5ceefc8a9a2d793cadf78d1f97e74c5e33b231b96a0cf74c66"}],"options":"adf7527c8a9c932621875885d662ab82211a4f94f82586dad325376eeea9bc1e","pending":[],"project":"p/one.json","root":"p"}@out/two/b1.d.ts
export type B = string;
@out/two/b1.js
export {};
@out/two/b2.d.ts
export {};
@out/two/b2.js
export {};
@out/two/tsconfig.tsbuildinfo
{"builder":"tb1","files":[{"edges":[],"findings":[],"path":"p/b1.ts","reach":[],"signature":"d36a49d2c4dbd93fe26443095b4e7dda2803d5864e36ea8e13985a066b5ee2fe","version":"d36a49d2c4dbd93fe26443095b4e7dda2803d5864e36ea8e13985a066b5ee2fe"},{"edges":[],"findings":[],"path":"p/b2.ts","reach":[],"signature":"8e609bb71c20b858c77f0e9f90bb1319db8477b13f9f965f1a1e18524bf50881","version":"e3b0c44298fc1c149afbf4c8996fb92427ae41e4649b934ca495991b7852b855"}],"options":"6ffb586b94ac40e732137b3b160b00bdff79af546ce6bb559c598f2f78509c0d","pending":[],"project":"p/two.json","root":"p"}"#;

// A base in a folder of its own gives the patterns; its references and its list of files do not count.
const REPLACED: &str = r#"@config/base.json
{
  "compilerOptions": {
    "outDir": "../dist", "noEmit": false, "lib": ["dom"], "newLine": "lf",
  },
  "files": ["gone.ts"],
  "include": ["../src/**/*"],
  "references": [{ "path": "nowhere" }],
  "compileOnSave": true,
}
@lone.ts
export const lone: string = "x";
@other.ts
not plain
@src/a.ts
@src/node_modules/b.ts
not plain
@tsconfig.json
{ "extends": "./config/base", "files": ["src/a.ts", "lone.ts", "./lone.ts"] }
"#;

const REPLACED_LEAVES: &str = r#"status 0, checked 2, built 1, settled 0
generation 0: 0 errors in 1 projects
@dist/lone.d.ts
export declare const lone: string;
@dist/lone.js
export const lone = "x";
@dist/src/a.d.ts
export {};
@dist/src/a.js
export {};
@dist/tsconfig.tsbuildinfo
{"builder":"tb1","files":[{"edges":[],"findings":[],"path":"lone.ts","reach":[],"signature":"376bf3aee8108a098e827cb8a8c1c74e4bc3255e122bcbe0ae74f8d4a560bbc9","version":"00cfd795deb002c993b002d1e09ec83377a7e0171599584b215d654d4e265a4b"},{"edges":[],"findings":[],"path":"src/a.ts","reach":[],"signature":"8e609bb71c20b858c77f0e9f90bb1319db8477b13f9f965f1a1e18524bf50881","version":"e3b0c44298fc1c149afbf4c8996fb92427ae41e4649b934ca495991b7852b855"}],"options":"da63203dc008c1b6c8cf9d5721928538f32bf662e66073ab65130a6732d4e545","pending":[],"project":"tsconfig.json","root":""}"#;

// Projects that reach one another and themselves by several words are built once each.
const SHARED: &str = r#"@app/tsconfig.json
{"compilerOptions":{"composite":true,"outDir":"dist"},"references":[{"path":"../util"},{"path":"../core/tsconfig.json"}]}
@app/m.ts
@core/tsconfig.json
{"compilerOptions":{"composite":true,"outDir":"dist"}}
@core/c.ts
@util/tsconfig.json
{"compilerOptions":{"composite":true,"outDir":"dist"},"references":[{"path":"../core"}]}
@util/u.ts
"#;

const SHARED_LEAVES: &str = r#"status 0, checked 3, built 3, settled 0
project core/tsconfig.json: 1 files, 0 errors
project util/tsconfig.json: 1 files, 0 errors
project app/tsconfig.json: 1 files, 0 errors
generation 0: 0 errors in 3 projects
@app/dist/m.d.ts
export {};
@app/dist/m.js
export {};
@app/dist/tsconfig.tsbuildinfo
{"builder":"tb1","files":[{"edges":[],"findings":[],"path":"app/m.ts","reach":[],"signature":"8e609bb71c20b858c77f0e9f90bb1319db8477b13f9f965f1a1e18524bf50881","version":"e3b0c44298fc1c149afbf4c8996fb92427ae41e4649b934ca495991b7852b855"}],"options":"ef989f9cd703764c4d02eed0afbec3751a25a0774f2bbf3df451d9824898b8f6","pending":[],"project":"app/tsconfig.json","root":"app"}@core/dist/c.d.ts
export {};
@core/dist/c.js
export {};
@core/dist/tsconfig.tsbuildinfo
{"builder":"tb1","files":[{"edges":[],"findings":[],"path":"core/c.ts","reach":[],"signature":"8e609bb71c20b858c77f0e9f90bb1319db8477b13f9f965f1a1e18524bf50881","version":"e3b0c44298fc1c149afbf4c8996fb92427ae41e4649b934ca495991b7852b855"}],"options":"ccc386869b5e7d27842c97e0c1e691eb69249bd81b791ea979937b003aa0a173","pending":[],"project":"core/tsconfig.json","root":"core"}@util/dist/tsconfig.tsbuildinfo
{"builder":"tb1","files":[{"edges":[],"findings":[],"path":"util/u.ts","reach":[],"signature":"8e609bb71c20b858c77f0e9f90bb1319db8477b13f9f965f1a1e18524bf50881","version":"e3b0c44298fc1c149afbf4c8996fb92427ae41e4649b934ca495991b7852b855"}],"options":"cbd9bd1d2046c102a5cea01719c89b299d0fc175ece88e4c974d7883557ebfc9","pending":[],"project":"util/tsconfig.json","root":"util"}@util/dist/u.d.ts
export {};
@util/dist/u.js
export {};
"#;

// The words, the files, and what the run leaves.
fn setting(case: u8) -> (&'static str, &'static str, &'static str) {
    match case {
        0 => ("packages/app", INHERITED, INHERITED_LEAVES),
        1 => ("-v p/two.json", PATTERNS, PATTERNS_LEAVE),
        2 => ("", REPLACED, REPLACED_LEAVES),
        _ => (
            "-v core util app app/./tsconfig.json",
            SHARED,
            SHARED_LEAVES,
        ),
    }
}

#[test]
fn configs_say_what_is_built_and_where(rt: HostRuntime) -> Result<(), Fail> {
    let alloc = rt.alloc();
    for case in 0..4u8 {
        let (words, files, wanted) = setting(case);
        let run = fresh(alloc, words, workspace(alloc, files)?)?;
        let left = left_by(alloc, &run)?;
        assert_eq!(rt; left.as_str(), wanted, "in case {case}");
    }
    Ok(())
}
