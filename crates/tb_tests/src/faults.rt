//! Runs over plans with faults: they report all of them and build nothing, whatever else is sound.

use crate::workspaces::{fresh, left_by, workspace};
use std::test::Fail;

const NO_CONFIG: &str = "@a.ts
export const a: number = 1;
";

const NO_CONFIG_LEAVES: &str = "status 3, checked 0, built 0, settled 0
tsconfig.json(1,1): error TB5002: Config not found.
generation 0: 1 errors in 0 projects
";

const NO_INPUT: &str = r#"@tsconfig.json
{"compilerOptions":{"composite":true,"outDir":"dist"}}
@dist/a.ts
export const a: number = 1;
"#;

const NO_INPUT_LEAVES: &str = "status 1, checked 0, built 0, settled 0
tsconfig.json(1,1): error TB5013: Config fault 5013: 'files'.
generation 0: 1 errors in 0 projects
";

const NO_FOLDER: &str = "@tsconfig.json
{}
@a.ts
not plain
";

const NO_FOLDER_LEAVES: &str = "status 1, checked 0, built 0, settled 0
tsconfig.json(1,1): error TB5007: Config fault 5007: 'outDir'.
generation 0: 1 errors in 0 projects
";

// Two roots that are unreadable, beside one that is sound.
const UNREADABLE: &str = r#"@a/tsconfig.json
{"compilerOptions":{"outDir":"dist"}
@b/tsconfig.json
[]
@c/tsconfig.json
{"compilerOptions":{"composite":true,"outDir":"dist"}}
@c/c.ts
"#;

const UNREADABLE_LEAVES: &str = "status 3, checked 0, built 0, settled 0
a/tsconfig.json(1,1): error TB5001: Config is unreadable.
b/tsconfig.json(1,1): error TB5001: Config is unreadable.
generation 0: 2 errors in 0 projects
";

// What is missing or unreadable is no root: two references and two bases.
const NO_ROOTS: &str = r#"@tsconfig.json
{"files":[],"references":[{"path":"a"},{"path":"b"},{"path":"gone"},{"path":"torn"}]}
@a/tsconfig.json
{"extends":"./base","compilerOptions":{"outDir":"dist"}}
@a/a.ts
@b/tsconfig.json
{"extends":["./base"],"compilerOptions":{"outDir":"dist"}}
@b/base.json
{"compilerOptions":{"outDir":"dist"} /* no end
@b/b.ts
@torn/tsconfig.json
"text"
"#;

const NO_ROOTS_LEAVE: &str = "status 1, checked 0, built 0, settled 0
a/base.json(1,1): error TB5002: Config not found.
b/base.json(1,1): error TB5001: Config is unreadable.
gone/tsconfig.json(1,1): error TB5002: Config not found.
torn/tsconfig.json(1,1): error TB5001: Config is unreadable.
generation 0: 4 errors in 0 projects
";

// A project that is not composite, and is referenced by a solution, to which that is no matter, and by another.
const NOT_COMPOSITE: &str = r#"@tsconfig.json
{"files":[],"references":[{"path":"other"},{"path":"lib"},{"path":"app"}]}
@other/tsconfig.json
{"compilerOptions":{"composite":true,"outDir":"dist"}}
@other/o.ts
@app/tsconfig.json
{"compilerOptions":{"composite":true,"outDir":"dist"},"references":[{"path":"../other"},{"path":"../lib"}]}
@app/m.ts
@lib/tsconfig.json
{"compilerOptions":{"composite":false,"outDir":"dist"}}
@lib/l.ts
"#;

const NOT_COMPOSITE_LEAVES: &str = "status 1, checked 0, built 0, settled 0
app/tsconfig.json(1,1): error TS6306: Referenced project 'lib/tsconfig.json' must set composite.
generation 0: 1 errors in 0 projects
";

// An output folder inside that of a later project, beside a sound one.
const NESTED: &str = r#"@a/tsconfig.json
{"compilerOptions":{"outDir":"../d/e"}}
@a/a.ts
@b/tsconfig.json
{"compilerOptions":{"outDir":"../d"}}
@b/b.ts
@c/tsconfig.json
{"compilerOptions":{"outDir":"dist"}}
@c/c.ts
"#;

const NESTED_LEAVE: &str = "status 1, checked 0, built 0, settled 0
b/tsconfig.json(1,1): error TB5008: Config fault 5008: 'a/tsconfig.json'.
generation 0: 1 errors in 0 projects
";

// A cycle that no root stands in, and an input that is not plain, which is no matter here.
const CYCLE: &str = r#"@app/tsconfig.json
{"compilerOptions":{"composite":true,"outDir":"dist"},"references":[{"path":"../b"}]}
@app/m.ts
not plain
@b/tsconfig.json
{"compilerOptions":{"composite":true,"outDir":"dist"},"references":[{"path":"../d"},{"path":"../c"}]}
@b/b.ts
@c/tsconfig.json
{"compilerOptions":{"composite":true,"outDir":"dist"},"references":[{"path":"../b"}]}
@c/c.ts
@d/tsconfig.json
{"compilerOptions":{"composite":true,"outDir":"dist"}}
@d/d.ts
"#;

const CYCLE_LEAVES: &str = "status 4, checked 0, built 0, settled 0
b/tsconfig.json(1,1): error TS6202: Project references form a cycle: b/tsconfig.json, c/tsconfig.json.
generation 0: 1 errors in 0 projects
";

const CYCLE_WITHOUT_ROOT_LEAVES: &str = "status 4, checked 0, built 0, settled 0
b/tsconfig.json(1,1): error TS6202: Project references form a cycle: b/tsconfig.json, c/tsconfig.json.
nope/tsconfig.json(1,1): error TB5002: Config not found.
generation 0: 2 errors in 0 projects
";

// Faults of configs and references stand together, ordered by path, code and arguments, each once. Those of inputs and
// folders are not told beside them.
const SEVERAL: &str = r#"@a/tsconfig.json
{"compilerOptions":{"outDir":"dist"},"references":[{"path":"../lib"},{"path":"../gone"},{"path":"../b"}]}
@b/tsconfig.json
{"compilerOptions":{"outDir":"dist","foo":1,"strict":false,"bar":{}},"references":[{"path":"../lost"}]}
@lib/tsconfig.json
{"compilerOptions":{"outDir":"../a/dist"},"references":[{"path":"../gone"}]}
"#;

const SEVERAL_LEAVE: &str = "status 1, checked 0, built 0, settled 0
a/tsconfig.json(1,1): error TS6306: Referenced project 'lib/tsconfig.json' must set composite.
b/tsconfig.json(1,1): error TB5005: Config fault 5005: 'bar'.
b/tsconfig.json(1,1): error TB5005: Config fault 5005: 'foo'.
b/tsconfig.json(1,1): error TB5006: Config fault 5006: 'strict'.
gone/tsconfig.json(1,1): error TB5002: Config not found.
generation 0: 5 errors in 0 projects
";

const SEVERAL_WITHOUT_ROOT_LEAVE: &str = "status 3, checked 0, built 0, settled 0
a/tsconfig.json(1,1): error TS6306: Referenced project 'lib/tsconfig.json' must set composite.
b/tsconfig.json(1,1): error TB5005: Config fault 5005: 'bar'.
b/tsconfig.json(1,1): error TB5005: Config fault 5005: 'foo'.
b/tsconfig.json(1,1): error TB5006: Config fault 5006: 'strict'.
gone/tsconfig.json(1,1): error TB5002: Config not found.
generation 0: 5 errors in 0 projects
";

// A solution is a referenced project like any other.
const SOLUTION: &str = r#"@app/tsconfig.json
{"compilerOptions":{"outDir":"dist"},"references":[{"path":"../all"}]}
@app/m.ts
@all/tsconfig.json
{"files":[],"references":[{"path":"../lib"}]}
@lib/tsconfig.json
{"compilerOptions":{"outDir":"dist"}}
@lib/l.ts
"#;

const SOLUTION_LEAVES: &str = "status 1, checked 0, built 0, settled 0
app/tsconfig.json(1,1): error TS6306: Referenced project 'all/tsconfig.json' must set composite.
generation 0: 1 errors in 0 projects
";

// Inside the output folder of the second project lie a base, which is a config that was read, and an input of the first.
const COVERED: &str = r#"@a/tsconfig.json
{"extends":"../out/base","compilerOptions":{"outDir":"dist"},"files":["a.ts","../out/in.ts"]}
@a/a.ts
@b/tsconfig.json
{"compilerOptions":{"outDir":"../out"}}
@b/b.ts
@out/base.json
{"compilerOptions":{"rootDir":".."}}
@out/in.ts
"#;

const COVERED_LEAVE: &str = "status 1, checked 0, built 0, settled 0
b/tsconfig.json(1,1): error TB5009: Config fault 5009: 'out/base.json'.
b/tsconfig.json(1,1): error TB5009: Config fault 5009: 'out/in.ts'.
generation 0: 2 errors in 0 projects
";

// Faults of inputs and folders stand together.
const INPUTS: &str = r#"@p/tsconfig.json
{"compilerOptions":{"outDir":"dist"},"files":["no.ts","../s.ts"]}
@q/tsconfig.json
{"compilerOptions":{"outDir":"../p/dist/q","rootDir":".."},"files":["../s.ts"]}
@r/tsconfig.json
{"compilerOptions":{"outDir":"dist"}}
@s.ts
"#;

const INPUTS_LEAVE: &str = "status 1, checked 0, built 0, settled 0
p/tsconfig.json(1,1): error TB5010: Config fault 5010: 'p/no.ts'.
p/tsconfig.json(1,1): error TB5011: Config fault 5011: 's.ts'.
q/tsconfig.json(1,1): error TB5008: Config fault 5008: 'p/tsconfig.json'.
q/tsconfig.json(1,1): error TB5015: Config fault 5015: 's.ts'.
r/tsconfig.json(1,1): error TB5013: Config fault 5013: 'files'.
generation 0: 5 errors in 0 projects
";

// The words, the files, and what the run leaves.
fn faulty(case: u8) -> (&'static str, &'static str, &'static str) {
    match case {
        0 => ("", NO_CONFIG, NO_CONFIG_LEAVES),
        1 => ("", NO_INPUT, NO_INPUT_LEAVES),
        2 => ("", NO_FOLDER, NO_FOLDER_LEAVES),
        3 => ("c a b", UNREADABLE, UNREADABLE_LEAVES),
        4 => ("", NO_ROOTS, NO_ROOTS_LEAVE),
        5 => ("-v", NOT_COMPOSITE, NOT_COMPOSITE_LEAVES),
        6 => ("c a b", NESTED, NESTED_LEAVE),
        7 => ("d app", CYCLE, CYCLE_LEAVES),
        8 => ("nope d app", CYCLE, CYCLE_WITHOUT_ROOT_LEAVES),
        9 => ("-v b a", SEVERAL, SEVERAL_LEAVE),
        10 => ("gone b a", SEVERAL, SEVERAL_WITHOUT_ROOT_LEAVE),
        11 => ("app", SOLUTION, SOLUTION_LEAVES),
        12 => ("a b", COVERED, COVERED_LEAVE),
        _ => ("p q r", INPUTS, INPUTS_LEAVE),
    }
}

#[test]
fn a_plan_with_a_fault_builds_nothing(rt: HostRuntime) -> Result<(), Fail> {
    let alloc = rt.alloc();
    for case in 0..14u8 {
        let (words, files, wanted) = faulty(case);
        let run = fresh(alloc, words, workspace(alloc, files)?)?;
        let left = left_by(alloc, &run)?;
        assert_eq!(rt; left.as_str(), wanted, "in case {case}");
        assert_eq!(rt; run.disk.calls(), 0);
    }
    Ok(())
}
