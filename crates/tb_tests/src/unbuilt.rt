//! Runs over texts that are not built yet.

use crate::workspaces::{THREE, disk, go, is_untouched, workspace};
use std::alloc::Global;
use std::test::Fail;
use tb_text::{Status, Texts, Which};

// Files that make three sound projects what is not built yet. Mostly they are of the project that comes last.
fn change(case: u8) -> &'static str {
    match case {
        0 => "@app/m.ts\nimport \"../core/a\";\n",
        1 => "@app/m.ts\nexport const a: number = -1;\n",
        2 => "@app/m.ts\nexport function f(): number { return 1; }\n",
        3 => "@app/m.ts\nexport let a: number = 1;\n",
        4 => "@app/m.ts\nexport const a: number = \"x\";\n",
        5 => "@app/m.ts\nexport const a = (1);\n",
        6 => "@app/m.ts\nconst a: number = 1;\n",
        7 => "@app/m.ts\nexport const a: number = 1;\nexport type a = string;\n",
        8 => "@app/m.ts\nexport interface A { x: number; x: string; }\n",
        9 => "@app/m.ts\nexport {};\n",
        10 => "@app/n.d.ts\n",
        11 => {
            "@app/m.d.ts\n@app/tsconfig.json\n{\"compilerOptions\":{\"outDir\":\"dist\"},\"files\":[\"m.d.ts\"]}\n"
        }
        12 => "@core/a.ts\nimport \"./a-b\";\n",
        13 => "@core/sub/c.d.ts\nexport {};\n",
        14 => "@app/m.ts\nexport const a: number = 1, b: number = 2;\n",
        15 => "@app/m.ts\nexport interface A { x?: number; }\n",
        16 => "@app/m.ts\nexport interface A { readonly x: number; }\n",
        17 => "@app/m.ts\nexport interface A { \"x\": number; }\n",
        18 => "@app/m.ts\nexport interface A extends B { x: number; }\n",
        19 => "@app/m.ts\nexport type A = number | string;\n",
        // Trees of plain files, which are not written so.
        20 => "@app/m.ts\nexport const a: (number) = 1;\n",
        21 => "@app/m.ts\nexport type A = | number;\n",
        22 => "@app/m.ts\nexport interface A { x: number, y: string; }\n",
        23 => "@app/m.ts\nexport interface A { x: number; y: string }\n",
        24 => "@app/m.ts\nexport const a = -1;\n",
        25 => "@app/m.ts\nexport let a = 1;\n",
        26 => "@app/m.ts\nexport const a = null;\n",
        27 => "@app/m.ts\nexport const a = `a`;\n",
        28 => "@app/m.ts\nexport const a: any = 1;\n",
        29 => "@app/m.ts\nexport const a = 1;\nexport const a = 2;\n",
        30 => "@app/n.d.ts\nexport declare const a: 1;\n",
        // Beside files without a reading.
        31 => "@core/a.ts\nconst;\n@app/m.ts\nexport {};\n",
        32 => "@core/c.d.ts\nconst;\n@app/m.ts\nexport {};\n",
        33 => "@core/a.ts\nconst;\n@app/n.d.ts\n",
        _ => "@core/c.d.ts\nconst;\n@app/n.d.ts\n",
    }
}

fn changed(alloc: Global, case: u8) -> Result<Texts, Fail> {
    let files = format!(in alloc; "{THREE}{}", change(case))?;
    workspace(alloc, files.as_str())
}

#[test]
fn what_is_not_built_yet_touches_nothing(rt: HostRuntime) -> Result<(), Fail> {
    let alloc = rt.alloc();
    for case in 0..35u8 {
        // The first call of the disk and of the sink would fail.
        let disk = disk(alloc, Some(0))?;
        let run = go(alloc, "app", changed(alloc, case)?, disk, None, Some(0))?;
        assert_eq!(rt; run.status, Status::NotBuilt, "in case {case}");
        assert!(rt; is_untouched(&run), "in case {case}");
    }
    Ok(())
}

#[test]
fn that_the_tree_was_not_read_is_told_first(rt: HostRuntime) -> Result<(), Fail> {
    let alloc = rt.alloc();
    let disk = disk(alloc, None)?;
    let run = go(alloc, "app", changed(alloc, 0)?, disk, Some(7), None)?;
    let named = Status::Outside {
        which: Which::Tree,
        project: None,
    };
    assert_eq!(rt; run.status, named);
    assert!(rt; is_untouched(&run));
    Ok(())
}
