ghost use Rattle.std.specs.Prelude.{◌≡◌, Decides};
ghost use Rattle.tb_text.specs.Findings.{diag_cmp};

use std::alloc::Global;
use std::cmp::Ordering;
use std::rt::HostRuntime;
use std::test::Fail;
use tb_text::{
    Code, Diag, Finding, Name, Path, PathFault, Status, UsageFault, Which, diag_text, line_col,
};

#[test]
fn reads_paths(rt: HostRuntime) -> Result<(), Fail> {
    let good = [
        "",
        "a",
        "a/b",
        "a b",
        "...",
        "a/.b/..c",
        "\u{7f}",
        "ä/日本/😀.ts",
    ];
    for text in good {
        let path = Path::read(rt.alloc(), text)?;
        assert_eq!(rt; path.as_str(), text);
    }
    let bad = [
        "/", "/a", "a/", "a//b", ".", "..", "a/./b", "a/../b", "a\\b", "a\n", "\u{1f}", "a/\0/b",
    ];
    for text in bad {
        let faulty = Path::read(rt.alloc(), text) == Err(PathFault::BadPath);
        assert!(rt; faulty, "{text}");
    }
    Ok(())
}

#[test]
fn reads_paths_of_at_most_1024_bytes(rt: HostRuntime) -> Result<(), Fail> {
    let most = "abc/".repeat(rt.alloc(), 255)?;
    let longest = format!(in rt.alloc(); "{most}1234")?;
    let read = Path::read(rt.alloc(), longest.as_str())?;
    assert_eq!(rt; read.as_str().len(), 1024);
    let longer = format!(in rt.alloc(); "{most}12345")?;
    let faulty = Path::read(rt.alloc(), longer.as_str()) == Err(PathFault::BadPath);
    assert!(rt; faulty);
    let multibyte = "é".repeat(rt.alloc(), 512)?;
    let read = Path::read(rt.alloc(), multibyte.as_str())?;
    assert_eq!(rt; read.as_str().len(), 1024);
    let longer = format!(in rt.alloc(); "{multibyte}a")?;
    let faulty = Path::read(rt.alloc(), longer.as_str()) == Err(PathFault::BadPath);
    assert!(rt; faulty);
    Ok(())
}

#[test]
fn joins_paths(rt: HostRuntime) -> Result<(), Fail> {
    let cases = [
        ("a/b", "../c", Some("a/c")),
        ("a", "../../c", None),
        ("", "a//../b", Some("a/b")),
        ("", "a\\b/../c", Some("c")),
        ("a/b", "", Some("a/b")),
        ("a/b", ".", Some("a/b")),
        ("a/b", "./c/./d", Some("a/b/c/d")),
        ("a", "x/", None),
        ("a", "x/..//..", Some("a")),
        ("", "..", None),
        ("a", "../..", None),
        ("a", "../../a/b", None),
        ("a", "/b", None),
        ("a", "..", Some("")),
    ];
    for (folder, text, wanted) in cases {
        let folder = Path::read(rt.alloc(), folder)?;
        match (folder.join(rt.alloc(), text), wanted) {
            (Ok(path), Some(wanted)) => assert_eq!(rt; path.as_str(), wanted),
            (Err(PathFault::BadPath), None) => {}
            _ => assert!(rt; false, "{text}"),
        }
    }
    Ok(())
}

#[test]
fn names_folders(rt: HostRuntime) -> Result<(), Fail> {
    let cases = [("a/b", "a"), ("a", ""), ("a/b/c.ts", "a/b")];
    for (text, wanted) in cases {
        let path = Path::read(rt.alloc(), text)?;
        match path.parent(rt.alloc())? {
            Some(folder) => {
                assert_eq!(rt; folder.as_str(), wanted);
                let inside = path.inside(&folder);
                assert!(rt; inside, "{text}");
            }
            None => assert!(rt; false, "{text}"),
        }
    }
    let root = Path::read(rt.alloc(), "")?;
    let none = root.parent(rt.alloc())?.is_none();
    assert!(rt; none);
    let cases = [
        ("a/b", "a", true),
        ("ab", "a", false),
        ("a", "a", false),
        ("a", "", true),
        ("", "", false),
        ("a", "a/b", false),
    ];
    for (text, folder, wanted) in cases {
        let path = Path::read(rt.alloc(), text)?;
        let folder = Path::read(rt.alloc(), folder)?;
        let inside = path.inside(&folder);
        assert_eq!(rt; inside, wanted, "{text}");
    }
    Ok(())
}

#[test]
fn counts_lines_and_columns(rt: HostRuntime) {
    let text = "a\r\né😀x\n\n".as_bytes();
    let cases = [
        (0, (1, 1)),
        (1, (1, 2)),
        (2, (1, 3)),
        (3, (2, 1)),
        (5, (2, 2)),
        (9, (2, 3)),
        (10, (2, 4)),
        (11, (3, 1)),
        (12, (4, 1)),
    ];
    for (offset, wanted) in cases {
        assert!(rt; offset <= text.len());
        let (line, column) = line_col(text, offset);
        let (wanted_line, wanted_column) = wanted;
        assert_eq!(rt; line, wanted_line, "at {offset}");
        assert_eq!(rt; column, wanted_column, "at {offset}");
    }
}

fn diag(
    alloc: Global,
    path: &str,
    offset: u64,
    code: Code,
    first: &str,
    second: &str,
) -> Result<Diag, Fail> {
    Ok(Diag {
        project: 0,
        path: Path::read(alloc, path)?,
        finding: Finding {
            offset,
            code,
            first: Name::copy_of(alloc, first)?,
            second: Name::copy_of(alloc, second)?,
        },
    })
}

fn kept(number: u16) -> Code {
    Code { own: false, number }
}

fn own(number: u16) -> Code {
    Code { own: true, number }
}

#[test]
fn prints_diagnostics(rt: HostRuntime) -> Result<(), Fail> {
    let faulty = diag(rt.alloc(), "a.ts", 0, own(1002), "", "")?;
    let line = diag_text(rt.alloc(), &faulty, b"\xFF".as_slice())?;
    assert_eq!(rt;
        line.as_slice(),
        b"a.ts(1,1): error TB1002: The file is not UTF-8.".as_slice()
    );
    let unended = diag(rt.alloc(), "a.ts", 0, own(1001), "", "")?;
    let line = diag_text(
        rt.alloc(),
        &unended,
        b"export const a: string = \"x".as_slice(),
    )?;
    assert_eq!(rt;
        line.as_slice(),
        b"a.ts(1,1): error TB1001: This item has no reading.".as_slice()
    );
    let circle = "a/tsconfig.json, b/tsconfig.json, c/tsconfig.json";
    let cycle = diag(rt.alloc(), "a/tsconfig.json", 0, kept(6202), circle, "")?;
    let line = diag_text(rt.alloc(), &cycle, b"".as_slice())?;
    assert_eq!(rt;
        line.as_slice(),
        b"a/tsconfig.json(1,1): error TS6202: Project references form a cycle: a/tsconfig.json, b/tsconfig.json, c/tsconfig.json.".as_slice()
    );
    let marked = diag(rt.alloc(), "a.ts", 4, kept(2304), "x", "")?;
    let line = diag_text(rt.alloc(), &marked, b"\xEF\xBB\xBFa;\n\xC3\xA9x".as_slice())?;
    assert_eq!(rt;
        line.as_slice(),
        b"a.ts(2,2): error TS2304: Cannot find name 'x'.".as_slice()
    );
    Ok(())
}

#[test]
fn prints_each_code(rt: HostRuntime) -> Result<(), Fail> {
    let cases = [
        (kept(2299), "TS2299: "),
        (kept(2300), "TS2300: Duplicate identifier '{2}'."),
        (kept(2301), "TS2301: "),
        (kept(2303), "TS2303: "),
        (kept(2304), "TS2304: Cannot find name '{2}'."),
        (
            kept(2305),
            "TS2305: Module '{2}' has no exported member 'b'.",
        ),
        (kept(2306), "TS2306: "),
        (kept(2307), "TS2307: Cannot find module '{2}'."),
        (kept(2308), "TS2308: "),
        (kept(2321), "TS2321: "),
        (
            kept(2322),
            "TS2322: Type '{2}' is not assignable to type 'b'.",
        ),
        (kept(2323), "TS2323: "),
        (kept(2338), "TS2338: "),
        (
            kept(2339),
            "TS2339: Property '{2}' does not exist on type 'b'.",
        ),
        (kept(2340), "TS2340: "),
        (kept(2344), "TS2344: "),
        (
            kept(2345),
            "TS2345: Argument of type '{2}' is not assignable to parameter of type 'b'.",
        ),
        (kept(2346), "TS2346: "),
        (kept(2553), "TS2553: "),
        (kept(2554), "TS2554: Expected {2} arguments, but got b."),
        (kept(2555), "TS2555: "),
        (kept(6201), "TS6201: "),
        (kept(6202), "TS6202: Project references form a cycle: {2}."),
        (kept(6203), "TS6203: "),
        (kept(6305), "TS6305: "),
        (
            kept(6306),
            "TS6306: Referenced project '{2}' must set composite.",
        ),
        (
            kept(6307),
            "TS6307: File '{2}' is not in the file list of project 'b'.",
        ),
        (kept(6308), "TS6308: "),
        (kept(1001), "TS1001: "),
        (kept(5001), "TS5001: "),
        (own(2304), "TB2304: "),
        (own(1000), "TB1000: "),
        (own(1001), "TB1001: This item has no reading."),
        (own(1002), "TB1002: The file is not UTF-8."),
        (own(1003), "TB1003: "),
        (own(2100), "TB2100: "),
        (
            own(2101),
            "TB2101: Rule 2101 of section 6 to 9 is broken by '{2}'.",
        ),
        (
            own(2125),
            "TB2125: Rule 2125 of section 6 to 9 is broken by '{2}'.",
        ),
        (own(2126), "TB2126: "),
        (own(5000), "TB5000: "),
        (own(5001), "TB5001: Config is unreadable."),
        (own(5002), "TB5002: Config not found."),
        (own(5003), "TB5003: Config fault 5003: '{2}'."),
        (own(5015), "TB5015: Config fault 5015: '{2}'."),
        (own(5016), "TB5016: "),
        (own(9000), "TB9000: "),
        (own(9001), "TB9001: '{2}' needs a type annotation."),
        (own(9002), "TB9002: '{2}' needs a type annotation."),
        (own(9003), "TB9003: '{2}' needs a type annotation."),
        (own(9004), "TB9004: "),
    ];
    for (code, text) in cases {
        let found = diag(rt.alloc(), "a.ts", 0, code, "{2}", "b")?;
        let line = diag_text(rt.alloc(), &found, b"".as_slice())?;
        let wanted = format!(in rt.alloc(); "a.ts(1,1): error {text}")?;
        assert_eq!(rt; line.as_slice(), wanted.as_bytes());
    }
    Ok(())
}

#[test]
fn orders_codes(rt: HostRuntime) {
    let cases = [
        (kept(2304), kept(2322), true),
        (kept(6307), own(1001), true),
        (own(1001), kept(6307), false),
        (own(1001), own(1001), false),
    ];
    for (first, second, wanted) in cases {
        let before = first.is_before(&second);
        assert_eq!(rt; before, wanted);
    }
}

#[test]
fn gives_exit_statuses(rt: HostRuntime) {
    let cases = [
        (Status::Clean, 0),
        (Status::Skipped, 1),
        (Status::Generated, 2),
        (Status::InvalidProject, 3),
        (Status::Cycle, 4),
        (Status::Usage(UsageFault::Unread), 64),
        (Status::NoMemory, 70),
        (
            Status::Outside {
                which: Which::Disk,
                project: None,
            },
            74,
        ),
        (Status::NotBuilt, 75),
    ];
    for (status, code) in cases {
        assert_eq!(rt; status.code(), code);
    }
}

fn same_diag(a: &Diag, b: &Diag) -> bool
    ensures { Decides result (a.now ≡ b.now) }
{
    a == b
}

fn compared(a: &Diag, b: &Diag) -> Ordering
    ensures { result ≡ diag_cmp a.now b.now }
{
    a.cmp(b)
}
