//! Tests of `tb_info`.

use crate::shared::smallest_options;
use std::alloc::Global;
use std::test::Fail;
use tb_face::{Entry, Info, InfoFault, options_digest, signature, version};
use tb_info::{read_info, write_info};
use tb_text::{List, Path};

// The info of a project with the one file `a.ts`, whose text is `export const a: number = 1;` with a line end and whose
// declaration text is `export declare const a: number;` with one. The digests are those of `sha256sum`.
const ONE_FILE: &str =
    "{\"builder\":\"tb1\",\"files\":[{\"edges\":[],\"findings\":[],\"path\":\"a.ts\",\"reach\":[],\"signature\":\"52db5d1a3fa84d3692297673f6fede59e50d94b4ed2cab8398c7a65e1a45e6fa\",\"version\":\"8fbccf1f29c58f5ceefc8a9a2d793cadf78d1f97e74c5e33b231b96a0cf74c66\"}],\"options\":\"da63203dc008c1b6c8cf9d5721928538f32bf662e66073ab65130a6732d4e545\",\"pending\":[],\"project\":\"tsconfig.json\",\"root\":\"\"}";

// As Python's json.dumps spells it, with sorted keys and no blanks.
const TEXT: &str =
    "{\"builder\":\"tb1\",\"files\":[{\"edges\":[[\"./b\",0,\"a/b.ts\"],[\"./d\",1,\"d.ts\"],[\"x\",2,\"\"]],\"findings\":[[3,\"TS2322\",\"number\",\"string\"],[3,\"TB0\",\"\",\"\\n\"],[3,\"TB7\",\"\",\"\"]],\"path\":\"a/a.ts\",\"reach\":[[\"a/b.ts\",null,[]],[\"a/c.ts\",\"0000000000000000000000000000000000000000000000000000000000000001\",[[\"./b\",0,\"a/b.ts\"]]]],\"signature\":\"abababababababababababababababababababababababababababababababab\",\"version\":\"0f0f0f0f0f0f0f0f0f0f0f0f0f0f0f0f0f0f0f0f0f0f0f0f0f0f0f0f0f0f0f0f\"},{\"edges\":[],\"findings\":[[18446744073709551615,\"TS65535\",\"\",\"\"]],\"path\":\"a/b.ts\",\"reach\":[],\"signature\":null,\"version\":\"0000000000000000000000000000000000000000000000000000000000000001\"}],\"options\":\"abababababababababababababababababababababababababababababababab\",\"pending\":[\"a/a\",\"a/b\"],\"project\":\"a/tsconfig.json\",\"root\":\"a\"}";

#[test]
fn reads_and_spells_anew(rt: HostRuntime) -> Result<(), Fail> {
    for (text, files) in [(ONE_FILE, 1), (TEXT, 2)] {
        let info = read_info(rt.alloc(), text.as_bytes())?;
        assert_eq!(rt; info.files.len(), files);
        let written = write_info(rt.alloc(), &info)?;
        assert!(rt; written.as_slice() == text.as_bytes());
    }
    Ok(())
}

// The digests of an entry are those of the file's texts.
#[test]
fn spells_an_info_that_is_made(rt: HostRuntime) -> Result<(), Fail> {
    let mut files = List::new(rt.alloc());
    files.push(Entry {
        path: Path::read(rt.alloc(), "a.ts")?,
        version: version(b"export const a: number = 1;\n".as_slice()),
        signature: Some(signature(b"export declare const a: number;\n".as_slice())),
        edges: List::new(rt.alloc()),
        reach: List::new(rt.alloc()),
        findings: List::new(rt.alloc()),
    })?;
    let options = smallest_options(rt.alloc())?;
    let info = Info {
        project: Path::read(rt.alloc(), "tsconfig.json")?,
        root: Path::read(rt.alloc(), "")?,
        options: options_digest(rt.alloc(), &options)?,
        files,
        pending: List::new(rt.alloc()),
    };
    let text = write_info(rt.alloc(), &info)?;
    assert!(rt; text.as_slice() == ONE_FILE.as_bytes());
    Ok(())
}

// Bytes that are no info, and whether they are one of another builder.
const OTHERS: [(&str, bool); 9] = [
    ("{\"builder\":\"tb2\"}", true),
    ("{\"builder\":\"tb1x\",\"builder\":\"q\"}", true),
    ("{\"builder\":\"tb1\",\"builder\":\"q\"}", true),
    ("{\"builder\":1}", true),
    ("{}", true),
    ("{\"builder\":\"tb1\"}", false),
    ("[]", false),
    ("{", false),
    ("", false),
];

#[test]
fn tells_other_builders(rt: HostRuntime) -> Result<(), Fail> {
    for (text, other) in OTHERS {
        assert!(rt; is_refused(rt.alloc(), text, other));
    }
    Ok(())
}

fn is_refused(alloc: Global, text: &str, expected: bool) -> bool {
    match read_info(alloc, text.as_bytes()) {
        Err(InfoFault::NotInfo { other }) => other == expected,
        _ => false,
    }
}

// Whether `TEXT` is refused, as no other builder's, once its first such part is another one.
fn is_refused_with(alloc: Global, part: &str, other: &str) -> Result<bool, Fail> {
    match TEXT.split_once(part) {
        Some((before, behind)) => {
            let text = format!(in alloc; "{before}{other}{behind}")?;
            Ok(is_refused(alloc, text.as_str(), false))
        }
        None => Ok(false),
    }
}

// A part of `TEXT`, and a text that no info has in its place.
const NO_TEXTS: [(&str, &str); 25] = [
    ("\"files\":[", "\"files\": ["),
    ("\"root\":\"a\"}", "\"root\":\"a\"}\n"),
    ("a/tsconfig", "\\u0061/tsconfig"),
    ("a/tsconfig", "a//tsconfig"),
    ("\"root\":\"a\"", "\"root\":\"a/\""),
    ("\"path\":\"a/a.ts\"", "\"path\":\"a//a.ts\""),
    ("[\"a/b.ts\",null", "[\"a/../b.ts\",null"),
    ("0,\"a/b.ts\"", "0,\"a/./b.ts\""),
    ("[\"a/a\",", "[\"/a\","),
    ("\"version\":\"0f", "\"version\":\"0F"),
    ("\"options\":\"ab", "\"options\":\"Ab"),
    ("\"signature\":\"ab", "\"signature\":\"aB"),
    ("\"version\":\"0f", "\"version\":\"0"),
    ("\"version\":\"0f", "\"version\":\""),
    ("\"options\":\"ab", "\"options\":\"abab"),
    ("\"signature\":\"ab", "\"signature\":\"ag"),
    ("\"x\",2,", "\"x\",3,"),
    ("\"x\",2,\"\"", "\"x\",2,\"x.ts\""),
    ("\"TS2322\"", "\"TS01\""),
    ("\"TS65535\"", "\"TS65536\""),
    ("\"TS2322\"", "\"TX2322\""),
    ("\"TS2322\"", "\"TS\""),
    ("\"TS2322\"", "\"T\""),
    ("[18446744073709551615,", "[18446744073709551616,"),
    ("[18446744073709551615,", "[-1,"),
];

#[test]
fn refuses_other_texts(rt: HostRuntime) -> Result<(), Fail> {
    for (part, other) in NO_TEXTS {
        assert!(rt; is_refused_with(rt.alloc(), part, other)?, "{other}");
    }
    Ok(())
}

// A part of `TEXT`, and what no info has in its place: another kind of value, or more or fewer of them.
const NO_VALUES: [(&str, &str); 17] = [
    ("\"root\":\"a\"", "\"root\":null"),
    ("\"project\":\"a/tsconfig.json\"", "\"project\":1"),
    ("\"pending\":[\"a/a\",\"a/b\"]", "\"pending\":{}"),
    ("\"signature\":null", "\"signature\":0"),
    (
        "\"signature\":null,\"version\":",
        "\"signature\":null,\"version\":null,\"w\":",
    ),
    ("[\"x\",2,", "[7,2,"),
    ("\"x\",2,", "\"x\",\"2\","),
    ("\"x\",2,", "\"x\",2.0,"),
    ("\"x\",2,\"\"", "\"x\",2"),
    ("\"x\",2,\"\"", "\"x\",2,\"\",0"),
    ("[3,\"TS2322\"", "[null,\"TS2322\""),
    ("\"TS2322\"", "2322"),
    ("\"TB7\",\"\",\"\"", "\"TB7\",\"\""),
    (",\"root\":\"a\"}", "}"),
    (",\"root\":\"a\"}", ",\"root\":\"a\",\"s\":0}"),
    ("\"edges\":[],", ""),
    (",\"pending\":[", ",\"pending\":[],\"pending\":["),
];

#[test]
fn refuses_other_values(rt: HostRuntime) -> Result<(), Fail> {
    for (part, other) in NO_VALUES {
        assert!(rt; is_refused_with(rt.alloc(), part, other)?, "{other}");
    }
    Ok(())
}

// A part of `TEXT`, and one after which a list or the members are in another order, or one of them stands twice.
const NO_ORDERS: [(&str, &str); 18] = [
    ("\"path\":\"a/a.ts\"", "\"path\":\"a/c.ts\""),
    ("\"path\":\"a/a.ts\"", "\"path\":\"a/b.ts\""),
    ("[\"./b\",0,", "[\"./e\",0,"),
    ("[\"./b\",0,", "[\"./d\",0,"),
    ("[\"a/b.ts\",null", "[\"a/d.ts\",null"),
    ("[\"a/b.ts\",null", "[\"a/c.ts\",null"),
    (
        "[[\"./b\",0,\"a/b.ts\"]]",
        "[[\"./b\",0,\"a/b.ts\"],[\"./a\",0,\"a/b.ts\"]]",
    ),
    (
        "[[\"./b\",0,\"a/b.ts\"]]",
        "[[\"./b\",0,\"a/b.ts\"],[\"./b\",0,\"a/b.ts\"]]",
    ),
    ("[3,\"TS2322\"", "[4,\"TS2322\""),
    ("\"TB7\",\"\",\"\"", "\"TS7\",\"\",\"\""),
    ("\"TS2322\"", "\"TB2322\""),
    (
        "[3,\"TB7\",\"\",\"\"]",
        "[3,\"TB7\",\"b\",\"\"],[3,\"TB7\",\"a\",\"\"]",
    ),
    (
        "[3,\"TB7\",\"\",\"\"]",
        "[3,\"TB7\",\"\",\"b\"],[3,\"TB7\",\"\",\"a\"]",
    ),
    (
        "[3,\"TB7\",\"\",\"\"]",
        "[3,\"TB7\",\"\",\"\"],[3,\"TB7\",\"\",\"\"]",
    ),
    ("[\"a/a\",\"a/b\"]", "[\"a/b\",\"a/a\"]"),
    ("[\"a/a\",\"a/b\"]", "[\"a/a\",\"a/a\"]"),
    (
        "\"project\":\"a/tsconfig.json\",\"root\":\"a\"",
        "\"root\":\"a\",\"project\":\"a/tsconfig.json\"",
    ),
    (
        "\"path\":\"a/b.ts\",\"reach\":[]",
        "\"reach\":[],\"path\":\"a/b.ts\"",
    ),
];

#[test]
fn refuses_other_orders(rt: HostRuntime) -> Result<(), Fail> {
    for (part, other) in NO_ORDERS {
        assert!(rt; is_refused_with(rt.alloc(), part, other)?, "{other}");
    }
    Ok(())
}
