//! Tests of `tb_jsonc`.

use serde_json::Value;
use std::test::Fail;
use tb_jsonc::{JsonFault, blanked, read_json};

const BLANKED: [(&'static str, &'static str); 18] = [
    ("[1,/*x*/]", "[1      ]"),
    ("", ""),
    ("{} // end", "{}       "),
    ("// a\n{}", "    \n{}"),
    ("//\r\n1", "   \n1"),
    ("1//é", "1    "),
    ("/*\n*/1", "     1"),
    ("/***/1", "     1"),
    ("/**//**/1", "        1"),
    ("1/", "1/"),
    ("\"//\" \"/*\"", "\"//\" \"/*\""),
    ("\"a\\\"//\"//", "\"a\\\"//\"  "),
    ("\"//,]", "\"//,]"),
    ("{\"a\": [1, ], }", "{\"a\": [1  ]  }"),
    ("[1,/* a */ // b\n]", "[1             \n]"),
    ("[,]", "[,]"),
    ("[1,,]", "[1,,]"),
    ("[\",]\",]", "[\",]\" ]"),
];

#[test]
fn comments_and_trailing_commas_become_spaces(rt: HostRuntime) -> Result<(), Fail> {
    for (text, wanted) in &BLANKED {
        let found = blanked(rt.alloc(), text.as_bytes())?;
        assert_eq!(rt; found.as_slice(), wanted.as_bytes(), "{text}");
    }
    Ok(())
}

#[test]
fn a_byte_order_mark_is_dropped(rt: HostRuntime) -> Result<(), Fail> {
    let found = blanked(rt.alloc(), "\u{FEFF}1,".as_bytes())?;
    assert_eq!(rt; found.as_slice(), b"1,".as_slice());
    Ok(())
}

#[test]
fn unfinished_comments_and_other_bytes_are_unreadable(rt: HostRuntime) -> Result<(), Fail> {
    for text in [
        b"1/*".as_slice(),
        b"/*/".as_slice(),
        b"{}/* *".as_slice(),
        b"\xFF".as_slice(),
        b"//\xC3\n1".as_slice(),
    ] {
        assert!(rt; matches!(blanked(rt.alloc(), text), Err(JsonFault::Unreadable)));
    }
    Ok(())
}

#[test]
fn json_is_read_through_comments(rt: HostRuntime) -> Result<(), Fail> {
    let value = read_json(
        rt.alloc(),
        b"// bases\n{\"files\": [\"a.ts\",], /* no more */ \"n\": 7,}",
    )?;
    assert_eq!(rt; value.get("n").and_then(Value::as_u64), Some(7));
    assert!(rt; value.get("files").is_some());
    Ok(())
}

#[test]
fn what_serde_json_refuses_is_unreadable(rt: HostRuntime) -> Result<(), Fail> {
    for text in ["[,]", "", "{} {}", "\"a", "[1,,]", "1/"] {
        assert!(rt;
            matches!(
                read_json(rt.alloc(), text.as_bytes()),
                Err(JsonFault::Unreadable)
            ),
            "{text}"
        );
    }
    Ok(())
}
