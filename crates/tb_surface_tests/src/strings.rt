//! Tests of `tb_show`: strings.

use std::rt::HostRuntime;
use std::test::Fail;
use tb_show::quoted;

// A string, and its one spelling.
const ROWS: &[(&str, &str)] = &[
    ("''", r#""""#),
    ("'a'", r#""a""#),
    (r#""a""#, r#""a""#),
    (r"'it\'s'", r#""it's""#),
    (r#""it's""#, r#""it's""#),
    (r#"'say "a"'"#, r#""say \"a\"""#),
    (r#""say \"a\"""#, r#""say \"a\"""#),
    (r"'\\\`\$'", r#""\\`$""#),
    (r"'\n\r\t'", r#""\n\r\t""#),
    (r"'\b\f\v\0'", r#""\x08\x0c\x0b\x00""#),
    (r"'\x41\u0042\u{43}\u{00044}'", r#""ABCD""#),
    (r"'\x22\x5C\x0a'", r#""\"\\\n""#),
    (r"'\x7f\x1F \u{80}'", "\"\\x7f\\x1f \u{80}\""),
    (r"'\u{1F600}\u00e9'", "\"\u{1f600}\u{e9}\""),
    ("'\u{e9}\u{1f600}'", "\"\u{e9}\u{1f600}\""),
    (r"'x0u{0}41'", r#""x0u{0}41""#),
];

#[test]
fn strings_have_one_spelling(rt: HostRuntime) -> Result<(), Fail> {
    for (spelled, wanted) in ROWS {
        let found = quoted(rt.alloc(), spelled)?;
        assert_eq!(rt; found.as_str(), *wanted, "{spelled}");
        let again = quoted(rt.alloc(), found.as_str())?;
        assert_eq!(rt; again.as_str(), *wanted, "{spelled}");
    }
    Ok(())
}
