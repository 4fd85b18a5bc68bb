//! Tests of `tb_scan`.

use std::alloc::Global;
use std::test::Fail;
use tb_scan::{Braces, Kind, Token, next_token, scan};
use tb_text::NoMemory;

/// The tokens of a text, each by its kind and its text, in brackets.
fn shown(alloc: Global, text: &str) -> Result<String, Fail> {
    let mut all = String::new(alloc);
    let tokens = scan(alloc, text)?;
    for token in tokens.as_slice() {
        let kind = match token.kind {
            Kind::Word => "W",
            Kind::Number => "N",
            Kind::Str => "S",
            Kind::Mark => "M",
            Kind::Whole => "T",
            Kind::Head => "H",
            Kind::Middle => "I",
            Kind::Tail => "L",
            Kind::Bad => "B",
        };
        all.push_str(kind)?;
        all.push('[')?;
        all.push_str(text.get(token.start..token.end).unwrap_or("?"))?;
        all.push(']')?;
    }
    Ok(all)
}

#[test]
fn tokens_of_texts(rt: HostRuntime) -> Result<(), Fail> {
    let rows = [
        ("", ""),
        ("a=>b", "W[a]M[=>]W[b]"),
        (
            "{ } ( ) [ ] . ; , < > <= >= === !== + - * / %",
            "M[{]M[}]M[(]M[)]M[[]M[]]M[.]M[;]M[,]M[<]M[>]M[<=]M[>=]M[===]M[!==]M[+]M[-]M[*]M[/]M[%]",
        ),
        (
            "++ -- ! && || ?? ? : = += -= *= /= %= => |",
            "M[++]M[--]M[!]M[&&]M[||]M[??]M[?]M[:]M[=]M[+=]M[-=]M[*=]M[/=]M[%=]M[=>]M[|]",
        ),
        ("a==b!=c", "W[a]M[=]M[=]W[b]M[!]M[=]W[c]"),
        ("===>&&&+++<<=", "M[===]M[>]M[&&]B[&]M[++]M[+]M[<]M[<=]"),
        (
            "$_1 \u{E9}t\u{E9} if#@x",
            "W[$_1]W[\u{E9}t\u{E9}]W[if]B[#]B[@]W[x]",
        ),
        (
            "0 10 1.5 1e9 1.5E-3 0x1F 0o17 0b10",
            "N[0]N[10]N[1.5]N[1e9]N[1.5E-3]N[0x1F]N[0o17]N[0b10]",
        ),
        ("1.", "B[1.]"),
        ("1e", "B[1e]"),
        ("0x", "B[0x]"),
        ("01", "B[01]"),
        ("1a", "B[1a]"),
        ("1\u{E9}", "B[1\u{E9}]"),
        ("1..2", "B[1.]M[.]N[2]"),
        ("1.5.2", "B[1.5.]N[2]"),
        ("1e+", "B[1e]M[+]"),
        ("0b12", "B[0b12]"),
        ("0XF", "B[0X]W[F]"),
        ("1 .x", "N[1]M[.]W[x]"),
        ("\"a'b\"'c\"d'", "S[\"a'b\"]S['c\"d']"),
        (
            "'\\n\\t\\r\\b\\f\\v\\0\\\\\\'\\\"\\$\\`\\x4f\\u0041\\u{1F600}'",
            "S['\\n\\t\\r\\b\\f\\v\\0\\\\\\'\\\"\\$\\`\\x4f\\u0041\\u{1F600}']",
        ),
        ("x \"\\q\" y", "W[x]B[\"\\q\" y]"),
        ("\"\\u{110000}\"", "B[\"\\u{110000}\"]"),
        ("\"\\u{10FFFF}\"", "S[\"\\u{10FFFF}\"]"),
        ("\"\\uD800\" a", "B[\"\\uD800\" a]"),
        ("\"\\u{}\"", "B[\"\\u{}\"]"),
        ("\"\\u{0000041}\"", "B[\"\\u{0000041}\"]"),
        ("\"\\x4\" a", "B[\"\\x4\" a]"),
        ("\"\\01\"", "B[\"\\01\"]"),
        ("\"\\0a\"", "S[\"\\0a\"]"),
        ("\"ab", "B[\"ab]"),
        ("\"a\nb\"", "B[\"a\nb\"]"),
        ("'a\rb'", "B['a\rb']"),
        ("`a`", "T[`a`]"),
        ("`$`", "T[`$`]"),
        ("`\\${`", "T[`\\${`]"),
        ("`a\n\"`", "T[`a\n\"`]"),
        ("`$${a}`", "H[`$${]W[a]L[}`]"),
        ("`a${b}c${d}e`", "H[`a${]W[b]I[}c${]W[d]L[}e`]"),
        (
            "`a${ {b:`c${d}`} }e`",
            "H[`a${]M[{]W[b]M[:]H[`c${]W[d]L[}`]M[}]L[}e`]",
        ),
        ("`a", "B[`a]"),
        ("`${}x", "H[`${]B[}x]"),
        ("`${}", "H[`${]B[}]"),
        ("`\\q`", "B[`\\q`]"),
        ("}}", "M[}]M[}]"),
        ("a//b\nc", "W[a]W[c]"),
        ("a//b", "W[a]"),
        ("a/*b*/c", "W[a]W[c]"),
        ("a/***/b", "W[a]W[b]"),
        ("a /*/ b", "W[a]B[/*/ b]"),
        ("a/b/=c", "W[a]M[/]W[b]M[/=]W[c]"),
        ("//\r\ny", "W[y]"),
        ("a/*\n", "W[a]B[/*\n]"),
        ("\u{FEFF}a\r\n\tb\u{A0}c\u{B}d", "W[a]W[b]W[c]W[d]"),
        ("a\u{2003}b", "W[a]B[\u{2003}]W[b]"),
    ];
    for (text, tokens) in rows {
        assert_eq!(rt; shown(rt.alloc(), text)?.as_str(), tokens, "{text}");
    }
    Ok(())
}

// The next token from a place of a text on; none where the place is inside a character.
fn next_of(text: &str, at: usize, braces: &mut Braces) -> Result<Option<Token>, NoMemory> {
    if text.is_char_boundary(at) {
        next_token(text, at, braces)
    } else {
        Ok(None)
    }
}

// A text, a place where nothing is open, and the token that is next.
const NEXT: [(&str, usize, Option<(Kind, usize, usize)>); 22] = [
    ("", 0, None),
    (" \t\n", 0, None),
    ("a", 1, None),
    ("a//b", 1, None),
    ("a /*b*/ ", 1, None),
    ("let x", 0, Some((Kind::Word, 0, 3))),
    ("let x", 1, Some((Kind::Word, 1, 3))),
    ("let x", 3, Some((Kind::Word, 4, 5))),
    ("\u{E9}=1", 0, Some((Kind::Word, 0, 2))),
    ("\u{E9}=1", 2, Some((Kind::Mark, 2, 3))),
    ("a/*b*/===c", 1, Some((Kind::Mark, 6, 9))),
    ("a/*b*/===c", 2, Some((Kind::Mark, 2, 3))),
    ("0x1F;", 0, Some((Kind::Number, 0, 4))),
    (" 'b' c", 0, Some((Kind::Str, 1, 4))),
    ("`b`c", 0, Some((Kind::Whole, 0, 3))),
    ("`b${c}`", 0, Some((Kind::Head, 0, 4))),
    ("}b`", 0, Some((Kind::Mark, 0, 1))),
    ("a #b", 1, Some((Kind::Bad, 2, 3))),
    ("1a b", 0, Some((Kind::Bad, 0, 2))),
    ("a \"b", 1, Some((Kind::Bad, 2, 4))),
    ("a `b", 1, Some((Kind::Bad, 2, 4))),
    ("a /*b", 1, Some((Kind::Bad, 2, 5))),
];

#[test]
fn tokens_at_places(rt: HostRuntime) -> Result<(), Fail> {
    for (text, at, token) in NEXT {
        let mut braces = Braces::new(rt.alloc());
        let found = next_of(text, at, &mut braces)?;
        assert_eq!(rt;
            found.map(|token| (token.kind, token.start, token.end)),
            token,
            "{text}"
        );
    }
    Ok(())
}

// The tokens of this text, and whether a hole is open behind each.
const HOLES: &str = "{ `a${ {} }b${}c`;}";

const IN_HOLES: [(Kind, usize, usize, bool); 8] = [
    (Kind::Mark, 0, 1, false),
    (Kind::Head, 2, 6, true),
    (Kind::Mark, 7, 8, false),
    (Kind::Mark, 8, 9, true),
    (Kind::Middle, 10, 14, true),
    (Kind::Tail, 14, 17, false),
    (Kind::Mark, 17, 18, false),
    (Kind::Mark, 18, 19, false),
];

#[test]
fn tokens_leave_what_is_open(rt: HostRuntime) -> Result<(), Fail> {
    let mut braces = Braces::new(rt.alloc());
    let mut at = 0;
    for (kind, start, end, in_hole) in IN_HOLES {
        let found = next_of(HOLES, at, &mut braces)?;
        assert_eq!(rt; found, Some(Token { kind, start, end }));
        assert_eq!(rt; braces.in_hole(), in_hole, "{end}");
        at = end;
    }
    assert_eq!(rt; next_of(HOLES, at, &mut braces)?, None);
    Ok(())
}
