//! Tests of `tb_show`: types, as they are read and in copies.

use sqlite_items::Items;
use std::alloc::Global;
use std::rt::HostRuntime;
use std::test::Fail;
use tb_parse_type::read_type;
use tb_scan::scan;
use tb_show::{quoted_type, type_text};
use tb_text::{Name, Path, Text};
use tb_tree::{TypeExpr, TypeKeyword};

// A type, and its text.
const ROWS: &[(&str, &str)] = &[
    ("any", "any"),
    (
        "unknown | never | number | string | boolean | void | null | undefined",
        "unknown | never | number | string | boolean | void | null | undefined",
    ),
    ("| true | false", "true | false"),
    ("'it\\'s'", "\"it's\""),
    ("- 12 | 0 | 7", "-12 | 0 | 7"),
    ("((A))", "A"),
    ("A | (B | C) | D", "A | B | C | D"),
    ("A[][]", "A[][]"),
    ("readonly A[][]", "readonly A[][]"),
    ("(readonly A[])[]", "(readonly A[])[]"),
    ("readonly (readonly A[])[]", "readonly (readonly A[])[]"),
    ("readonly A[] | B", "readonly A[] | B"),
    ("(A | B)[]", "(A | B)[]"),
    ("({ a: A; })[]", "{ a: A; }[]"),
    ("('a')[]", "\"a\"[]"),
    ("(() => A)[]", "(() => A)[]"),
    ("(() => A) | B | (() => C)", "(() => A) | B | (() => C)"),
    ("() => A | B", "() => A | B"),
    ("() => () => A[]", "() => () => A[]"),
    ("(a: A, b?: (B | C)[]) => D", "(a: A, b?: (B | C)[]) => D"),
    ("{}", "{}"),
    ("{ readonly a?: A; b: B }", "{ readonly a?: A; b: B; }"),
    (
        "{ m(a: A, b?: B): C; n?(): D; }",
        "{ m(a: A, b?: B): C; n?(): D; }",
    ),
    (
        "{ 'a b': A; readonly \"c\\\"\": B; 'd'(): C; }",
        "{ \"a b\": A; readonly \"c\\\"\": B; \"d\"(): C; }",
    ),
];

fn text_of(alloc: Global, text: &str) -> Result<Text, Fail> {
    let tokens = scan(alloc, text)?;
    match read_type(alloc, tokens.as_slice(), text, 0) {
        Ok((of, _)) => Ok(type_text(alloc, &of)?),
        Err(_) => Ok(Text::from_vec(Vec::new(alloc))),
    }
}

fn text_of_copy(alloc: Global, text: &str) -> Result<Text, Fail> {
    let tokens = scan(alloc, text)?;
    match read_type(alloc, tokens.as_slice(), text, 0) {
        Ok((of, _)) => {
            let copy = quoted_type(alloc, &of)?;
            Ok(type_text(alloc, &copy)?)
        }
        Err(_) => Ok(Text::from_vec(Vec::new(alloc))),
    }
}

#[test]
fn types_have_these_texts(rt: HostRuntime) -> Result<(), Fail> {
    for (text, wanted) in ROWS {
        let found = text_of(rt.alloc(), text)?;
        assert_eq!(rt; found.as_slice(), wanted.as_bytes(), "{text}");
        let copied = text_of_copy(rt.alloc(), text)?;
        assert_eq!(rt; copied.as_slice(), wanted.as_bytes(), "{text}");
    }
    Ok(())
}

fn number_type() -> TypeExpr {
    TypeExpr::Keyword {
        at: 0,
        keyword: TypeKeyword::Number,
    }
}

// What stands in no text: what names stand for, and type arguments.
#[test]
fn found_types_have_these_texts(rt: HostRuntime) -> Result<(), Fail> {
    let alloc = rt.alloc();
    let mut arguments = Items::new(alloc);
    arguments.push(number_type())?;
    arguments.push(TypeExpr::Class {
        path: Path::read(alloc, "a.ts")?,
        name: Name::copy_of(alloc, "C")?,
    })?;
    arguments.push(TypeExpr::Param {
        owner: Name::copy_of(alloc, "f")?,
        name: Name::copy_of(alloc, "T")?,
    })?;
    let named = TypeExpr::Named {
        path: Path::read(alloc, "a.ts")?,
        name: Name::copy_of(alloc, "I")?,
        arguments,
    };
    let found = type_text(alloc, &named)?;
    assert_eq!(rt; found.as_slice(), b"I<number, typeof C, T>".as_slice());
    Ok(())
}

fn spelled(of: &TypeExpr) -> &str {
    match of {
        TypeExpr::String { spelled, .. } => spelled.as_str(),
        _ => "",
    }
}

#[test]
fn copies_have_strings_by_their_values(rt: HostRuntime) -> Result<(), Fail> {
    let alloc = rt.alloc();
    let of = TypeExpr::String {
        at: 3,
        spelled: Name::copy_of(alloc, "'it\\'s'")?,
    };
    let copy = quoted_type(alloc, &of)?;
    assert_eq!(rt; spelled(&copy), "\"it's\"");
    Ok(())
}
