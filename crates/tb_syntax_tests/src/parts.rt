//! Tests of the parts of `tb_parse_body` that files are read with.

use std::alloc::Global;
use std::test::Fail;
use tb_parse_body::{
    Around, Front, StmtFront, annotation_at, block_at, body_at, function_at, signature_at, stmt_at,
    value_at, var_at,
};
use tb_parse_type::Reader;
use tb_scan::scan;
use tb_text::NoMemory;

#[derive(Clone, Copy)]
enum Part {
    Annotation,
    Block,
    Body,
    Function,
    Signature,
    Stmt,
    Value,
    Var,
}

// How deep a part is, and the first place behind it.
type End = (usize, usize);

fn end_of<T: Drop>(read: Result<Front<T>, NoMemory>) -> Result<Option<End>, NoMemory> {
    match read {
        Ok(front) => Ok(Some((front.depth, front.next))),
        Err(fault) => Err(fault),
    }
}

fn end_of_any<T: Drop>(read: Result<Option<Front<T>>, NoMemory>) -> Result<Option<End>, NoMemory> {
    match read {
        Ok(Some(front)) => Ok(Some((front.depth, front.next))),
        Ok(None) => Ok(None),
        Err(fault) => Err(fault),
    }
}

fn end_of_stmt(read: Result<Option<StmtFront>, NoMemory>) -> Result<Option<End>, NoMemory> {
    match read {
        Ok(Some(front)) => Ok(Some((front.depth, front.next))),
        Ok(None) => Ok(None),
        Err(fault) => Err(fault),
    }
}

// In a loop of a body, and in no switch.
const AROUND: Around = Around {
    in_body: true,
    in_loop: true,
    in_switch: false,
};

fn end_at(reader: Reader<'_>, part: Part, limit: usize) -> Result<Option<End>, NoMemory> {
    match part {
        Part::Annotation => end_of(annotation_at(reader, 0, limit)),
        Part::Block => end_of_any(block_at(reader, 0, AROUND, limit)),
        Part::Body => end_of_any(body_at(reader, 0, limit)),
        Part::Function => end_of_any(function_at(reader, 0, limit)),
        Part::Signature => end_of_any(signature_at(reader, 0, limit)),
        Part::Stmt => end_of_stmt(stmt_at(reader, 0, AROUND, limit)),
        Part::Value => end_of(value_at(reader, 0, limit)),
        Part::Var => end_of_any(var_at(reader, 0, limit)),
    }
}

fn end_in(alloc: Global, part: Part, text: &str, limit: usize) -> Result<Option<End>, NoMemory> {
    let tokens = scan(alloc, text)?;
    let reader = Reader {
        alloc,
        tokens: tokens.as_slice(),
        text,
    };
    end_at(reader, part, limit)
}

// A part, a text, how deep the part may be, and where the longest one ends.
const PARTS: [(Part, &str, usize, Option<End>); 24] = [
    (Part::Annotation, ": A[] = b", 2, Some((2, 4))),
    (Part::Annotation, ": A[] = b", 1, Some((1, 2))),
    (Part::Annotation, "= b", 9, Some((0, 0))),
    (Part::Value, "= f(a);", 2, Some((2, 5))),
    (Part::Value, "= f(a);", 1, Some((1, 2))),
    (Part::Value, ": A", 9, Some((0, 0))),
    (Part::Var, "let a: A = b, c;", 1, Some((1, 9))),
    (Part::Var, "let a: A = b, c;", 0, None),
    (Part::Var, "const a;", 9, None),
    (Part::Signature, "(a, b: A = c,) x", 1, Some((1, 10))),
    (Part::Signature, "()", 0, Some((0, 2))),
    (Part::Signature, "(a = b, c)", 9, None),
    (Part::Body, ": A[] { } x", 2, Some((2, 6))),
    (Part::Body, "{ a; } x", 2, Some((2, 4))),
    (Part::Body, "{ a; } x", 1, None),
    (
        Part::Function,
        "function f(a?: A): B { return a; }",
        2,
        Some((2, 15)),
    ),
    (
        Part::Function,
        "function f(a?: A): B { return a; }",
        1,
        None,
    ),
    (Part::Block, "{ let a; { return; } } }", 2, Some((2, 9))),
    (Part::Block, "{ let a; { return; } } }", 1, None),
    (Part::Block, "{ continue; } }", 1, Some((1, 4))),
    (Part::Stmt, "if (a) { } else ; b", 2, Some((2, 8))),
    (Part::Stmt, "if (a) { } else ; b", 1, None),
    (Part::Stmt, "break; b", 0, Some((0, 2))),
    (Part::Stmt, "} b", 9, None),
];

#[test]
fn reads_the_longest_part(rt: HostRuntime) -> Result<(), Fail> {
    for (part, text, limit, wanted) in PARTS {
        let found = end_in(rt.alloc(), part, text, limit)?;
        assert_eq!(rt; found, wanted, "{text} {limit}");
    }
    Ok(())
}

#[test]
fn spells_tokens_as_they_stand(rt: HostRuntime) -> Result<(), Fail> {
    let text = "let \u{E9} = 'b'";
    let tokens = scan(rt.alloc(), text)?;
    let reader = Reader {
        alloc: rt.alloc(),
        tokens: tokens.as_slice(),
        text,
    };
    for (at, spelled) in [(0, "let"), (1, "\u{E9}"), (2, "="), (3, "'b'"), (4, "")] {
        assert_eq!(rt; reader.text_at(at)?.as_str(), spelled);
    }
    Ok(())
}
