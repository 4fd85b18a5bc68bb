//! Tests of the words and marks of `tb_tree`.

use std::rt::HostRuntime;
use std::test::Fail;
use tb_tree::{is_name, is_type_name, mark_of, word_of};

#[test]
fn tells_words_apart(rt: HostRuntime) -> Result<(), Fail> {
    let reserved =
        "break case catch class const continue debugger default delete do else enum export extends false \
        finally for function if import in instanceof new null return super switch this throw true try typeof var void \
        while with let static yield await implements interface package private protected public undefined";
    let types = "any unknown never number string boolean";
    let names = "a as type from of readonly constructor declare Export exports doo d $ _";
    for (words, name, type_name) in [
        (reserved, false, false),
        (types, true, false),
        (names, true, true),
    ] {
        for text in words.split_whitespace() {
            let word = word_of(text.as_bytes());
            let told = is_name(word) == name && is_type_name(word) == type_name;
            assert!(rt; told, "{text}");
        }
    }
    Ok(())
}

#[test]
fn tells_marks_apart(rt: HostRuntime) -> Result<(), Fail> {
    let marks =
        "{ } ( ) [ ] . ; , < > <= >= === !== + - * / % ++ -- ! && || ?? ? : = += -= *= /= %= => |";
    for (texts, known) in [(marks, true), ("== != & ?. ... ** @ a", false)] {
        for text in texts.split_whitespace() {
            let found = mark_of(text.as_bytes()).is_some();
            assert!(rt; found == known, "{text}");
        }
    }
    Ok(())
}
