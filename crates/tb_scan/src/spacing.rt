ghost use Rattle.std.specs.Prelude.{◌≡◌, ◌++◌, false, IfSome, IfNone, IsTrue, drop, encode_utf8};
ghost use Rattle.std.specs.Char.{len_utf8};
ghost use Rattle.tb_scan.specs.Characters.{begins_pair, is_blank};
ghost use Rattle.tb_scan.specs.Pieces.{IsFront, IsSpacing, Stops, RunsFor};

use crate::characters::{begins_pair, first_char, is_blank};
use crate::inside::Inside;
use crate::pieces::run_len;

/// The length of the blanks and comments that the text begins with, as far as they go.
pub fn spacing_len(text: &str) -> usize
    ensures { RunsFor IsSpacing text.now result }
{
    let mut at = 0;
    while let Some(length) = space_len(&text[at..]) {
        at += length;
    }
    at
}

/// The length of the blank or the comment that the text begins with.
fn space_len(text: &str) -> Option<usize>
    ensures found { IfSome result (IsFront IsSpacing text.now) }
    ensures none { IfNone result (Stops IsSpacing text.now) }
{
    let Some(c) = first_char(text) else {
        return None;
    };
    if is_blank(c) {
        return Some(c.len_utf8());
    }
    comment_len(text, c)
}

/// The length of the comment that the text begins with; its first character is no blank.
fn comment_len(text: &str, first: char) -> Option<usize>
    requires whole { text.now ≡ encode_utf8 first ++ drop (len_utf8 first) text.now }
    requires no_blank { is_blank first ≡ false }
    ensures found { IfSome result (IsFront IsSpacing text.now) }
    ensures none { IfNone result (Stops IsSpacing text.now) }
{
    if begins_pair(text.as_bytes(), b'/', b'/') {
        Some(line_len(text))
    } else if begins_pair(text.as_bytes(), b'/', b'*') {
        block_len(text)
    } else {
        None
    }
}

/// The length of a comment up to LF or the end.
fn line_len(text: &str) -> usize
    requires { IsTrue (begins_pair 47 47 text.now) }
    ensures { IsFront IsSpacing text.now result }
{
    run_len(Inside::Line, &text[2..]) + 2
}

/// The length of a comment up to `*/`, if it ends.
fn block_len(text: &str) -> Option<usize>
    requires { IsTrue (begins_pair 47 42 text.now) }
    ensures found { IfSome result (IsFront IsSpacing text.now) }
    ensures none { IfNone result (Stops IsSpacing text.now) }
{
    let end = run_len(Inside::Block, &text[2..]) + 2;
    if end < text.len() {
        Some(end + 2)
    } else {
        None
    }
}
