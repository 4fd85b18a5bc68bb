ghost use Rattle.std.specs.Prelude.{IfSome, IfNone, Some, None};
ghost use Rattle.tb_scan.specs.Pieces.{IsFront, IsPiece, IsEscape, Stops, RunsFor};

use crate::characters::first_char;
use crate::escapes::escape_len;
use crate::inside::{Inside, has_escapes, may_stand};

/// The length of the piece that the text begins with: a character that may stand here by itself, or an escape.
pub fn piece_len(inside: Inside, text: &str) -> Option<usize>
    ensures found { IfSome result (IsFront (IsPiece inside) text.now) }
    ensures none { IfNone result (Stops (IsPiece inside) text.now) }
{
    let Some(c) = first_char(text) else {
        return None;
    };
    let length = c.len_utf8();
    let after = &text[length..];
    if may_stand(inside, c, after.as_bytes()) {
        return Some(length);
    }
    if has_escapes(inside) {
        escape_len(text.as_bytes())
    } else {
        None
    }
}

/// The length of the pieces that the text begins with, as far as they go.
pub fn run_len(inside: Inside, text: &str) -> usize
    ensures { RunsFor (IsPiece inside) text.now result }
{
    let mut at = 0;
    while let Some(length) = piece_len(inside, &text[at..]) {
        at += length;
    }
    at
}
