ghost use Rattle.std.specs.Prelude.{◌≡◌, ◌++◌, ◌∷◌, ◌<◌, ◌==◌, ◌&&◌, ◌||◌, List, IsTrue, drop, length, encode_utf8};
ghost use Rattle.std.specs.Char.{len_utf8};
ghost use Rattle.tb_scan.specs.Characters.{is_digit, is_quote, is_word_start, begins, begins_where};
ghost use Rattle.tb_scan.specs.Pieces.{IsFront, Stops, IsSpacing};
ghost use Rattle.tb_scan.specs.Tokens.{AreTemplates, HasNoMark, IsGlueFor, IsOther, IsToken, in_hole, is_glue};
ghost use Rattle.tb_scan.specs.declared.braces.Bracket.{Bracket};

use crate::braces::Braces;
use crate::characters::{begins, begins_pair, first_char, is_word_part, is_word_start};
use crate::inside::Inside;
use crate::marks::mark_len;
use crate::numbers::number_len;
use crate::pieces::run_len;
use crate::token::Kind;

/// What a text begins with: a token of this kind, and its length in bytes.
#[derive(Clone, Copy, Debug)]
pub struct Front {
    pub kind: Kind,
    pub length: usize,
}

/// The token that the text begins with, where neither a blank nor a comment begins.
pub fn front_of(text: &str, first: char, braces: &Braces) -> Front
    requires whole { text.now ≡ encode_utf8 first ++ drop (len_utf8 first) text.now }
    ensures { IsFront (IsToken braces.now result.kind) text.now result.length }
{
    if is_word_start(first) {
        return word_front(text, first);
    }
    if first.is_digit(10) {
        return number_front(text);
    }
    if is_quote(first) {
        return string_front(text, first);
    }
    if first == '`' {
        return template_front(text, Kind::Whole, Kind::Head);
    }
    if closes_hole(first, braces) {
        return template_front(text, Kind::Tail, Kind::Middle);
    }
    mark_front(text, first)
}

/// Whether the character is the `}` of a hole.
fn closes_hole(c: char, braces: &Braces) -> bool
    ensures { result ≡ ((c == 125) && in_hole braces.now) }
{
    c == '}' && braces.in_hole()
}

fn word_front(text: &str, first: char) -> Front
    requires whole { text.now ≡ encode_utf8 first ++ drop (len_utf8 first) text.now }
    requires word { IsTrue (is_word_start first) }
    ensures { (opened : List Bracket) → IsFront (IsToken opened result.kind) text.now result.length }
{
    let length = first.len_utf8();
    let rest = run_len(Inside::Word, &text[length..]);
    Front {
        kind: Kind::Word,
        length: length + rest,
    }
}

/// A number, or one together with a character that must not follow it.
fn number_front(text: &str) -> Front
    requires { IsTrue (begins_where (is_digit 10) text.now) }
    ensures { (opened : List Bracket) → IsFront (IsToken opened result.kind) text.now result.length }
{
    let length = number_len(text.as_bytes());
    let glued = glue_len(&text[length..]);
    if glued == 0 {
        Front {
            kind: Kind::Number,
            length,
        }
    } else {
        Front {
            kind: Kind::Bad,
            length: length + glued,
        }
    }
}

/// The length of the character that the text begins with, if a number must not end before it.
fn glue_len(text: &str) -> usize
    ensures { IsGlueFor text.now result }
{
    match first_char(text) {
        Some(c) => { if is_glue(c) { c.len_utf8() } else { 0 } }
        None => 0,
    }
}

fn is_glue(c: char) -> bool
    ensures { result ≡ is_glue c }
{
    is_word_part(c) || c == '.'
}

fn is_quote(c: char) -> bool
    ensures { result ≡ is_quote c }
{
    c == '"' || c == '\''
}

fn string_front(text: &str, quote: char) -> Front
    requires whole { text.now ≡ quote ∷ drop 1 text.now }
    requires quote { IsTrue (is_quote quote) }
    ensures { (opened : List Bracket) → IsFront (IsToken opened result.kind) text.now result.length }
{
    let end = run_len(Inside::Quoted(quote), &text[1..]) + 1;
    if begins(&text.as_bytes()[end..], quote as u8) {
        Front {
            kind: Kind::Str,
            length: end + 1,
        }
    } else {
        Front {
            kind: Kind::Bad,
            length: text.len(),
        }
    }
}

/// A template from a backtick or a `}` on, of the one kind if it ends and of the other up to a `${`.
fn template_front(text: &str, ended: Kind, holed: Kind) -> Front
    requires { IsTrue (begins_where (λ c. (c == 96) || (c == 125)) text.now) }
    ensures { (opened : List Bracket) → AreTemplates opened text.now ended holed → IsFront (IsToken opened result.kind) text.now result.length }
{
    let end = run_len(Inside::Template, &text[1..]) + 1;
    let after = &text.as_bytes()[end..];
    if begins(after, b'`') {
        Front {
            kind: ended,
            length: end + 1,
        }
    } else if begins_pair(after, b'$', b'{') {
        Front {
            kind: holed,
            length: end + 2,
        }
    } else {
        Front {
            kind: Kind::Bad,
            length: text.len(),
        }
    }
}

/// A mark, an unfinished comment, or a character alone.
fn mark_front(text: &str, first: char) -> Front
    requires whole { text.now ≡ encode_utf8 first ++ drop (len_utf8 first) text.now }
    ensures { (opened : List Bracket) → IsOther opened first → IsFront (IsToken opened result.kind) text.now result.length }
{
    match mark_len(text.as_bytes()) {
        Some(length) => Front {
            kind: Kind::Mark,
            length,
        },
        None => stray_front(text, first),
    }
}

fn stray_front(text: &str, first: char) -> Front
    requires whole { text.now ≡ encode_utf8 first ++ drop (len_utf8 first) text.now }
    requires no_mark { HasNoMark text.now }
    ensures { (opened : List Bracket) → IsOther opened first → IsFront (IsToken opened result.kind) text.now result.length }
{
    if begins_pair(text.as_bytes(), b'/', b'*') {
        Front {
            kind: Kind::Bad,
            length: text.len(),
        }
    } else {
        Front {
            kind: Kind::Bad,
            length: first.len_utf8(),
        }
    }
}
