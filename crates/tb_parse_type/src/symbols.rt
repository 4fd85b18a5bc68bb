//! What a token is to the grammar.

ghost use Rattle.std.specs.Prelude.{◌≡◌};
ghost use Rattle.tb_parse_type.specs.Symbols as spec;

use std::str;
use tb_scan::{Kind, Token};
use tb_tree::{Class, Mark, Template, mark_of, word_of};

/// A token that is a mark, or the class of another one.
#[derive(Clone, Copy, Debug, PartialEq, Eq)]
pub enum Symbol {
    Mark(Mark),
    Class(Class),
}

#[tactic(auto, using(crate::proofs::Spellings::as_text_of, crate::proofs::Spellings::as_text_not))]
fn as_text(bytes: &[u8]) -> &str
    ensures { result.now ≡ spec.as_text bytes.now }
{
    match str::from_utf8(bytes) {
        Ok(text) => text,
        Err(_) => "",
    }
}

/// How a token is spelled.
pub fn spelled(text: &str, token: Token) -> &str
    ensures { result.now ≡ spec.spelled text.now token }
{
    if token.start <= token.end && token.end <= text.len() {
        as_text(&text.as_bytes()[token.start..token.end])
    } else {
        ""
    }
}

fn mark_symbol(spelled: &[u8]) -> Symbol
    ensures { result ≡ spec.mark_symbol spelled.now }
{
    match mark_of(spelled) {
        Some(mark) => Symbol::Mark(mark),
        None => Symbol::Class(Class::Bad),
    }
}

/// What a token of this kind, spelled so, is.
pub fn symbol_of(kind: Kind, spelled: &[u8]) -> Symbol
    ensures { result ≡ spec.symbol_of kind spelled.now }
{
    match kind {
        Kind::Word => Symbol::Class(Class::Word(word_of(spelled))),
        Kind::Number => Symbol::Class(Class::Number),
        Kind::Str => Symbol::Class(Class::String),
        Kind::Mark => mark_symbol(spelled),
        Kind::Whole => Symbol::Class(Class::Template(Template::Whole)),
        Kind::Head => Symbol::Class(Class::Template(Template::Head)),
        Kind::Middle => Symbol::Class(Class::Template(Template::Middle)),
        Kind::Tail => Symbol::Class(Class::Template(Template::Tail)),
        Kind::Bad => Symbol::Class(Class::Bad),
    }
}
