ghost use Rattle.std.specs.Prelude.{◌≡◌, ◌==◌, ◌≤◌, ◌+◌, ◌++◌, length, drop, encode_utf8, MatchOption, IfSome, IsCharBoundary};
ghost use Rattle.std.specs.Char.{len_utf8};
ghost use Rattle.tb_scan.specs.Characters.{is_blank, is_word_start, is_word_part, is_digit, begins, begins_where, begins_pair};

use unicode_ident::{is_xid_continue, is_xid_start};

/// The character that the text begins with, unless it is empty.
pub fn first_char(text: &str) -> Option<char>
    ensures value { MatchOption result (length text.now ≡ 0) (λ c. text.now ≡ encode_utf8 c ++ drop (len_utf8 c) text.now) }
    ensures boundary { IfSome result (λ c. IsCharBoundary text.now (len_utf8 c)) }
{
    text.chars().next()
}

/// Whether the character stands between tokens.
pub fn is_blank(c: char) -> bool
    ensures { result ≡ is_blank c }
{
    matches!(c, '\t'..='\r' | ' ' | '\u{A0}' | '\u{FEFF}')
}

/// Whether a word may begin with the character.
pub fn is_word_start(c: char) -> bool
    ensures { result ≡ is_word_start c }
{
    c == '$' || c == '_' || is_xid_start(c)
}

/// Whether the character may stand in a word, after its first.
pub fn is_word_part(c: char) -> bool
    ensures { result ≡ is_word_part c }
{
    c == '$' || is_xid_continue(c)
}

/// Whether the text begins with this byte.
pub fn begins(text: &[u8], byte: u8) -> bool
    ensures { result ≡ begins byte text.now }
{
    match text.first() {
        Some(first) => *first == byte,
        None => false,
    }
}

/// Whether the text begins with these two bytes.
pub fn begins_pair(text: &[u8], first: u8, second: u8) -> bool
    ensures { result ≡ begins_pair first second text.now }
{
    match text.first() {
        Some(found) => *found == first && begins(&text[1..], second),
        None => false,
    }
}
