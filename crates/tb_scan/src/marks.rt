ghost use Rattle.std.specs.Prelude.{◌≡◌, ◌<◌, [], ◌∷◌, IfSome, IfNone, IsFalse, length, take};
ghost use Rattle.tb_scan.specs.Marks.{is_mark};
ghost use Rattle.tb_scan.specs.Tokens.{IsLongestMark, HasNoMark};

use crate::characters::begins_pair;

/// Whether this byte is a mark.
pub fn is_single(a: u8) -> bool
    ensures { result ≡ is_mark (a ∷ []) }
{
    matches!(
        a,
        b'{' | b'}'
            | b'('
            | b')'
            | b'['
            | b']'
            | b'.'
            | b';'
            | b','
            | b'<'
            | b'>'
            | b'+'
            | b'-'
            | b'*'
            | b'/'
            | b'%'
            | b'!'
            | b'?'
            | b':'
            | b'='
            | b'|'
    )
}

/// Whether these bytes are a mark.
pub fn is_pair(a: u8, b: u8) -> bool
    ensures { result ≡ is_mark (a ∷ b ∷ []) }
{
    match a {
        b'<' | b'>' | b'*' | b'/' | b'%' => b == b'=',
        b'+' | b'-' => b == a || b == b'=',
        b'&' | b'|' | b'?' => b == a,
        b'=' => b == b'>',
        _ => false,
    }
}

/// Whether these bytes are a mark.
pub fn is_triple(a: u8, b: u8, c: u8) -> bool
    ensures { result ≡ is_mark (a ∷ b ∷ c ∷ []) }
{
    (a == b'=' || a == b'!') && b == b'=' && c == b'='
}

/// The length of the longest mark that the text begins with. The `/` of a `/*` is none.
pub fn mark_len(text: &[u8]) -> Option<usize>
    ensures found { IfSome result (IsLongestMark text.now) }
    ensures none { IfNone result (HasNoMark text.now) }
{
    if text.len() > 2 && is_triple(text[0], text[1], text[2]) {
        return Some(3);
    }
    if text.len() > 1 && is_pair(text[0], text[1]) {
        return Some(2);
    }
    single_len(text)
}

fn single_len(text: &[u8]) -> Option<usize>
    requires no_triple { 2 < length text.now → IsFalse (is_mark (take 3 text.now)) }
    requires no_pair { 1 < length text.now → IsFalse (is_mark (take 2 text.now)) }
    ensures found { IfSome result (IsLongestMark text.now) }
    ensures none { IfNone result (HasNoMark text.now) }
{
    if text.is_empty() || begins_pair(text, b'/', b'*') {
        return None;
    }
    if is_single(text[0]) { Some(1) } else { None }
}
