ghost use Rattle.std.specs.Prelude.{◌≡◌, ◌≤◌, ◌&&◌, ◌==◌, [], ◌∷◌, nat_le, IfSome, IfNone, IsTrue, IsFalse, IsUtf8, length, take, drop};
ghost use Rattle.std.specs.List.{list_all};
ghost use Rattle.std.specs.Str.{all_scalars};
ghost use Rattle.tb_scan.specs.Characters.{is_digit, begins, begins_where};
ghost use Rattle.tb_scan.specs.Pieces.{IsFront, IsEscape, IsEscapeRest, Stops, spells_scalar, is_simple_escape};

use crate::characters::begins;
use crate::digits::{are_digits, digits_len, hex_value, is_digit};

/// The length of the escape that the text begins with.
pub fn escape_len(text: &[u8]) -> Option<usize>
    requires { IsUtf8 text.now }
    ensures found { IfSome result (IsFront IsEscape text.now) }
    ensures none { IfNone result (Stops IsEscape text.now) }
{
    if text.len() < 2 || text[0] != b'\\' {
        return None;
    }
    match escape_rest(text[1], &text[2..]) {
        Some(length) => Some(length + 2),
        None => None,
    }
}

/// How many bytes of `rest` belong to the escape of this letter, which stands behind a backslash.
fn escape_rest(letter: u8, rest: &[u8]) -> Option<usize>
    ensures found { IfSome result (IsEscapeRest letter rest.now) }
    ensures none { IfNone result (Stops IsEscape (92 ∷ letter ∷ rest.now)) }
{
    match letter {
        b'0' => zero_rest(rest),
        b'x' => byte_rest(rest),
        b'u' => unit_rest(rest),
        _ => simple_rest(letter, rest),
    }
}

fn zero_rest(rest: &[u8]) -> Option<usize>
    ensures found { IfSome result (IsEscapeRest 48 rest.now) }
    ensures none { IfNone result (Stops IsEscape (92 ∷ 48 ∷ rest.now)) }
{
    if begins_with_digit(rest) {
        None
    } else {
        Some(0)
    }
}

fn byte_rest(rest: &[u8]) -> Option<usize>
    ensures found { IfSome result (IsEscapeRest 120 rest.now) }
    ensures none { IfNone result (Stops IsEscape (92 ∷ 120 ∷ rest.now)) }
{
    if hex_front(rest, 2) { Some(2) } else { None }
}

fn unit_rest(rest: &[u8]) -> Option<usize>
    ensures found { IfSome result (IsEscapeRest 117 rest.now) }
    ensures none { IfNone result (Stops IsEscape (92 ∷ 117 ∷ rest.now)) }
{
    if begins(rest, b'{') {
        return braced_rest(rest);
    }
    if scalar_front(rest, 4) { Some(4) } else { None }
}

fn braced_rest(rest: &[u8]) -> Option<usize>
    requires { IsTrue (begins 123 rest.now) }
    ensures found { IfSome result (IsEscapeRest 117 rest.now) }
    ensures none { IfNone result (Stops IsEscape (92 ∷ 117 ∷ rest.now)) }
{
    let digits = &rest[1..];
    let count = digits_len(16, digits);
    if is_closed(digits, count) {
        Some(count + 2)
    } else {
        None
    }
}

fn simple_rest(letter: u8, rest: &[u8]) -> Option<usize>
    requires no_zero { IsFalse (letter == 48) }
    requires no_byte { IsFalse (letter == 120) }
    requires no_unit { IsFalse (letter == 117) }
    ensures found { IfSome result (IsEscapeRest letter rest.now) }
    ensures none { IfNone result (Stops IsEscape (92 ∷ letter ∷ rest.now)) }
{
    if is_simple_escape(letter) {
        Some(0)
    } else {
        None
    }
}

fn is_simple_escape(letter: u8) -> bool
    ensures { result ≡ is_simple_escape letter }
{
    matches!(
        letter,
        b'n' | b't' | b'r' | b'b' | b'f' | b'v' | b'\\' | b'\'' | b'"' | b'$' | b'`'
    )
}

fn begins_with_digit(text: &[u8]) -> bool
    ensures { result ≡ begins_where (is_digit 10) text.now }
{
    match text.first() {
        Some(first) => is_digit(10, *first),
        None => false,
    }
}

/// Whether the first bytes, so many, are digits of base 16.
fn hex_front(text: &[u8], count: usize) -> bool
    ensures { result ≡ (nat_le count (length text.now) && list_all (is_digit 16) (take count text.now)) }
{
    count <= text.len() && are_digits(16, &text[..count])
}

/// Whether the first bytes, so many, are digits of base 16 that spell a scalar value.
fn scalar_front(text: &[u8], count: usize) -> bool
    requires { count ≤ 6 }
    ensures { result ≡ (nat_le count (length text.now) && (list_all (is_digit 16) (take count text.now) && spells_scalar (take count text.now))) }
{
    count <= text.len() && are_digits(16, &text[..count]) && is_scalar(hex_value(&text[..count]))
}

fn is_scalar(value: u32) -> bool
    ensures { result ≡ all_scalars (value ∷ []) }
{
    value < 0xD800 || (0xE000 <= value && value < 0x11_0000)
}

/// Whether so many digits, one to six, spell a scalar value, and a brace follows them.
fn is_closed(text: &[u8], count: usize) -> bool
    requires { count ≤ length text.now }
    ensures { result ≡ (nat_le 1 count && (nat_le count 6 && (begins 125 (drop count text.now) && (nat_le count (length text.now) && (list_all (is_digit 16) (take count text.now) && spells_scalar (take count text.now)))))) }
{
    1 <= count && count <= 6 && begins(&text[count..], b'}') && scalar_front(text, count)
}
