ghost use Rattle.std.specs.Prelude.{◌≡◌, ◌≤◌, ◌||◌, IfSome, IfNone, IsTrue, IsFalse, ◌==◌};
ghost use Rattle.tb_scan.specs.Characters.{is_digit, begins, begins_where};
ghost use Rattle.tb_scan.specs.Numbers.{IsNumber, IsPart, IsWhole, IsFraction, IsPower, IsExponent, IsBased, IsLongestFront, Joined, Lacks, any, in_fraction, base_of};

use crate::characters::begins;
use crate::digits::digits_len;

/// The length of the longest number that the text begins with. It begins with a digit.
pub fn number_len(text: &[u8]) -> usize
    requires { IsTrue (begins_where (is_digit 10) text.now) }
    ensures { IsLongestFront IsNumber text.now result }
{
    match based_len(text) {
        Some(length) => length,
        None => decimal_len(text),
    }
}

/// The length of `0x`, `0o` or `0b` with its digits.
fn based_len(text: &[u8]) -> Option<usize>
    ensures found { IfSome result (IsLongestFront IsBased text.now) }
    ensures none { IfNone result (Lacks IsBased text.now) }
{
    if text.len() < 2 || text[0] != b'0' {
        return None;
    }
    let Some(base) = base_of(text[1]) else {
        return None;
    };
    let count = digits_len(base, &text[2..]);
    if count == 0 { None } else { Some(count + 2) }
}

fn base_of(letter: u8) -> Option<u32>
    ensures value { result ≡ base_of letter }
    ensures low { IfSome result (λ base. 2 ≤ base) }
    ensures high { IfSome result (λ base. base ≤ 36) }
{
    match letter {
        b'x' => Some(16),
        b'o' => Some(8),
        b'b' => Some(2),
        _ => None,
    }
}

fn decimal_len(text: &[u8]) -> usize
    requires { IsTrue (begins_where (is_digit 10) text.now) }
    ensures { IsPart (Joined IsWhole (Joined IsFraction IsExponent)) any text.now result }
{
    let whole = whole_len(text);
    let rest = tail_len(&text[whole..]);
    whole + rest
}

/// What follows the whole part.
fn tail_len(text: &[u8]) -> usize
    ensures { IsPart (Joined IsFraction IsExponent) any text.now result }
{
    let fraction = fraction_len(text);
    let exponent = exponent_len(&text[fraction..]);
    fraction + exponent
}

fn whole_len(text: &[u8]) -> usize
    requires { IsTrue (begins_where (is_digit 10) text.now) }
    ensures { IsPart IsWhole (is_digit 10) text.now result }
{
    if begins(text, b'0') {
        1
    } else {
        digits_len(10, text)
    }
}

fn fraction_len(text: &[u8]) -> usize
    ensures { IsPart IsFraction in_fraction text.now result }
{
    if !begins(text, b'.') {
        return 0;
    }
    let count = digits_len(10, &text[1..]);
    if count == 0 { 0 } else { count + 1 }
}

fn exponent_len(text: &[u8]) -> usize
    ensures { IsPart IsExponent any text.now result }
{
    if !begins_with_e(text) {
        return 0;
    }
    match power_len(&text[1..]) {
        Some(length) => length + 1,
        None => 0,
    }
}

fn begins_with_e(text: &[u8]) -> bool
    ensures { result ≡ begins_where (λ c. (c == 101) || (c == 69)) text.now }
{
    match text.first() {
        Some(first) => *first == b'e' || *first == b'E',
        None => false,
    }
}

fn begins_with_sign(text: &[u8]) -> bool
    ensures { result ≡ begins_where (λ c. (c == 43) || (c == 45)) text.now }
{
    match text.first() {
        Some(first) => *first == b'+' || *first == b'-',
        None => false,
    }
}

/// An optional sign and digits.
fn power_len(text: &[u8]) -> Option<usize>
    ensures found { IfSome result (IsLongestFront IsPower text.now) }
    ensures none { IfNone result (Lacks IsPower text.now) }
{
    if begins_with_sign(text) {
        signed_len(text)
    } else {
        unsigned_len(text)
    }
}

fn signed_len(text: &[u8]) -> Option<usize>
    requires { IsTrue (begins_where (λ c. (c == 43) || (c == 45)) text.now) }
    ensures found { IfSome result (IsLongestFront IsPower text.now) }
    ensures none { IfNone result (Lacks IsPower text.now) }
{
    let count = digits_len(10, &text[1..]);
    if count == 0 { None } else { Some(count + 1) }
}

fn unsigned_len(text: &[u8]) -> Option<usize>
    requires { IsFalse (begins_where (λ c. (c == 43) || (c == 45)) text.now) }
    ensures found { IfSome result (IsLongestFront IsPower text.now) }
    ensures none { IfNone result (Lacks IsPower text.now) }
{
    let count = digits_len(10, text);
    if count == 0 { None } else { Some(count) }
}
