//! Strings by their values, and the one spelling of each value.

ghost use Rattle.std.specs.Prelude.{◌≡◌, ◌<◌, ◌≤◌, [], ◌∷◌, ◌++◌, IfOk, OnOk, MatchOption, IsUtf8, chars, flat_map, string_bytes, encode_utf8_all};
ghost use Rattle.std.specs.Char.{digit_value, digit_char};
ghost use Rattle.tb_layout.specs.Quoted as spec;
ghost use Rattle.tb_show.specs.Steps as steps;

use crate::texts::put;
use std::alloc::Global;
use tb_text::{Name, NoMemory};

/// Where a character of a string stands.
#[derive(Clone, Copy)]
pub enum Standing {
    Alone,
    /// Behind a backslash.
    Escaped,
    /// Behind `\u`.
    Unit,
    /// In the digits of `\xHH` or `\uHHHH`: how many more follow it, and the number before it.
    InDigits { more: u8, number: u32 },
    /// Between `\u{` and `}`.
    InBraces { number: u32 },
}

/// The first number that is above every character.
const ABOVE_ALL: u32 = 0x11_0000;

/// The spelling, in double quotes, of the value that a string has.
pub fn quoted(alloc: Global, spelled: &str) -> Result<Name, NoMemory>
    ensures { IfOk result (λ name. name ≡ spec.quoted spelled.now) }
{
    let mut out = String::new(alloc);
    write_quoted(&mut out, spelled)?;
    Ok(Name::from_string(out))
}

/// Writes it at the end of a text. Where memory is refused, a first part of it may stand there.
pub fn write_quoted(out: &mut String, spelled: &str) -> Result<(), NoMemory>
    ensures { OnOk result (string_bytes out.new ≡ string_bytes out.old ++ spec.quoted spelled.now) }
{
    put(out, "\"")?;
    write_inside(out, spelled)?;
    put(out, "\"")?;
    Ok(())
}

/// What stands between the quotes, each character as it is read.
fn write_inside(out: &mut String, spelled: &str) -> Result<(), NoMemory>
    ensures { OnOk result (string_bytes out.new
        ≡ string_bytes out.old ++ steps.written (spec.string_value spelled.now)) }
{
    match first_character(spelled) {
        Some((quote, rest)) => write_value(out, quote, rest),
        None => Ok(()),
    }
}

fn first_character(text: &str) -> Option<(char, &str)>
    ensures { MatchOption result (chars text.now ≡ []) (λ p. chars text.now ≡ p.0 ∷ chars p.1.now) }
{
    let mut characters = text.chars();
    let first = characters.next()?;
    Some((first, characters.as_str()))
}

/// The value of what stands behind the first quote.
fn write_value(out: &mut String, quote: char, rest: &str) -> Result<(), NoMemory>
    ensures { OnOk result (string_bytes out.new
        ≡ string_bytes out.old ++ steps.written (spec.value_from quote spec.Alone (chars rest.now))) }
{
    let mut standing = Standing::Alone;
    for character in rest.chars() {
        write_completed(out, completed(quote, standing, character))?;
        standing = stands_next(standing, character);
    }
    Ok(())
}

/// Where the next character stands.
fn stands_next(standing: Standing, character: char) -> Standing
    ensures { steps.seen result ≡ spec.stands_next (steps.seen standing) character }
{
    match standing {
        Standing::Alone => by_itself(character),
        Standing::Escaped => behind_backslash(character),
        Standing::Unit => behind_unit(character),
        Standing::InDigits { more, number } => in_digits(more, number, character),
        Standing::InBraces { number } => in_braces(number, character),
    }
}

fn by_itself(character: char) -> Standing
    ensures { steps.seen result ≡ spec.stands_next spec.Alone character }
{
    if character == '\\' {
        Standing::Escaped
    } else {
        Standing::Alone
    }
}

fn behind_backslash(character: char) -> Standing
    ensures { steps.seen result ≡ spec.stands_next spec.Escaped character }
{
    match character {
        'x' => Standing::InDigits { more: 1, number: 0 },
        'u' => Standing::Unit,
        _ => Standing::Alone,
    }
}

fn behind_unit(character: char) -> Standing
    ensures { steps.seen result ≡ spec.stands_next spec.Unit character }
{
    if character == '{' {
        return Standing::InBraces { number: 0 };
    }
    Standing::InDigits {
        more: 2,
        number: digit(character),
    }
}

fn in_digits(more: u8, number: u32, character: char) -> Standing
    ensures { steps.seen result ≡ spec.stands_next (spec.InDigits more number) character }
{
    if more == 0 {
        return Standing::Alone;
    }
    Standing::InDigits {
        more: more - 1,
        number: with_digit(number, character),
    }
}

fn in_braces(number: u32, character: char) -> Standing
    ensures { steps.seen result ≡ spec.stands_next (spec.InBraces number) character }
{
    if character == '}' {
        return Standing::Alone;
    }
    Standing::InBraces {
        number: with_digit(number, character),
    }
}

/// The character of the value that is complete with this one. The closing quote is none.
fn completed(quote: char, standing: Standing, character: char) -> Option<char>
    ensures { steps.at_most_one result ≡ spec.completes quote (steps.seen standing) character }
{
    match standing {
        Standing::Alone => unescaped(quote, character),
        Standing::Escaped => escaped(character),
        Standing::Unit => None,
        Standing::InDigits { more, number } => last_digit(more, number, character),
        Standing::InBraces { number } => last_brace(number, character),
    }
}

fn unescaped(quote: char, character: char) -> Option<char>
    ensures { steps.at_most_one result ≡ spec.completes quote spec.Alone character }
{
    if character == '\\' || character == quote {
        None
    } else {
        Some(character)
    }
}

fn escaped(character: char) -> Option<char>
    ensures { steps.at_most_one result ≡ spec.completes 0 spec.Escaped character }
{
    if character == 'x' || character == 'u' {
        None
    } else {
        Some(named(character))
    }
}

/// The character that is written as a backslash and this letter.
fn named(letter: char) -> char
    ensures { result ≡ spec.escaped_value letter }
{
    match letter {
        'n' => '\n',
        't' => '\t',
        'r' => '\r',
        'b' => '\u{8}',
        'f' => '\u{c}',
        'v' => '\u{b}',
        '0' => '\0',
        _ => letter,
    }
}

fn last_digit(more: u8, number: u32, character: char) -> Option<char>
    ensures { steps.at_most_one result ≡ spec.completes 0 (spec.InDigits more number) character }
{
    if more == 0 {
        Some(numbered(with_digit(number, character)))
    } else {
        None
    }
}

fn last_brace(number: u32, character: char) -> Option<char>
    ensures { steps.at_most_one result ≡ spec.completes 0 (spec.InBraces number) character }
{
    if character == '}' {
        Some(numbered(number))
    } else {
        None
    }
}

/// One digit of base 16 more.
fn with_digit(number: u32, character: char) -> u32
    ensures { result ≡ spec.with_digit number character }
{
    if number < ABOVE_ALL {
        number * 16 + digit(character)
    } else {
        number
    }
}

/// The value of a digit or a letter, and 36 of anything else.
fn digit(character: char) -> u32
    ensures value { result ≡ digit_value character }
    ensures within { result ≤ 36 }
{
    match character.to_digit(36) {
        Some(value) => value,
        None => 36,
    }
}

/// The character with this number, where there is one.
fn numbered(number: u32) -> char
    ensures { result ≡ spec.character number }
{
    match char::from_u32(number) {
        Some(character) => character,
        None => '\u{fffd}',
    }
}

fn write_completed(out: &mut String, character: Option<char>) -> Result<(), NoMemory>
    ensures { OnOk result (string_bytes out.new
        ≡ string_bytes out.old ++ steps.written (steps.at_most_one character)) }
{
    match character {
        Some(character) => write_character(out, character),
        None => Ok(()),
    }
}

fn write_character(out: &mut String, character: char) -> Result<(), NoMemory>
    ensures { OnOk result (string_bytes out.new ≡ string_bytes out.old ++ encode_utf8_all (spec.quoted_character character)) }
{
    match character {
        '"' => put(out, "\\\""),
        '\\' => put(out, "\\\\"),
        '\n' => put(out, "\\n"),
        '\r' => put(out, "\\r"),
        '\t' => put(out, "\\t"),
        _ => write_other(out, character),
    }
}

/// One that has no spelling of its own.
fn write_other(out: &mut String, character: char) -> Result<(), NoMemory>
    ensures { OnOk result (string_bytes out.new ≡ string_bytes out.old ++ encode_utf8_all (steps.other character)) }
{
    if character < ' ' || character == '\u{7f}' {
        return write_hex(out, character as u32);
    }
    out.push(character)?;
    Ok(())
}

/// `\xHH`, of a number below 128.
fn write_hex(out: &mut String, number: u32) -> Result<(), NoMemory>
    requires { number < 128 }
    ensures { OnOk result (string_bytes out.new ≡ string_bytes out.old ++ encode_utf8_all (spec.hex_escape number)) }
{
    put(out, "\\x")?;
    out.push(hex_digit(number / 16))?;
    out.push(hex_digit(number % 16))?;
    Ok(())
}

fn hex_digit(value: u32) -> char
    requires { value < 16 }
    ensures { result ≡ digit_char value }
{
    match char::from_digit(value, 16) {
        Some(character) => character,
        None => '0',
    }
}
