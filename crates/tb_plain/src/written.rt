//! How a plain file is written.

ghost use Rattle.std.specs.Prelude.{◌≡◌, IfOk, IsTrue, IsFalse};
ghost use Rattle.tb_plain.specs.Written as spec;
ghost use Rattle.tb_plain.specs.Written.{IsWrittenPlainly};

use std::alloc::Global;
use std::str;
use tb_scan::{Kind, Token, scan, tokens_are_determined};
use tb_text::NoMemory;

/// Whether a text is written as plain files are: in UTF-8, without parentheses, `|` and commas, which their trees do not
/// tell, and with `;` behind each member of an interface.
pub fn is_written_plainly(alloc: Global, text: &[u8]) -> Result<bool, NoMemory>
    ensures yes { IfOk result (λ b. IsTrue b → IsWrittenPlainly text.now) }
    ensures no { IfOk result (λ b. IsFalse b → IsWrittenPlainly text.now → ⊥) }
{
    match str::from_utf8(text) {
        Ok(text) => has_plain_tokens(alloc, text),
        Err(_) => Ok(false),
    }
}

fn has_plain_tokens(alloc: Global, text: &str) -> Result<bool, NoMemory>
    ensures yes { IfOk result (λ b. IsTrue b → IsWrittenPlainly text.now) }
    ensures no { IfOk result (λ b. IsFalse b → IsWrittenPlainly text.now → ⊥) }
{
    tokens_are_determined();
    let tokens = scan(alloc, text)?;
    Ok(may_follow(text.as_bytes(), tokens.as_slice()))
}

// Whether each token may stand behind the one before it.
fn may_follow(text: &[u8], tokens: &[Token]) -> bool
    ensures { result ≡ spec.may_follow text.now 0 tokens.now }
{
    let mut before = 0;
    for token in tokens {
        let byte = first_byte(text, token);
        if !may_stand(before, token.kind, byte) {
            return false;
        }
        before = byte;
    }
    true
}

// The byte that a token begins with.
fn first_byte(text: &[u8], token: &Token) -> u8
    ensures { result ≡ spec.first_byte text.now token.now }
{
    match text.get(token.start) {
        Some(byte) => *byte,
        None => 0,
    }
}

fn may_stand(before: u8, kind: Kind, byte: u8) -> bool
    ensures { result ≡ spec.may_stand before kind byte }
{
    match kind {
        Kind::Mark => !is_odd_mark(before, byte),
        _ => true,
    }
}

fn is_odd_mark(before: u8, byte: u8) -> bool
    ensures { result ≡ spec.is_odd_mark before byte }
{
    byte == b'('
        || byte == b')'
        || byte == b'|'
        || byte == b','
        || (byte == b'}' && before != b';' && before != b'{')
}
