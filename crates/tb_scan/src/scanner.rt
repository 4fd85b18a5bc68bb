ghost use Rattle.std.specs.Prelude.{◌≡◌, ◌<◌, ◌≤◌, [], IfOk, IfSome, IfNone, OnErr, IsCharBoundary};
ghost use Rattle.tb_scan.specs.Tokens.{AreCut, IsAtEnd, NextToken, Scans};

use crate::braces::Braces;
use crate::characters::first_char;
use crate::fronts::front_of;
use crate::spacing::spacing_len;
use crate::token::Token;
use std::alloc::Global;
use tb_text::{List, NoMemory};

/// The next token behind the blanks and comments at `at`, with what is open there. None where nothing else is left.
/// Goes past the token: what is open behind it stands in `braces` then.
pub fn next_token(text: &str, at: usize, braces: &mut Braces) -> Result<Option<Token>, NoMemory>
    requires { IsCharBoundary text.now at }
    ensures found { IfOk result (λ next. IfSome next (λ token. NextToken text.now at braces.old token braces.new)) }
    ensures behind { IfOk result (λ next. IfSome next (λ token. at ≤ token.start)) }
    ensures filled { IfOk result (λ next. IfSome next (λ token. token.start < token.end)) }
    ensures start { IfOk result (λ next. IfSome next (λ token. IsCharBoundary text.now token.start)) }
    ensures end { IfOk result (λ next. IfSome next (λ token. IsCharBoundary text.now token.end)) }
    ensures none { IfOk result (λ next. IfNone next (IsAtEnd text.now at)) }
    ensures unmoved { IfOk result (λ next. IfNone next (braces.new ≡ braces.old)) }
    ensures err { OnErr result (braces.new ≡ braces.old) }
{
    let spacing = spacing_len(&text[at..]);
    let start = at + spacing;
    let rest = &text[start..];
    let Some(first) = first_char(rest) else {
        return Ok(None);
    };
    let front = front_of(rest, first, braces);
    let parts = rest.as_bytes().split_at(front.length);
    braces.pass(front.kind, parts.0)?;
    Ok(Some(Token {
        kind: front.kind,
        start,
        end: start + front.length,
    }))
}

/// All tokens of a text, in order.
pub fn scan(alloc: Global, text: &str) -> Result<List<Token>, NoMemory>
    ensures all { IfOk result (λ tokens. Scans text.now 0 [] tokens) }
    ensures cut { IfOk result (λ tokens. AreCut text.now tokens) }
{
    let mut tokens = List::new(alloc);
    let mut braces = Braces::new(alloc);
    let mut at = 0;
    while let Some(token) = next_token(text, at, &mut braces)? {
        tokens.push(token)?;
        at = token.end;
    }
    Ok(tokens)
}
