ghost use Rattle.std.specs.Prelude.{◌≡◌};
ghost use Rattle.tb_scan.specs.Pieces.{may_stand, has_escapes};

use crate::characters::{begins, is_word_part};

/// Inside what one piece follows another: in a comment up to LF or up to `*/`, in a word, in a string, in a template.
#[derive(Clone, Copy, Debug, PartialEq, Eq)]
pub enum Inside {
    Line,
    Block,
    Word,
    Quoted(char),
    Template,
}

/// Whether the character may stand by itself, before these bytes.
pub fn may_stand(inside: Inside, c: char, after: &[u8]) -> bool
    ensures { result ≡ may_stand inside c after.now }
{
    match inside {
        Inside::Line => c != '\n',
        Inside::Block => !(c == '*' && begins(after, b'/')),
        Inside::Word => is_word_part(c),
        Inside::Quoted(quote) => !(c == quote || c == '\\' || c == '\n' || c == '\r'),
        Inside::Template => !(c == '`' || c == '\\' || (c == '$' && begins(after, b'{'))),
    }
}

pub fn has_escapes(inside: Inside) -> bool
    ensures { result ≡ has_escapes inside }
{
    matches!(inside, Inside::Quoted(_) | Inside::Template)
}
