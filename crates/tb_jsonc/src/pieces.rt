//! The pieces of a text: strings, comments, and single bytes that stand in neither.
ghost use Rattle.std.specs.Prelude.{◌≡◌, ◌+◌, ◌<◌, ◌≤◌, length, false, IfSome};
ghost use Rattle.tb_jsonc.specs.Blanks.{cell};
ghost use Rattle.tb_jsonc.specs.Pieces.{first_piece, string_len, line_len, block_len};

/// What a byte of a text stands in.
#[derive(Clone, Copy, Debug, PartialEq, Eq)]
pub enum Kind {
    Quoted,
    Comment,
    Plain,
}

/// A piece of a text, with its number of bytes.
#[derive(Clone, Copy, Debug)]
pub struct Piece {
    pub kind: Kind,
    pub len: usize,
}

/// A byte of a text without comments.
#[derive(Clone, Copy, Debug)]
pub enum Cell {
    /// A byte of a string, its quotes among them.
    Quoted(u8),
    /// Any other byte.
    Free(u8),
}

impl Kind {
    pub fn cell(self, b: u8) -> Cell
        ensures { result ≡ cell self b }
    {
        match self {
            Kind::Quoted => Cell::Quoted(b),
            Kind::Comment => Cell::Free(b' '),
            Kind::Plain => Cell::Free(b),
        }
    }
}

/// The piece that a text begins with; none where it is a comment without an end.
pub fn first_piece(text: &[u8]) -> Option<Piece>
    requires { 0 < length text.now }
    ensures piece { result ≡ first_piece text.now }
    ensures some { IfSome result (λ p. (0 < p.len) × (p.len ≤ length text.now)) }
{
    match text {
        [b'"', rest @ ..] => Some(Piece {
            kind: Kind::Quoted,
            len: string_len(rest) + 1,
        }),
        [b'/', b'/', rest @ ..] => Some(Piece {
            kind: Kind::Comment,
            len: line_len(rest) + 2,
        }),
        [b'/', b'*', rest @ ..] => Some(Piece {
            kind: Kind::Comment,
            len: block_len(rest)? + 2,
        }),
        _ => Some(Piece {
            kind: Kind::Plain,
            len: 1,
        }),
    }
}

fn string_len(text: &[u8]) -> usize
    ensures len { result ≡ string_len false text.now }
    ensures within { result ≤ length text.now }
{
    let mut escaped = false;
    for (i, b) in text.iter().enumerate() {
        if *b == b'"' && !escaped {
            return i + 1;
        }
        escaped = *b == b'\\' && !escaped;
    }
    text.len()
}

fn line_len(text: &[u8]) -> usize
    ensures len { result ≡ line_len text.now }
    ensures within { result ≤ length text.now }
{
    for (i, b) in text.iter().enumerate() {
        if *b == b'\n' {
            return i;
        }
    }
    text.len()
}

fn block_len(text: &[u8]) -> Option<usize>
    ensures len { result ≡ block_len false text.now }
    ensures within { IfSome result (λ n. n ≤ length text.now) }
{
    let mut starred = false;
    for (i, b) in text.iter().enumerate() {
        if *b == b'/' && starred {
            return Some(i + 1);
        }
        starred = *b == b'*';
    }
    None
}
