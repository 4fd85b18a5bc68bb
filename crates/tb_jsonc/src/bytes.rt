//! The bytes that a trailing comma depends on.
ghost use Rattle.std.specs.Prelude.{◌≡◌};
ghost use Rattle.tb_jsonc.specs.Blanks.{is_blank, is_opening, is_closing};

pub fn is_blank(b: u8) -> bool
    ensures { result ≡ is_blank b }
{
    b == b' ' || b == b'\t' || b == b'\n' || b == b'\r'
}

pub fn is_opening(b: u8) -> bool
    ensures { result ≡ is_opening b }
{
    b == b',' || b == b'[' || b == b'{'
}

pub fn is_closing(b: u8) -> bool
    ensures { result ≡ is_closing b }
{
    b == b']' || b == b'}'
}
