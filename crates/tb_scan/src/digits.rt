ghost use Rattle.std.specs.Prelude.{◌≡◌, ◌≤◌, length};
ghost use Rattle.std.specs.Char.{digit_value};
ghost use Rattle.std.specs.List.{list_all, prefix_len};
ghost use Rattle.tb_scan.specs.Characters.{is_digit};
ghost use Rattle.tb_scan.specs.Pieces.{hex_value};

/// Whether the byte is a digit of this base.
pub fn is_digit(base: u32, byte: u8) -> bool
    requires low { 2 ≤ base }
    requires high { base ≤ 36 }
    ensures { result ≡ is_digit base byte }
{
    (byte as char).is_digit(base)
}

/// How many digits the text begins with.
pub fn digits_len(base: u32, text: &[u8]) -> usize
    requires low { 2 ≤ base }
    requires high { base ≤ 36 }
    ensures value { result ≡ prefix_len (is_digit base) text.now }
    ensures bound { result ≤ length text.now }
{
    text.iter()
        .take_while(|byte| is_digit(base, **byte))
        .count()
}

/// Whether all these bytes are digits.
pub fn are_digits(base: u32, text: &[u8]) -> bool
    requires low { 2 ≤ base }
    requires high { base ≤ 36 }
    ensures { result ≡ list_all (is_digit base) text.now }
{
    text.iter().all(|byte| is_digit(base, *byte))
}

/// The value of a digit, up to 35; 36 for any other byte.
pub fn digit_value(byte: u8) -> u32
    ensures value { result ≡ digit_value byte }
    ensures bound { result ≤ 36 }
{
    match byte {
        b'0'..=b'9' => (byte - b'0') as u32,
        b'A'..=b'Z' => (byte - b'A') as u32 + 10,
        b'a'..=b'z' => (byte - b'a') as u32 + 10,
        _ => 36,
    }
}

/// The number that digits of base 16 spell.
pub fn hex_value(digits: &[u8]) -> u32
    requires { length digits.now ≤ 6 }
    ensures { result ≡ hex_value digits.now }
{
    let mut value = 0;
    for digit in digits {
        value = value * 16 + digit_value(*digit);
    }
    value
}
