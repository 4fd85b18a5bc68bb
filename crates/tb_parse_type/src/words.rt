//! The words and numbers that are types.

ghost use Rattle.std.specs.Prelude.{◌≡◌};
ghost use Rattle.std.specs.List.{list_all};
ghost use Rattle.tb_tree.specs.Shapes as shapes;
ghost use Rattle.tb_tree.specs.Types as types;

use tb_tree::{TypeKeyword, Word};

/// The keyword that a word is in a type.
pub fn keyword_of(word: Word) -> Option<TypeKeyword>
    ensures { result ≡ types.keyword_of word }
{
    match word {
        Word::Any => Some(TypeKeyword::Any),
        Word::Unknown => Some(TypeKeyword::Unknown),
        Word::Never => Some(TypeKeyword::Never),
        Word::Number => Some(TypeKeyword::Number),
        Word::String => Some(TypeKeyword::String),
        Word::Boolean => Some(TypeKeyword::Boolean),
        Word::Void => Some(TypeKeyword::Void),
        Word::Null => Some(TypeKeyword::Null),
        Word::Undefined => Some(TypeKeyword::Undefined),
        _ => None,
    }
}

/// The truth value that a word is.
pub fn truth_of(word: Word) -> Option<bool>
    ensures { result ≡ types.truth_of word }
{
    match word {
        Word::True => Some(true),
        Word::False => Some(false),
        _ => None,
    }
}

fn is_digit(byte: u8) -> bool
    ensures { result ≡ shapes.is_digit byte }
{
    48 <= byte && byte <= 57
}

fn are_digits(digits: &[u8]) -> bool
    ensures { result ≡ list_all shapes.is_digit digits.now }
{
    digits.iter().all(|digit| is_digit(*digit))
}

fn has_lead(digits: &[u8]) -> bool
    ensures { result ≡ shapes.has_lead digits.now }
{
    match digits {
        [] => false,
        [first, ..] => *first != 48,
    }
}

/// Whether a number is `0`.
pub fn is_zero(digits: &[u8]) -> bool
    ensures { result ≡ shapes.is_zero digits.now }
{
    digits == b"0".as_slice()
}

/// Whether a number is another integer that a type may be: at most 15 digits and no leading `0`.
pub fn is_positive(digits: &[u8]) -> bool
    ensures { result ≡ shapes.is_positive digits.now }
{
    has_lead(digits) && are_digits(digits) && digits.len() <= 15
}
