ghost use Rattle.std.specs.Prelude.{◌≡◌, option_map};
ghost use Rattle.tb_words.specs.Answers.{Gives};
ghost use Rattle.tb_words.specs.Numbers.{begins_well, is_number, number_in, optional_number};
ghost use Rattle.std.specs.List.{list_all};
ghost use Rattle.std.specs.Char.{is_ascii_digit};

use crate::WordsFault;
use std::alloc::Global;
use tb_text::{Name, UsageFault};

/// The value of an option that takes a number from `least` to `most`, where it was given.
pub fn optional_number(
    alloc: Global,
    name: &str,
    least: u32,
    most: u32,
    text: Option<&str>,
) -> Result<Option<u32>, WordsFault>
    ensures { Gives (optional_number name.now least most (option_map (λ text. text.now) text.entry)) result }
{
    match text {
        Some(text) => match number_in(least, most, text) {
            Some(number) => Ok(Some(number)),
            None => {
                let name = Name::copy_of(alloc, name)?;
                Err(WordsFault::Usage(UsageFault::BadNumber(name)))
            }
        },
        None => Ok(None),
    }
}

fn number_in(least: u32, most: u32, text: &str) -> Option<u32>
    ensures { result ≡ number_in least most text.now }
{
    if is_number(text.as_bytes()) {
        match text.parse::<u32>() {
            Ok(number) if least <= number && number <= most => Some(number),
            _ => None,
        }
    } else {
        None
    }
}

/// `0`, or decimal digits without a leading `0`.
fn is_number(text: &[u8]) -> bool
    ensures { result ≡ is_number text.now }
{
    begins_well(text) && is_digits(text)
}

fn is_digits(text: &[u8]) -> bool
    ensures { result ≡ list_all is_ascii_digit text.now }
{
    text.iter().all(|digit| digit.is_ascii_digit())
}

fn begins_well(text: &[u8]) -> bool
    ensures { result ≡ begins_well text.now }
{
    match text {
        [] => false,
        [_] => true,
        [digit, _, ..] => *digit != b'0',
    }
}
