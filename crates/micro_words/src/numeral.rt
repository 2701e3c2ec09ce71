//! Numbers as the words write them: in decimal digits without a leading zero.
ghost use Rattle.std.specs.Prelude.{◌≡◌};
ghost use Rattle.micro_words.specs.Numerals.{number_up_to as number_of_text, if_up_to};

/// The least first digit: a numeral has no leading zero.
const LEAST_FIRST: u8 = b'1';

/// The number from 1 to `most` that the text writes.
pub(crate) fn number_up_to(most: u32, text: &str) -> Option<u32>
    ensures { result ≡ number_of_text most text.now }
{
    let first = *text.as_bytes().first()?;
    if first < LEAST_FIRST {
        return None;
    }
    match text.parse::<u32>() {
        Ok(number) => up_to(most, number),
        Err(_) => None,
    }
}

/// The number, if it is at most `most`.
fn up_to(most: u32, number: u32) -> Option<u32>
    ensures { result ≡ if_up_to most number }
{
    if number <= most {
        return Some(number);
    }
    None
}
