// Numbers among the words of a command line.
ghost use Rattle.std.specs.Prelude.{◌≡◌};
ghost use Rattle.std.specs.Char.{is_ascii_digit};
ghost use Rattle.std.specs.List.{list_all};
ghost use Rattle.ld_words.specs.Number.{is_number, number_of};

/// The greatest number of digits of a number.
const MOST_DIGITS: usize = 9;

// The value of a word that is a number: one to nine decimal digits.
pub fn read_number(word: &str) -> Option<u32>
    ensures { result ≡ number_of word.now }
{
    if !is_number(word.as_bytes()) {
        return None;
    }
    word.parse::<u32>().ok()
}

// Whether a text is one to nine decimal digits.
fn is_number(text: &[u8]) -> bool
    ensures { result ≡ is_number text.now }
{
    all_digits(text) && !text.is_empty() && text.len() <= MOST_DIGITS
}

// Whether each byte is a decimal digit.
fn all_digits(text: &[u8]) -> bool
    ensures { result ≡ list_all is_ascii_digit text.now }
{
    text.iter().all(|byte| byte.is_ascii_digit())
}
