// Lengths as texts.
ghost use Rattle.std.specs.Prelude.{◌≡◌, ◌≤◌, length, IsTrue};
ghost use Rattle.std.specs.Char.{is_ascii_digit};
ghost use Rattle.std.specs.List.{list_all};
ghost use Rattle.std.specs.Str.Parse.{digits_value};
ghost use Rattle.ld_wire.specs.Head.{is_length, is_length_of};

const MOST_DIGITS: usize = 19;

// Whether a text is 1 to 19 digits.
pub fn is_length(value: &[u8]) -> bool
    ensures { result ≡ is_length value.now }
{
    !value.is_empty() && value.len() <= MOST_DIGITS && all_digits(value)
}

// Whether it is 1 to 19 digits of this number.
pub fn is_length_of(value: &[u8], number: u64) -> bool
    ensures { result ≡ is_length_of number value.now }
{
    is_length(value) && value_of(value) == number
}

// The value of 1 to 19 digits.
pub fn value_of(digits: &[u8]) -> u64
    requires { IsTrue (is_length digits.now) }
    ensures { result ≡ digits_value 10 digits.now }
{
    let mut value = 0;
    for digit in digits {
        value = value * 10 + (digit - b'0') as u64;
    }
    value
}

// Whether each byte is a digit.
fn all_digits(text: &[u8]) -> bool
    ensures { result ≡ list_all is_ascii_digit text.now }
{
    text.iter().all(|byte| byte.is_ascii_digit())
}
