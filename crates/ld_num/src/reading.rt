// How a fraction is read.
ghost use Rattle.std.specs.Prelude.{
  ◌≡◌,
  ◌<◌,
  ◌≤◌,
  ◌^◌,
  ◌==◌,
  ◌-◌,
  ◌↔◌,
  IsTrue,
  MatchOption,
  length,
  position,
  take,
};
ghost use Rattle.std.specs.Char.{is_ascii_digit};
ghost use Rattle.std.specs.List.{after_first, before_first, list_all};
ghost use Rattle.std.specs.Str.Parse.{digits_value, AllDigits, IsNumeral};
ghost use Rattle.ld_num.specs.Written.{Decimal, Quotient, Whole};
ghost use Rattle.ld_num.specs.Shape.{amount_shape, has, has_percent, shape_of, with_percent, Reads};

use crate::fault::NumFault;
use crate::fraction::Frac;

/// The greatest number of digits of a run.
const MOST_DIGITS: usize = 9;

// What is read of a text of whatever shape.
pub fn read_text(text: &[u8]) -> Result<Frac, NumFault>
    ensures { Reads (shape_of text.now) result }
{
    if let Some((over, under)) = cut(text, b'/') {
        return read_quotient(over, under);
    }
    match without_percent(text) {
        Some(rest) => read_amount(rest, true),
        None => read_amount(text, false),
    }
}

// What is read of an amount, which a percent sign may follow.
fn read_amount(text: &[u8], percent: bool) -> Result<Frac, NumFault>
    ensures { Reads (with_percent percent (amount_shape text.now)) result }
{
    match cut(text, b'.') {
        Some((whole, part)) => read_decimal(whole, part, percent),
        None => read_whole(text, percent),
    }
}

// What is read of two texts with a stroke between them.
fn read_quotient(over: &[u8], under: &[u8]) -> Result<Frac, NumFault>
    ensures { Reads (Quotient over.now under.now) result }
{
    if !is_run(over) || !is_run(under) {
        return Err(NumFault::BadDigit);
    }
    if over.len() > MOST_DIGITS || under.len() > MOST_DIGITS {
        return Err(NumFault::TooLarge);
    }
    let den = value_of(under);
    if den == 0 {
        return Err(NumFault::ZeroDenominator);
    }
    Ok(Frac::reduced(value_of(over), den))
}

// What is read of a text without a point.
fn read_whole(digits: &[u8], percent: bool) -> Result<Frac, NumFault>
    ensures { Reads (with_percent percent (Whole digits.now)) result }
{
    if !is_run(digits) {
        return Err(NumFault::BadDigit);
    }
    if digits.len() > MOST_DIGITS {
        return Err(NumFault::TooLarge);
    }
    let den = if percent { 100 } else { 1 };
    Ok(Frac::reduced(value_of(digits), den))
}

// What is read of two texts with a point between them.
fn read_decimal(whole: &[u8], part: &[u8], percent: bool) -> Result<Frac, NumFault>
    ensures { Reads (with_percent percent (Decimal whole.now part.now)) result }
{
    if !is_run(whole) || !is_run(part) {
        return Err(NumFault::BadDigit);
    }
    if whole.len() > MOST_DIGITS || part.len() > MOST_DIGITS {
        return Err(NumFault::TooLarge);
    }
    let places = power_of_ten(part.len());
    let num = value_of(whole) * places + value_of(part);
    let den = if percent { places * 100 } else { places };
    Ok(Frac::reduced(num, den))
}

// What stands before and behind the first of a byte, if it is there.
pub(crate) fn cut(text: &[u8], mark: u8) -> Option<(&[u8], &[u8])>
    ensures { MatchOption result
        (IsTrue (has mark text.now) → ⊥)
        (λ parts. IsTrue (has mark text.now)
        × (parts.0.now ≡ before_first (λ b. b == mark) text.now)
        × (parts.1.now ≡ after_first (λ b. b == mark) text.now)) }
{
    let place = place_of(text, mark)?;
    Some((&text[..place], &text[place + 1..]))
}

// The first place of a byte.
fn place_of(text: &[u8], mark: u8) -> Option<usize>
    ensures { result ≡ position (λ b. b == mark) text.now }
{
    text.iter().position(|byte| *byte == mark)
}

// What stands before a percent sign at the end, if it is there.
fn without_percent(text: &[u8]) -> Option<&[u8]>
    ensures { MatchOption result
        (IsTrue (has_percent text.now) → ⊥)
        (λ rest. IsTrue (has_percent text.now) × (rest.now ≡ take (length text.now - 1) text.now)) }
{
    let end = text.len().checked_sub(1)?;
    if text[end] != b'%' {
        return None;
    }
    Some(&text[..end])
}

// Whether a text is one digit or more, and nothing else.
fn is_run(text: &[u8]) -> bool
    ensures { IsTrue result ↔ IsNumeral 10 text.now }
{
    !text.is_empty() && all_digits(text)
}

// Whether each byte is a digit.
pub(crate) fn all_digits(text: &[u8]) -> bool
    ensures { result ≡ list_all is_ascii_digit text.now }
{
    text.iter().all(|byte| byte.is_ascii_digit())
}

// The value of at most 16 digits.
pub(crate) fn value_of(digits: &[u8]) -> u64
    requires digits { AllDigits 10 digits.now }
    requires short { length digits.now ≤ 16 }
    ensures value { result ≡ digits_value 10 digits.now }
    ensures small { result < 10 ^ 16 }
    ensures smaller { length digits.now ≤ 9 → result < 10 ^ 9 }
{
    let mut value = 0;
    for digit in digits {
        value = value * 10 + (digit - b'0') as u64;
    }
    value
}

// Ten to this power.
pub(crate) fn power_of_ten(exponent: usize) -> u64
    requires { exponent ≤ 9 }
    ensures power { result ≡ 10 ^ exponent }
    ensures positive { 0 < result }
    ensures small { result ≤ 10 ^ 9 }
{
    10u64.pow(exponent as u32)
}
