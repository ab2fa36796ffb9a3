// The terms of a duration, as they are written.
ghost use Rattle.std.specs.Prelude.{◌≡◌, ◌≤◌, ◌↔◌, ◌&&◌, IsTrue, length, not, position};
ghost use Rattle.std.specs.Char.{is_ascii_digit};
ghost use Rattle.std.specs.List.{list_all};
ghost use Rattle.std.specs.Str.{bytes_eq};
ghost use Rattle.ld_num.specs.Duration.{is_number_byte, part_of, unit_length, whole_of, IsNumber};
ghost use Rattle.ld_num.specs.Tally.{behind_term, first_term, number_end, unit_end};

use crate::reading::{all_digits, cut};

// The number and the unit in front of a text, and what stands behind them.
pub fn first_term(text: &[u8]) -> (&[u8], &[u8], &[u8])
    ensures number { result.0.now ≡ (first_term text.now).number }
    ensures unit { result.1.now ≡ (first_term text.now).unit }
    ensures behind { result.2.now ≡ behind_term text.now }
{
    let (number, rest) = text.split_at(number_end(text));
    let (unit, behind) = rest.split_at(unit_end(rest));
    (number, unit, behind)
}

// Whether a text is digits, or digits with one point before, among or behind them.
pub fn is_number(text: &[u8]) -> bool
    ensures { IsTrue result ↔ IsNumber text.now }
{
    let (whole, part) = around_point(text);
    if whole.is_empty() && part.is_empty() {
        return false;
    }
    are_digits(whole, part)
}

// Whether each byte of both is a digit.
fn are_digits(whole: &[u8], part: &[u8]) -> bool
    ensures { result ≡ (list_all is_ascii_digit whole.now && list_all is_ascii_digit part.now) }
{
    all_digits(whole) && all_digits(part)
}

// What stands before the first point and behind it.
pub fn around_point(number: &[u8]) -> (&[u8], &[u8])
    ensures whole { result.0.now ≡ whole_of number.now }
    ensures part { result.1.now ≡ part_of number.now }
{
    match cut(number, b'.') {
        Some(parts) => parts,
        None => number.split_at(number.len()),
    }
}

// How many bytes from the front on are of a number.
fn number_end(text: &[u8]) -> usize
    ensures end { result ≡ number_end text.now }
    ensures within { result ≤ length text.now }
{
    first_other(text).unwrap_or(text.len())
}

// How many bytes from the front on are of no number.
fn unit_end(text: &[u8]) -> usize
    ensures end { result ≡ unit_end text.now }
    ensures within { result ≤ length text.now }
{
    first_of_number(text).unwrap_or(text.len())
}

// The first place of a byte that is of no number.
fn first_other(text: &[u8]) -> Option<usize>
    ensures { result ≡ position (λ b. not (is_number_byte b)) text.now }
{
    text.iter().position(|byte| !is_number_byte(*byte))
}

// The first place of a byte that is of a number.
fn first_of_number(text: &[u8]) -> Option<usize>
    ensures { result ≡ position is_number_byte text.now }
{
    text.iter().position(|byte| is_number_byte(*byte))
}

// Whether a byte is a digit or a point.
fn is_number_byte(byte: u8) -> bool
    ensures { result ≡ is_number_byte byte }
{
    byte.is_ascii_digit() || byte == b'.'
}

// The length of a unit in nanoseconds, if it is listed.
pub fn unit_length(unit: &[u8]) -> Option<u64>
    ensures { result ≡ unit_length unit.now }
{
    if is_text(unit, "ns") {
        Some(1)
    } else if is_text(unit, "us") || is_text(unit, "\u{b5}s") || is_text(unit, "\u{3bc}s") {
        Some(1_000)
    } else if is_text(unit, "ms") {
        Some(1_000_000)
    } else if is_text(unit, "s") {
        Some(1_000_000_000)
    } else if is_text(unit, "m") {
        Some(60_000_000_000)
    } else if is_text(unit, "h") {
        Some(3_600_000_000_000)
    } else if is_text(unit, "d") {
        Some(86_400_000_000_000)
    } else {
        None
    }
}

// Whether the bytes are those of a text.
fn is_text(bytes: &[u8], text: &str) -> bool
    ensures { result ≡ bytes_eq bytes.now text.now }
{
    bytes == text.as_bytes()
}
