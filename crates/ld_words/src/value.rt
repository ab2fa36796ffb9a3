// The values that words are, by their kinds.
ghost use Rattle.std.specs.Prelude.{◌≡◌, ◌↔◌, ℕ, IsTrue, MatchOption, map, string_bytes};
ghost use Rattle.ld_words.specs.OptionWords.{IsNoValueAt, IsValueAt};
ghost use Rattle.ld_words.specs.Values.{is_value, IsNumberIn, IsSpan, IsValueOf};

use crate::number::read_number;
use crate::weights::are_weights;
use ld_num::read_duration;

/// The greatest number of indices that are looked at.
const MOST_INDICES: u32 = 1_000_000;

/// The least number of entries that a journal may have.
const LEAST_ENTRIES: u32 = 10;
/// The greatest number of entries that a journal may have.
const MOST_ENTRIES: u32 = 1_000_000;

/// The kind of value that a word is, at its place or behind an option's name.
#[derive(Clone, Copy)]
pub enum ValueKind {
    /// Any value.
    Plain,
    /// A number.
    Number,
    /// A number of indices, at most 1,000,000.
    Count,
    /// A duration of at least one nanosecond.
    Span,
    /// A number of entries.
    Entries,
    /// Weights: an empty word, or numbers joined by commas.
    Weights,
    /// None: the name stands alone.
    Flag,
}

// The value of a kind that the word at a place is, if it is there and is one.
pub fn value_at<'a>(kind: ValueKind, words: &'a [String], place: usize) -> Option<&'a str>
    ensures { MatchOption result
        (IsNoValueAt kind (map string_bytes words.now) place)
        (λ value. IsValueAt kind (map string_bytes words.now) place value.now) }
{
    let word = words.get(place)?.as_str();
    if is_value_of(kind, word) {
        Some(word)
    } else {
        None
    }
}

// Whether a text is a value of this kind.
pub fn is_value_of(kind: ValueKind, text: &str) -> bool
    ensures { IsTrue result ↔ IsValueOf kind text.now }
{
    match kind {
        ValueKind::Plain => is_value(text.as_bytes()),
        ValueKind::Number => read_number(text).is_some(),
        ValueKind::Count => read_number_in(text, 0, MOST_INDICES).is_some(),
        ValueKind::Span => read_span(text).is_some(),
        ValueKind::Entries => read_number_in(text, LEAST_ENTRIES, MOST_ENTRIES).is_some(),
        ValueKind::Weights => are_weights(text),
        ValueKind::Flag => false,
    }
}

// Whether a text is a value: a byte or more, of which the first is no dash.
fn is_value(text: &[u8]) -> bool
    ensures { result ≡ is_value text.now }
{
    match text.first() {
        Some(byte) => *byte != b'-',
        None => false,
    }
}

// The nanoseconds of a text that is a duration of at least one.
pub fn read_span(text: &str) -> Option<u64>
    ensures { MatchOption result ((n : ℕ) → IsSpan text.now n → ⊥) (IsSpan text.now) }
{
    match read_duration(text.as_bytes()) {
        Ok(0) => None,
        Ok(nanoseconds) => Some(nanoseconds),
        Err(_) => None,
    }
}

// The number that a text is, if it is one from `least` to `most`.
fn read_number_in(text: &str, least: u32, most: u32) -> Option<u32>
    ensures { MatchOption result
        ((n : ℕ) → IsNumberIn least most text.now n → ⊥)
        (IsNumberIn least most text.now) }
{
    let number = read_number(text)?;
    if least <= number && number <= most {
        Some(number)
    } else {
        None
    }
}
