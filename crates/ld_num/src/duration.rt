// Durations.
ghost use Rattle.std.specs.Prelude.{◌≡◌, ◌++◌, ℕ, List, OnOk, OnErr, IfOk, IfErr, MatchOption, codes, decimal};
ghost use Rattle.ld_num.specs.Duration.{AreTerms, HaveLength, IsDuration, IsDurationRefusal, Term};
ghost use Rattle.ld_num.specs.Tally.{Tallies};
ghost use Rattle.ld_num.specs.declared.fault.NumFault.{NumFault};

use crate::fault::NumFault;
use crate::tally::Tally;
use crate::term::{first_term, is_number};
use itoa::Buffer;

/// Reads a duration, in nanoseconds.
///
/// It is one term or more, without space, or a number alone, which counts milliseconds. A term is a
/// number and a unit: `ns`, `us` (also with U+00B5 or U+03BC for its first letter), `ms`, `s`, `m`,
/// `h` or `d`, which has 24 hours. A number is digits, or digits with one point before, among or
/// behind them.
///
/// Refused are, in this order, an empty text, one that isn't written so, a unit that isn't listed,
/// more than 16 digits before a point or 9 behind it or a sum of more than 30 days, and a term that
/// is no whole number of nanoseconds.
pub fn read_duration(text: &[u8]) -> Result<u64, NumFault>
    ensures value { IfOk result (λ n. (ts : List Term) × IsDuration text.now ts × HaveLength ts n) }
    ensures accepted { IfOk result (λ _. (f : NumFault) → IsDurationRefusal text.now f → ⊥) }
    ensures refused { IfErr result (λ f. IsDurationRefusal text.now f) }
{
    if text.is_empty() {
        return Err(NumFault::Empty);
    }
    let Some(tally) = tally_of(text) else {
        return Err(NumFault::BadDigit);
    };
    tally.answer()
}

// What is known of the terms of a text, if it is a duration.
fn tally_of(text: &[u8]) -> Option<Tally>
    ensures { MatchOption result
        ((ts : List Term) → IsDuration text.now ts → ⊥)
        (λ tally. (ts : List Term) × IsDuration text.now ts × Tallies ts tally) }
{
    if is_number(text) {
        return Some(Tally::new().with(text, b"ms"));
    }
    tally_of_terms(text)
}

// What is known of the terms of a text, if it is one term or more.
fn tally_of_terms(text: &[u8]) -> Option<Tally>
    ensures { MatchOption result
        ((ts : List Term) → AreTerms text.now ts → ⊥)
        (λ tally. (ts : List Term) × AreTerms text.now ts × Tallies ts tally) }
{
    if text.is_empty() {
        return None;
    }
    let mut tally = Tally::new();
    let mut rest = text;
    while !rest.is_empty() {
        let (number, unit, behind) = first_term(rest);
        if !is_number(number) || unit.is_empty() {
            return None;
        }
        tally = tally.with(number, unit);
        rest = behind;
    }
    Some(tally)
}

/// Appends a duration in nanoseconds: the number, without leading zeros, and `ns`.
///
/// Fails where the allocator gives no memory for it; `into` is then as before.
pub fn print_duration(moment: u64, into: &mut Vec<u8>) -> Result<(), NumFault>
    ensures ok { OnOk result (into.new.items ≡ into.old.items ++ decimal moment ++ codes "ns") }
    ensures err { OnErr result (into.new.items ≡ into.old.items) }
    ensures only_memory { IfErr result (λ f. f ≡ NumFault.Memory) }
{
    let before = into.len();
    let mut buffer = Buffer::new();
    into.extend_from_slice(buffer.format(moment).as_bytes())?;
    if into.extend_from_slice(b"ns").is_err() {
        into.truncate(before);
        return Err(NumFault::Memory);
    }
    Ok(())
}
