ghost use Rattle.std.specs.Prelude.{◌≡◌, ◌≤◌, ◌+◌, ◌-◌, ◌*◌, ◌^◌, ◌&&◌, length, nat_le};
ghost use Rattle.std.specs.Str.Parse.{digits_value, AllDigits};

use crate::fault::NumFault;
use crate::reading::{power_of_ten, value_of};
use crate::term::{around_point, unit_length};

/// The greatest number of digits before a point.
const MOST_WHOLE: usize = 16;

/// The greatest number of digits behind a point.
const MOST_PART: usize = 9;

/// How many billionths a whole has.
const BILLION: u128 = 1_000_000_000;

/// The greatest sum, 30 days, in billionths of a nanosecond.
const LONGEST: u128 = 2_592_000_000_000_000 * BILLION;

// What is known of the terms that were read so far: whether each unit is listed, whether no run of
// digits is too long, whether each is a whole number of nanoseconds, and their sum in billionths of
// a nanosecond, or the greatest u128 where that is less.
#[derive(Clone, Copy)]
pub struct Tally {
    pub known: bool,
    pub short: bool,
    pub whole: bool,
    pub total: u128,
}

impl Tally {
    ghost use Rattle.std.specs.Prelude.{◌++◌, [], ◌∷◌, ◌==◌, ◌%◌, ◌&&◌, ℕ, List, min};
    ghost use Rattle.ld_num.specs.Duration.{Answers, IsNumber, Term};
    ghost use Rattle.ld_num.specs.Tally.{Tallies};

    // Of no terms.
    pub fn new() -> Tally
        ensures { Tallies [] result }
    {
        Tally {
            known: true,
            short: true,
            whole: true,
            total: 0,
        }
    }

    // With one term more.
    pub fn with(self, number: &[u8], unit: &[u8]) -> Tally
        requires { IsNumber number.now }
        ensures { (ts : List Term) → Tallies ts self → Tallies (ts ++ record { number = number.now; unit = unit.now } ∷ []) result }
    {
        let Some(length) = unit_length(unit) else {
            return Tally {
                known: false,
                ..self
            };
        };
        let (whole, part) = around_point(number);
        if !are_short(whole, part) {
            return Tally {
                short: false,
                ..self
            };
        }
        self.with_value(billionths(whole, part).saturating_mul(length as u128))
    }

    // With so many billionths of a nanosecond more.
    fn with_value(self, value: u128) -> Tally
        ensures known { result.known ≡ self.known }
        ensures short { result.short ≡ self.short }
        ensures total { result.total ≡ min (self.total + value) (2 ^ 128 - 1) }
        ensures whole { result.whole ≡ (self.whole && (value % 10 ^ 9 == 0)) }
    {
        Tally {
            known: self.known,
            short: self.short,
            whole: self.whole && value % BILLION == 0,
            total: self.total.saturating_add(value),
        }
    }

    // How long the terms are in nanoseconds, or why they are refused.
    pub fn answer(self) -> Result<u64, NumFault>
        ensures { (ts : List Term) → Tallies ts self → Answers ts result }
    {
        if !self.known {
            return Err(NumFault::BadUnit);
        }
        if !self.short || self.total > LONGEST {
            return Err(NumFault::TooLarge);
        }
        if !self.whole {
            return Err(NumFault::NotWhole);
        }
        Ok((self.total / BILLION) as u64)
    }
}

// Whether no run of digits is too long.
fn are_short(whole: &[u8], part: &[u8]) -> bool
    ensures { result ≡ (nat_le (length whole.now) 16 && nat_le (length part.now) 9) }
{
    whole.len() <= MOST_WHOLE && part.len() <= MOST_PART
}

// A number in billionths, from what stands before its point and behind it.
fn billionths(whole: &[u8], part: &[u8]) -> u128
    requires whole_digits { AllDigits 10 whole.now }
    requires part_digits { AllDigits 10 part.now }
    requires whole_short { length whole.now ≤ 16 }
    requires part_short { length part.now ≤ 9 }
    ensures { result ≡ digits_value 10 whole.now * 10 ^ 9 + digits_value 10 part.now * 10 ^ (9 - length part.now) }
{
    let places = power_of_ten(MOST_PART - part.len());
    value_of(whole) as u128 * BILLION + value_of(part) as u128 * places as u128
}
