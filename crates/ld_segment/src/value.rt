// The values in a text.
ghost use Rattle.std.specs.Prelude.{◌≡◌, ◌≢◌, ◌==◌, ◌↔◌, [], ◌∷◌, ℕ, List, IfErr, IfOk, IsTrue, MatchOption, map, position};
ghost use Rattle.std.specs.Borrow.{Bor};
ghost use Rattle.std.specs.List.{after_first, before_first};
ghost use Rattle.ld_num.specs.Shape.{has};
ghost use Rattle.ld_segment.specs.Values.{colon, segment_values, sequence_values, ArePoints, IsPoint, IsSigned};
ghost use Rattle.ld_segment.specs.Refusal.{RefusesFirst, RefusesValue};
ghost use Rattle.ld_segment.specs.declared.fault.SegmentFault.{SegmentFault};

use crate::fault::SegmentFault;
use ld_num::Frac;
use std::alloc::{AllocError, Global};

// The point that a value is written for. It stands at this place.
pub fn read_value(value: &[u8], place: usize) -> Result<Frac, SegmentFault>
    ensures value { IfOk result (IsPoint value.now) }
    ensures refused { IfErr result (RefusesValue value.now place) }
{
    if is_signed(value) {
        return Err(SegmentFault::BelowZero(place));
    }
    match Frac::read(value) {
        Ok(point) => Ok(point),
        Err(fault) => Err(SegmentFault::Number { at: place, fault }),
    }
}

// Whether a value has a sign.
fn is_signed(value: &[u8]) -> bool
    ensures { IsTrue result ↔ IsSigned value.now }
{
    match value.first() {
        Some(byte) => *byte == b'-',
        None => false,
    }
}

// The points that the values are written for.
pub fn read_values(alloc: Global, values: &[&[u8]]) -> Result<Vec<Frac>, SegmentFault>
    ensures value { IfOk result (λ points. ArePoints (map (λ (v : Bor (List ℕ)). v.now) values.now) points.items) }
    ensures refused { IfErr result (λ f. f ≢ SegmentFault.Memory → RefusesFirst (map (λ (v : Bor (List ℕ)). v.now) values.now) f) }
{
    let mut points = Vec::new(alloc);
    for (place, value) in values.iter().enumerate() {
        let point = read_value(value, place)?;
        let Ok(()) = points.push(point) else {
            return Err(SegmentFault::Memory);
        };
    }
    Ok(points)
}

// The two values of a segment.
pub fn halves<'a>(text: &'a [u8]) -> (&'a [u8], &'a [u8])
    ensures { segment_values text.now ≡ result.0.now ∷ result.1.now ∷ [] }
{
    match around_colon(text) {
        Some(halves) => halves,
        None => (b"0", text),
    }
}

// What stands before and behind the first colon, if there is one.
fn around_colon(text: &[u8]) -> Option<(&[u8], &[u8])>
    ensures { MatchOption result
        (IsTrue (has colon text.now) → ⊥)
        (λ halves. IsTrue (has colon text.now)
        × (halves.0.now ≡ before_first (λ b. b == colon) text.now)
        × (halves.1.now ≡ after_first (λ b. b == colon) text.now)) }
{
    let place = first_colon(text)?;
    Some((&text[..place], &text[place + 1..]))
}

// The place of the first colon.
fn first_colon(text: &[u8]) -> Option<usize>
    ensures { result ≡ position (λ b. b == colon) text.now }
{
    text.iter().position(|byte| *byte == b':')
}

// The values of a sequence.
pub fn between_commas<'a>(alloc: Global, text: &'a [u8]) -> Result<Vec<&'a [u8]>, AllocError>
    ensures { IfOk result (λ values. map (λ (v : Bor (List ℕ)). v.now) values.items ≡ sequence_values text.now) }
{
    text.split(|byte| *byte == b',').collect(alloc)
}
