use crate::fault::SegmentFault;
use crate::filling::{fill_points, filled_len};
use crate::parts::{are_equal, first_gap, points_of};
use crate::points::check_points;
use crate::print::put_points;
use crate::segment::Segment;
use crate::value::{between_commas, read_values};
use crate::weights::weights_of;
use ld_num::Frac;
use std::alloc::Global;
use std::marker::Model;

/// The greatest number of points of a filled sequence, which has 100 segments then.
const MOST_POINTS: u64 = 101;

/// A list of rising points from 0 to 1, which cut a test into segments: two points or more. It is seen
/// as the list of its points. It has at most 100 segments, also when it is filled.
#[derive(Drop)]
pub struct Sequence {
    points: Vec<Frac>,
}

impl Model for Sequence {
    ghost use Rattle.std.specs.Prelude.{List};
    ghost use Rattle.ld_num.specs.declared.fraction.Frac.{Frac};
    ghost use Rattle.ld_segment.specs.Segments.{IsSequence};

    ghost Value = { List Frac };

    ghost view = { λ s. s.points.items };

    ghost invariant = { λ s. IsSequence s.points.items };
}

impl Sequence {
    ghost use Rattle.std.specs.Prelude.{◌≡◌, ◌≢◌, ◌<◌, ◌≤◌, ◌++◌, [], ◌∷◌, ℕ, All, List, Some, IfErr, IfOk, MatchOption, OnErr, OnOk, length, map, slice_get, sum};
    ghost use Rattle.std.specs.Int.{◌∣◌};
    ghost use Rattle.ld_num.specs.declared.fraction.Frac.{Frac};
    ghost use Rattle.ld_segment.specs.Points.{IsFilled};
    ghost use Rattle.ld_segment.specs.Segments.{filled, given_points, most_segments, segments_of, IsSequence};
    ghost use Rattle.ld_segment.specs.Weights.{greatest_period, HasWeights, IsPeriodRefusal};
    ghost use Rattle.ld_segment.specs.Values.{sequence_values, ArePoints};
    ghost use Rattle.ld_segment.specs.Refusal.{ends, IsPartsRefusal, IsSequenceRefusal, RefusesSequence};
    ghost use Rattle.ld_segment.specs.Printed.{sequence_text};
    ghost use Rattle.ld_segment.specs.declared.fault.SegmentFault.{SegmentFault};

    /// Reads points that are joined by commas. They are kept as written.
    ///
    /// The values are read from left to right, and the first that is refused decides: it begins with
    /// `-`, or else `Frac::read` refuses it. Then are refused, in this order, fewer than two points, a
    /// point above 1, one that isn't above the one before it, and points that have more than 100
    /// segments when they are filled.
    pub fn read(alloc: Global, text: &[u8]) -> Result<Sequence, SegmentFault>
        ensures value { IfOk result (ArePoints (sequence_values text.now)) }
        ensures sequence { IfOk result IsSequence }
        ensures accepted { IfOk result (λ _. (f : SegmentFault) → IsSequenceRefusal text.now f → ⊥) }
        ensures refused { IfErr result (λ f. f ≢ SegmentFault.Memory → IsSequenceRefusal text.now f) }
    {
        let values = between_commas(alloc, text)?;
        let points = read_values(alloc, &values)?;
        Sequence::of_points(points)
    }

    // The sequence of points.
    fn of_points(points: Vec<Frac>) -> Result<Sequence, SegmentFault>
        ensures value { IfOk result (λ s. s ≡ points.items) }
        ensures sequence { IfOk result IsSequence }
        ensures refused { IfErr result (RefusesSequence points.items) }
    {
        if points.len() < 2 {
            return Err(SegmentFault::FewPoints);
        }
        check_points(&points)?;
        if filled_len(&points) > MOST_POINTS {
            return Err(SegmentFault::TooMany);
        }
        Ok(Sequence { points })
    }

    /// The sequence that has these segments.
    ///
    /// Refused are, in this order, an empty list, a segment that doesn't begin where the one before it
    /// ends, and more than 100 segments when it is filled.
    pub fn of_segments(alloc: Global, parts: &[Segment]) -> Result<Sequence, SegmentFault>
        ensures value { IfOk result (λ s. segments_of s ≡ map ends parts.now) }
        ensures sequence { IfOk result IsSequence }
        ensures accepted { IfOk result (λ _. (f : SegmentFault) → IsPartsRefusal parts.now f → ⊥) }
        ensures refused { IfErr result (λ f. f ≢ SegmentFault.Memory → IsPartsRefusal parts.now f) }
    {
        let Some(first) = parts.first() else {
            return Err(SegmentFault::FewPoints);
        };
        if let Some(place) = first_gap(parts) {
            return Err(SegmentFault::Gap(place));
        }
        let points = points_of(alloc, first.from, parts)?;
        if filled_len(&points) > MOST_POINTS {
            return Err(SegmentFault::TooMany);
        }
        Ok(Sequence { points })
    }

    /// The sequence, or the segment where there is none, filled with one segment at each side where it
    /// doesn't begin at 0 or end at 1.
    ///
    /// Fails where there is no memory for it.
    pub fn fill(
        alloc: Global,
        segment: &Segment,
        sequence: Option<Sequence>,
    ) -> Result<Sequence, SegmentFault>
        ensures value { IfOk result (λ s. s ≡ filled (given_points segment.now.from segment.now.to sequence)) }
        ensures whole { IfOk result IsFilled }
        ensures sequence { IfOk result IsSequence }
        ensures memory { IfErr result (λ f. f ≡ SegmentFault.Memory) }
    {
        match sequence {
            Some(given) => given.filled(alloc),
            None => Sequence::round(alloc, segment),
        }
    }

    /// The position of a segment, counted from 0, or `None` where the sequence has none that is equal.
    pub fn position(&self, segment: &Segment) -> Option<usize>
        ensures { MatchOption result
            ((k : ℕ) → slice_get (segments_of self.now) k ≡ Some (ends segment.now) → ⊥)
            (λ k. slice_get (segments_of self.now) k ≡ Some (ends segment.now)) }
    {
        for position in 0..self.len() {
            if are_equal(&self.segment(position), segment) {
                return Some(position);
            }
        }
        None
    }

    /// The number of segments.
    pub fn len(&self) -> usize
        ensures count { result ≡ length (segments_of self.now) }
        ensures sequence { IsSequence self.now }
    {
        self.points.len() - 1
    }

    /// The segment at a position, counted from 0.
    pub fn segment(&self, position: usize) -> Segment
        requires { position < length (segments_of self.now) }
        ensures { slice_get (segments_of self.now) position ≡ Some (ends result) }
    {
        Segment {
            from: self.points[position],
            to: self.points[position + 1],
        }
    }

    /// A sequence of the same points.
    ///
    /// Fails where there is no memory for it.
    pub fn copy(&self, alloc: Global) -> Result<Sequence, SegmentFault>
        ensures value { IfOk result (λ s. s ≡ self.now) }
        ensures memory { IfErr result (λ f. f ≡ SegmentFault.Memory) }
    {
        let mut points = Vec::new(alloc);
        points.extend_from_slice(&self.points)?;
        Ok(Sequence { points })
    }

    // The sequence, filled.
    fn filled(&self, alloc: Global) -> Result<Sequence, SegmentFault>
        ensures value { IfOk result (λ s. s ≡ filled self.now) }
        ensures whole { IfOk result IsFilled }
        ensures sequence { IfOk result IsSequence }
        ensures memory { IfErr result (λ f. f ≡ SegmentFault.Memory) }
    {
        let points = fill_points(alloc, &self.points)?;
        Ok(Sequence { points })
    }

    // The segment, filled.
    fn round(alloc: Global, segment: &Segment) -> Result<Sequence, SegmentFault>
        ensures value { IfOk result (λ s. s ≡ filled (segment.now.from ∷ segment.now.to ∷ [])) }
        ensures whole { IfOk result IsFilled }
        ensures sequence { IfOk result IsSequence }
        ensures memory { IfErr result (λ f. f ≡ SegmentFault.Memory) }
    {
        let points = fill_points(alloc, &[segment.from, segment.to])?;
        Ok(Sequence { points })
    }

    /// The weights of the positions of a filled sequence, in order: the length of each segment, times
    /// the period. The period is the least common multiple of the denominators of the lengths. It is
    /// the sum of the weights, and no number but 1 divides all of them.
    ///
    /// Refused is a period of more than 100,000, with its number, or 2^64 - 1 where it is more than
    /// that. The only other error is want of memory.
    pub fn weights(&self, alloc: Global) -> Result<Vec<u64>, SegmentFault>
        requires filled { IsFilled self.now }
        ensures weights { IfOk result (λ weights. HasWeights self.now (sum weights.items) weights.items) }
        ensures small { IfOk result (λ weights. sum weights.items ≤ greatest_period) }
        ensures positions { IfOk result (λ weights. length weights.items ≡ length (segments_of self.now)) }
        ensures few { IfOk result (λ weights. length weights.items ≤ most_segments) }
        ensures weighted { IfOk result (λ weights. All (λ w. 0 < w) weights.items) }
        ensures lowest { IfOk result (λ weights. (d : ℕ) → All (λ w. d ∣ w) weights.items → d ≡ 1) }
        ensures accepted { IfOk result (λ _. (f : SegmentFault) → IsPeriodRefusal self.now f → ⊥) }
        ensures refused { IfErr result (λ f. f ≢ SegmentFault.Memory → IsPeriodRefusal self.now f) }
    {
        weights_of(alloc, &self.points)
    }

    /// Appends the points, each `0`, `1` or `a/b` in lowest terms, joined by commas.
    ///
    /// Fails where the allocator gives no memory for it; `into` is then as before.
    pub fn print(&self, into: &mut Vec<u8>) -> Result<(), SegmentFault>
        ensures ok { OnOk result (into.new.items ≡ into.old.items ++ sequence_text self.now) }
        ensures err { OnErr result (into.new.items ≡ into.old.items) }
        ensures only_memory { IfErr result (λ f. f ≡ SegmentFault.Memory) }
    {
        let before = into.len();
        if put_points(&self.points, into).is_err() {
            into.truncate(before);
            return Err(SegmentFault::Memory);
        }
        Ok(())
    }
}
