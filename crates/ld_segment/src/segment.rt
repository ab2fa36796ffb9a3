ghost use Rattle.ld_segment.specs.Points.{IsAtMostOne, IsBelow};

use crate::fault::SegmentFault;
use crate::points::check_points;
use crate::print::put_segment;
use crate::value::{halves, read_value};
use ld_num::Frac;

/// The part of a test from one point, which doesn't belong to it, to another, which does:
/// `0 <= from < to <= 1`.
#[derive(Clone, Copy, PartialEq, Eq)]
pub struct Segment {
    /// The point behind which it begins.
    pub from: Frac,
    /// The point at which it ends.
    pub to: Frac,
    ghost rises: { IsBelow from to },
    ghost within: { IsAtMostOne to },
}

impl Segment {
    ghost use Rattle.std.specs.Prelude.{◌≡◌, ◌++◌, [], ◌∷◌, ℕ, List, IfOk, IfErr, OnOk, OnErr};
    ghost use Rattle.ld_segment.specs.Values.{ArePoints, segment_values};
    ghost use Rattle.ld_segment.specs.Refusal.{IsSegmentRefusal, RefusesPoints};
    ghost use Rattle.ld_segment.specs.Printed.{segment_text};
    ghost use Rattle.ld_segment.specs.declared.fault.SegmentFault.{SegmentFault};

    /// Reads a segment `a:b`, which is cut at its first colon, or `x`, which is short for `0:x`. A
    /// value is a fraction `1/3`, a decimal `0.25` or a percentage `25%`.
    ///
    /// The values are read from left to right, and the first that is refused decides: it begins with
    /// `-`, or else `Frac::read` refuses it. Then a value above 1 is refused, and then a segment that
    /// doesn't end above the point where it begins.
    pub fn read(text: &[u8]) -> Result<Segment, SegmentFault>
        ensures value { IfOk result (λ s. ArePoints (segment_values text.now) (s.from ∷ s.to ∷ [])) }
        ensures accepted { IfOk result (λ _. (f : SegmentFault) → IsSegmentRefusal text.now f → ⊥) }
        ensures refused { IfErr result (λ f. IsSegmentRefusal text.now f) }
    {
        let (from, to) = halves(text);
        let from = read_value(from, 0)?;
        let to = read_value(to, 1)?;
        check_points(&[from, to])?;
        Ok(Segment { from, to })
    }

    /// Appends the segment: its two points, each `0`, `1` or `a/b` in lowest terms, with a colon
    /// between them.
    ///
    /// Fails where the allocator gives no memory for it; `into` is then as before.
    pub fn print(&self, into: &mut Vec<u8>) -> Result<(), SegmentFault>
        ensures ok { OnOk result (into.new.items ≡ into.old.items ++ segment_text self.now.from self.now.to) }
        ensures err { OnErr result (into.new.items ≡ into.old.items) }
        ensures only_memory { IfErr result (λ f. f ≡ SegmentFault.Memory) }
    {
        let before = into.len();
        if put_segment(&self.from, &self.to, into).is_err() {
            into.truncate(before);
            return Err(SegmentFault::Memory);
        }
        Ok(())
    }
}
