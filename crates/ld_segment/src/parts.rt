// Segments that are put together.
ghost use Rattle.std.specs.Prelude.{◌≡◌, ◌↔◌, ◌∷◌, IfNone, IfOk, IfSome, IsTrue, map};
ghost use Rattle.ld_segment.specs.Refusal.{ends, EndsAt, Meet};
ghost use Rattle.ld_segment.specs.declared.segment.Segment.{Segment};

use crate::points::are_same;
use crate::segment::Segment;
use ld_num::Frac;
use std::alloc::{AllocError, Global};

// The place of the first segment that doesn't begin where the one before it ends.
pub fn first_gap(parts: &[Segment]) -> Option<usize>
    ensures some { IfSome result (EndsAt Meet parts.now) }
    ensures none { IfNone result (Meet parts.now) }
{
    for place in 1..parts.len() {
        if !meet(&parts[place - 1], &parts[place]) {
            return Some(place);
        }
    }
    None
}

// Whether a segment begins where the one before it ends.
fn meet(before: &Segment, behind: &Segment) -> bool
    ensures { IsTrue result ↔ (before.now.to ≡ behind.now.from) }
{
    are_same(&before.to, &behind.from)
}

// Whether two segments begin and end at the same points.
pub fn are_equal(left: &Segment, right: &Segment) -> bool
    ensures { IsTrue result ↔ (ends left.now ≡ ends right.now) }
{
    are_same(&left.from, &right.from) && are_same(&left.to, &right.to)
}

// A point, and the ends of the segments behind it.
pub fn points_of(alloc: Global, first: Frac, parts: &[Segment]) -> Result<Vec<Frac>, AllocError>
    ensures { IfOk result (λ points. points.items ≡ first ∷ map (λ (part : Segment). part.to) parts.now) }
{
    let mut points = Vec::new(alloc);
    points.push(first)?;
    for part in parts {
        points.push(part.to)?;
    }
    Ok(points)
}
