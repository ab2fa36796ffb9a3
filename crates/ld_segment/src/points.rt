// Points that rise to 1 at most.
ghost use Rattle.std.specs.Prelude.{◌≡◌, ◌<◌, ◌↔◌, IfErr, IfNone, IfSome, IsTrue, OnOk};
ghost use Rattle.ld_segment.specs.Points.{IsBelow, Rise};
ghost use Rattle.ld_segment.specs.Refusal.{AreAtMostOne, EndsAt, RefusesPoints};

use crate::fault::SegmentFault;
use ld_num::Frac;
use std::cmp::Ordering;

// Whether points are at most 1 and rise.
pub fn check_points(points: &[Frac]) -> Result<(), SegmentFault>
    ensures at_most_one { OnOk result (AreAtMostOne points.now) }
    ensures rises { OnOk result (Rise points.now) }
    ensures refused { IfErr result (RefusesPoints points.now) }
{
    if let Some(place) = first_above_one(points) {
        return Err(SegmentFault::AboveOne(place));
    }
    if let Some(place) = first_not_above(points) {
        return Err(SegmentFault::NotLess(place));
    }
    Ok(())
}

// The place of the first point that is above 1.
fn first_above_one(points: &[Frac]) -> Option<usize>
    ensures some { IfSome result (EndsAt AreAtMostOne points.now) }
    ensures none { IfNone result (AreAtMostOne points.now) }
{
    for (place, point) in points.iter().enumerate() {
        if point.num > point.den {
            return Some(place);
        }
    }
    None
}

// The place of the first point that isn't above the one before it.
fn first_not_above(points: &[Frac]) -> Option<usize>
    ensures some { IfSome result (EndsAt Rise points.now) }
    ensures none { IfNone result (Rise points.now) }
{
    for place in 1..points.len() {
        if !is_below(&points[place - 1], &points[place]) {
            return Some(place);
        }
    }
    None
}

// Whether a point is below another.
fn is_below(left: &Frac, right: &Frac) -> bool
    ensures { IsTrue result ↔ IsBelow left.now right.now }
{
    left.compare(right) == Ordering::Less
}

// Whether two points are the same.
pub fn are_same(left: &Frac, right: &Frac) -> bool
    ensures { IsTrue result ↔ (left.now ≡ right.now) }
{
    left.num == right.num && left.den == right.den
}
