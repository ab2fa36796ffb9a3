// The laws of schedules, over all timetables.
ghost use Rattle.std.specs.Prelude.{◌≡◌, ◌<◌, ◌≤◌, ◌↔◌, ℕ, List, Contains, IsPermutation, length, sum};
ghost use Rattle.std.specs.List.{flat_map, range_with_len};
ghost use Rattle.ld_stripe.specs.Striping.{IsStriping, owner_at, share_at};
ghost use Rattle.ld_arrival.specs.Limits.{IsWithinLimits, greatest_duration};
ghost use Rattle.ld_arrival.specs.Schedule.{owned_pairs, schedule};
ghost use Rattle.ld_arrival.specs.Timetable.{Timetable, IsPlanned, end_of, moment_of, planned, planned_count};

use ld_stripe::one_owner;

/// Moments don't fall: no planned arrival is due before an earlier one.
pub fn moments_rise()
    ensures { (timetable : Timetable) (j k : ℕ) → j ≤ k → IsPlanned timetable k →
        moment_of timetable j ≤ moment_of timetable k }
{}

/// The planned arrivals are the first ones, each once, in order.
pub fn planned_first()
    ensures first { (timetable : Timetable) → IsWithinLimits timetable →
        planned timetable ≡ range_with_len 0 (planned_count timetable) }
    ensures below { (timetable : Timetable) → IsWithinLimits timetable → (k : ℕ) →
        IsPlanned timetable k ↔ (k < planned_count timetable) }
{}

/// A timetable within the limits ends within 30 days.
pub fn ends_within()
    ensures { (timetable : Timetable) → IsWithinLimits timetable → end_of timetable ≤ greatest_duration }
{}

/// A pair is in the schedule exactly where its arrival is planned and its moment is that of the arrival.
pub fn in_schedule()
    ensures { (timetable : Timetable) → IsWithinLimits timetable → (k moment : ℕ) →
        Contains (schedule timetable) (k, moment) ↔ (IsPlanned timetable k × (moment ≡ moment_of timetable k)) }
{}

/// A position owns exactly those pairs of a list whose arrival goes to it.
pub fn in_owned()
    ensures { (owners : List ℕ) (j : ℕ) (pairs : List (ℕ × ℕ)) (pair : ℕ × ℕ) →
        Contains (owned_pairs owners j pairs) pair ↔ (Contains pairs pair × (owner_at owners pair.0 ≡ j)) }
{}

/// What all positions of a striping own is the whole list, each pair once.
pub fn owned_once()
    ensures { (weights owners : List ℕ) → IsStriping weights owners → 0 < sum weights → (pairs : List (ℕ × ℕ)) →
        IsPermutation pairs (flat_map (λ j. owned_pairs owners j pairs) (range_with_len 0 (length weights))) }
{
    one_owner();
}

/// Of a schedule a position owns as many pairs as it has a share of the planned arrivals.
pub fn owned_count()
    ensures { (timetable : Timetable) → IsWithinLimits timetable → (owners : List ℕ) (j : ℕ) →
        length (owned_pairs owners j (schedule timetable)) ≡ share_at owners j (planned_count timetable) }
{}
