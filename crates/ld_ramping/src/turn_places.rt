// Where a reading stands among the intervals of one slot.
ghost use Rattle.std.specs.Prelude.{◌≡◌, find};
ghost use Rattle.ld_machine.specs.Together.{least_above};
ghost use Rattle.ld_ramping.specs.Rising.{AreRising};
ghost use Rattle.ld_ramping.specs.Standing.{IsPlace, lies_in, slot_turns};

use crate::interval::Interval;

/// The interval that the reading lies in, of a slot of a scenario with this begin. None exactly where it lies in none.
pub fn current(begin: u64, intervals: &[Interval], reading: u64) -> Option<Interval>
    requires { AreRising intervals.now }
    ensures { result ≡ find (lies_in begin reading) intervals.now }
{
    let interval = *intervals.get(place(begin, intervals, reading))?;
    if begin.saturating_add(interval.on) <= reading {
        Some(interval)
    } else {
        None
    }
}

/// The least moment above the reading at which one of the intervals begins or ends, of a slot of a scenario with this
/// begin. None exactly where there is none.
pub fn turn_above(begin: u64, intervals: &[Interval], reading: u64) -> Option<u64>
    requires { AreRising intervals.now }
    ensures { result ≡ least_above reading (slot_turns begin intervals.now) }
{
    let interval = *intervals.get(place(begin, intervals, reading))?;
    let on = begin.saturating_add(interval.on);
    if reading < on {
        Some(on)
    } else {
        Some(begin.saturating_add(interval.off))
    }
}

// How many of the intervals are over at the reading.
fn place(begin: u64, intervals: &[Interval], reading: u64) -> usize
    ensures { IsPlace begin reading intervals.now result }
{
    let mut at = 0;
    'intervals: while at < intervals.len() && begin.saturating_add(intervals[at].off) <= reading {
        at += 1;
    }
    at
}
