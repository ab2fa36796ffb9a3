ghost use Rattle.std.specs.Prelude.{◌≡◌};

use std::marker::Model;

/// A time in which a slot is on, from `on` up to and without `off`. Both are in nanoseconds from the
/// scenario's begin.
#[derive(Clone, Copy, PartialEq, Eq)]
pub struct Interval {
    /// The moment from which the slot is on.
    pub on: u64,
    /// The moment from which it is off again.
    pub off: u64,
}

/// The intervals of a slot, in order.
#[derive(Drop)]
pub struct Intervals {
    intervals: Vec<Interval>,
}

impl Model for Intervals {
    ghost use Rattle.std.specs.Prelude.{List};
    ghost use Rattle.ld_ramping.specs.declared.interval.Interval.{Interval};

    ghost Value = { List Interval };

    ghost view = { λ s. s.intervals.items };
}

impl Intervals {
    /// These intervals, in order. Takes no memory.
    pub fn of(intervals: Vec<Interval>) -> Intervals
        ensures { result ≡ intervals.items }
    {
        Intervals { intervals }
    }

    /// The intervals, lent. Takes no memory.
    pub fn as_slice(&self) -> &[Interval]
        ensures { result.now ≡ self.now }
    {
        self.intervals.as_slice()
    }
}
