ghost use Rattle.std.specs.Prelude.{◌≡◌, ℕ, option_to_list, ◌∷◌, ◌++◌, [], filter, nat_lt};
ghost use Rattle.ld_course.specs.Course.{Follows, IsOpening, course_of, own_moments};
ghost use Rattle.ld_machine.specs.Plan.{hard_moment};
ghost use Rattle.ld_machine.specs.Scenario.{Scenario, has_begun, has_ended, is_live, may_stop, runs};
ghost use Rattle.ld_machine.specs.Together.{least_above};
ghost use Rattle.ld_machine.specs.Told.{level_number};
ghost use Rattle.ld_machine.specs.Wait.{least_of, scenario_moments};

use crate::level::Level;
use ld_base::{Act, Command};

/// When a scenario runs, and how it goes on. Moments, times and readings are in nanoseconds, moments and readings from the
/// run's start. Each call says what it answers of each scenario of the machine that has this course.
#[derive(Clone, Copy, PartialEq, Eq)]
pub struct Course {
    /// When the scenario begins.
    pub begin: u64,
    /// When it ends.
    pub end: u64,
    /// How long its iterations may last behind its end, and behind a commanded stop.
    pub grace: u64,
    /// Its level.
    pub level: Level,
    /// Whether it was closed.
    pub closed: bool,
}

impl Course {
    /// The course of a scenario at its opening.
    pub fn opening(begin: u64, end: u64, grace: u64) -> Course
        ensures { IsOpening begin end grace result }
    {
        Course {
            begin,
            end,
            grace,
            level: Level::Runs,
            closed: false,
        }
    }

    /// Whether the scenario is open, at level 0.
    pub fn runs(&self) -> bool
        ensures { (s : Scenario) → self.now ≡ course_of s → result ≡ runs s }
    {
        !self.closed && self.level == Level::Runs
    }

    /// Whether the reading is at its begin or later.
    pub fn has_begun(&self, reading: u64) -> bool
        ensures { (s : Scenario) → self.now ≡ course_of s → result ≡ has_begun s reading }
    {
        self.begin <= reading
    }

    /// Whether the reading is at its end or later.
    pub fn has_ended(&self, reading: u64) -> bool
        ensures { (s : Scenario) → self.now ≡ course_of s → result ≡ has_ended s reading }
    {
        self.end <= reading
    }

    /// Whether the scenario runs, and the reading is from its begin up to and without its end.
    pub fn is_live(&self, reading: u64) -> bool
        ensures { (s : Scenario) → self.now ≡ course_of s → result ≡ is_live s reading }
    {
        self.runs() && self.has_begun(reading) && !self.has_ended(reading)
    }

    /// When the scenario's iterations are cut off: its grace behind its end.
    pub fn hard_moment(&self) -> u64
        ensures { (s : Scenario) → self.now ≡ course_of s → result ≡ hard_moment s.part }
    {
        self.end.saturating_add(self.grace)
    }

    /// Whether the scenario may be halted: it is open, and its grace is over since a stop was commanded.
    pub fn may_stop(&self, reading: u64) -> bool
        ensures { (s : Scenario) → self.now ≡ course_of s → result ≡ may_stop s reading }
    {
        match self.level {
            Level::StartsNothing { commanded } => {
                !self.closed && commanded.saturating_add(self.grace) <= reading
            }
            Level::Runs | Level::Halted => false,
        }
    }

    /// The number of its level: 0 where it runs, 1 where it starts nothing more, 2 where it was halted.
    pub fn level_number(&self) -> u8
        ensures { (s : Scenario) → self.now ≡ course_of s → result ≡ level_number s.share.level }
    {
        match self.level {
            Level::Runs => 0,
            Level::StartsNothing { .. } => 1,
            Level::Halted => 2,
        }
    }

    /// Takes notice of an act of the scenario, or of a control, at a reading: of a stop that is commanded while the
    /// scenario is open, of its halt and of its close. All others leave the course as it is.
    pub fn apply(&mut self, act: &Act, reading: u64)
        ensures { Follows self.old self.new act.now reading }
    {
        match act {
            Act::Stop { .. } => self.level = Level::Halted,
            Act::Close { .. } => self.closed = true,
            Act::Control { command } => {
                if *command == Command::Stop && !self.closed {
                    self.level = Level::StartsNothing { commanded: reading };
                }
            }
            _ => {}
        }
    }

    /// The least moment above the reading at which the clock may change what the scenario does, if there is one. While it
    /// runs these are its begin, its end and moments that its executor has of its own, of which `own` is the least above
    /// the reading; behind a commanded stop it is the end of its grace.
    pub fn candidate(&self, reading: u64, own: Option<u64>) -> Option<u64>
        ensures { (s : Scenario) → self.now ≡ course_of s → own ≡ least_above reading (own_moments s) → result ≡ least_above reading (scenario_moments s) }
    {
        if self.closed {
            return None;
        }
        match self.level {
            Level::Runs => {
                let end = lesser(above(reading, self.end), own);
                lesser(above(reading, self.begin), end)
            }
            Level::StartsNothing { commanded } => {
                above(reading, commanded.saturating_add(self.grace))
            }
            Level::Halted => None,
        }
    }
}

/// A moment, if it is above the reading.
pub fn above(reading: u64, moment: u64) -> Option<u64>
    ensures { option_to_list result ≡ filter (nat_lt reading) (moment ∷ []) }
{
    if reading < moment { Some(moment) } else { None }
}

// The lesser of two moments, or the one that there is.
fn lesser(a: Option<u64>, b: Option<u64>) -> Option<u64>
    ensures { result ≡ least_of (option_to_list a ++ option_to_list b) }
{
    match (a, b) {
        (Some(a), Some(b)) => Some(a.min(b)),
        (Some(a), None) => Some(a),
        (None, b) => b,
    }
}
