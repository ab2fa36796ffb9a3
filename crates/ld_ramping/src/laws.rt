ghost use Rattle.std.specs.Prelude.{◌≡◌, false, IsTrue};
ghost use Rattle.ld_machine.specs.Plan.{is_external};
ghost use Rattle.ld_machine.specs.Scenario.{Scenario};
ghost use Rattle.ld_machine.specs.Told.{users_fit};
ghost use Rattle.ld_machine.specs.Wishes.{has_arrivals};
ghost use Rattle.ld_ramping.specs.Laws.{EndInTime, FirstOnes, IntervalsRise, NoneBeyond};
ghost use Rattle.ld_ramping.specs.Shows.{RampingView, Shows};

/// The intervals of a ramping user rise: none is empty, and each is over when a later one begins.
pub fn intervals_rise()
    ensures { IntervalsRise }
{}

/// The intervals of a ramping user are over when the stages are.
pub fn end_in_time()
    ensures { EndInTime }
{}

/// The ramping users that are on at a moment are the first ones: user `u`, counted from 1, is on exactly
/// where `u` users or more are.
pub fn first_ones()
    ensures { FirstOnes }
{}

/// A user above the greatest number of ramping users is never on: it has no interval.
pub fn none_beyond()
    ensures { NoneBeyond }
{}

/// A shown scenario has no arrivals, takes no more users at its begin than it may hold, isn't externally controlled, and
/// is closed where its state keeps that it is.
pub fn shown()
    ensures arrivals { (state : RampingView) (s : Scenario) → Shows state s → has_arrivals s.part.executor ≡ false }
    ensures users { (state : RampingView) (s : Scenario) → Shows state s → IsTrue (users_fit s.part.executor) }
    ensures external { (state : RampingView) (s : Scenario) → Shows state s → is_external s.part.executor ≡ false }
    ensures closed { (state : RampingView) (s : Scenario) → Shows state s → state.course.closed ≡ s.share.closed }
{}
