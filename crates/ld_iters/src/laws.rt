// What holds of every scenario that a state shows.
ghost use Rattle.std.specs.Prelude.{◌≡◌, false, IsTrue};
ghost use Rattle.ld_iters.specs.Shows.{Shows, closed_of};
ghost use Rattle.ld_iters.specs.declared.iters_state.ItersState.{ItersState};
ghost use Rattle.ld_machine.specs.Plan.{is_external};
ghost use Rattle.ld_machine.specs.Scenario.{Scenario};
ghost use Rattle.ld_machine.specs.Told.{users_fit};
ghost use Rattle.ld_machine.specs.Wishes.{has_arrivals};

/// A shown scenario has no arrivals, takes no more users at its begin than it may hold, isn't externally controlled, and
/// is closed where its state keeps that it is.
pub fn shown()
    ensures arrivals { (state : ItersState) (s : Scenario) → Shows state s → has_arrivals s.part.executor ≡ false }
    ensures users { (state : ItersState) (s : Scenario) → Shows state s → IsTrue (users_fit s.part.executor) }
    ensures external { (state : ItersState) (s : Scenario) → Shows state s → is_external s.part.executor ≡ false }
    ensures closed { (state : ItersState) (s : Scenario) → Shows state s → closed_of state ≡ s.share.closed }
{}
