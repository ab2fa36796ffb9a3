// What holds of every state, and of every ticker.
ghost use Rattle.std.specs.Prelude.{◌≡◌, ℕ, List, IsTrue, map};
ghost use Rattle.ld_arrival.specs.Schedule.{owned_pairs, schedule};
ghost use Rattle.ld_arrival.specs.Timetable.{Timetable};
ghost use Rattle.ld_base.specs.declared.act.Act.{Act};
ghost use Rattle.ld_machine.specs.Plan.{ArrivalRate, owned_items};
ghost use Rattle.ld_machine.specs.Scenario.{Scenario, executor_max_vus, least_open_item};
ghost use Rattle.ld_machine.specs.Settled.{is_distinct};
ghost use Rattle.ld_machine.specs.State.{held_count};
ghost use Rattle.ld_machine.specs.Told.{MayBeTold, users_fit};
ghost use Rattle.ld_machine.specs.Wishes.{has_arrivals};
ghost use Rattle.ld_rates.specs.Applies.{MayApply, next_item};
ghost use Rattle.ld_rates.specs.RatesView.{RatesView};
ghost use Rattle.ld_rates.specs.Shows.{Shows, arrival_of};

/// The items that a position owns of a timetable are distinct.
pub fn distinct_items()
    ensures { (timetable : Timetable) (owners : List ℕ) (position pre most : ℕ) →
        IsTrue (is_distinct (owned_items (ArrivalRate pre most (map arrival_of (owned_pairs owners position (schedule timetable)))))) }
{}

/// A scenario that a state shows has arrivals, whose items are distinct, and takes no more users at its begin than it may
/// hold.
pub fn shown()
    ensures rates { (state : RatesView) (s : Scenario) → Shows state s → IsTrue (has_arrivals s.part.executor) }
    ensures fits { (state : RatesView) (s : Scenario) → Shows state s → IsTrue (users_fit s.part.executor) }
    ensures distinct { (state : RatesView) (s : Scenario) → Shows state s → IsTrue (is_distinct (owned_items s.part.executor)) }
{}

/// A state's next item is the least open one of the scenario that it shows; it holds as many users, and
/// may hold as many.
pub fn shown_numbers()
    ensures next { (state : RatesView) (s : Scenario) → Shows state s → next_item state ≡ least_open_item s }
    ensures held { (state : RatesView) (s : Scenario) → Shows state s → state.held ≡ held_count s.share }
    ensures most { (state : RatesView) (s : Scenario) → Shows state s → state.max ≡ executor_max_vus s.part.executor }
{}

/// What a scenario may be told of may be applied to a state that shows it.
pub fn may_be_told()
    ensures { (state : RatesView) (s : Scenario) (act : Act) → Shows state s → MayBeTold s act → MayApply state act }
{}
