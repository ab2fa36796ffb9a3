// The laws of runs, over all lists of asks.
ghost use Rattle.std.specs.Prelude.{◌≡◌, ◌≤◌, true, false, ℕ, List, []};
ghost use Rattle.ld_base.specs.declared.entry.Entry.{Entry};
ghost use Rattle.ld_core.specs.Runs.{Asked, Leave};
ghost use Rattle.ld_machine.specs.Effect.{state_after};
ghost use Rattle.ld_machine.specs.History.{IsLegal};
ghost use Rattle.ld_machine.specs.Plan.{Plan};
ghost use Rattle.ld_machine.specs.State.{all_closed, times_held};
ghost use Rattle.ld_machine.specs.Settled.{IsSettled};
ghost use Rattle.ld_machine.specs.Stops.{WindsDown};
ghost use Rattle.ld_machine.specs.Turns.{StartsAlternate};

/// Whatever threads ask of a core, from its empty history on and at whatever readings: its history is
/// legal; no user plays two iterations at once, and none is held twice; and behind a commanded stop
/// nothing is taken, grown, started, dropped or counted late. Where it is over without a stop it is settled.
pub fn every_run()
    ensures legal { (plan : Plan) (asks : List Asked) (history : List Entry) → Leave plan [] asks history → IsLegal plan history }
    ensures alone { (plan : Plan) (asks : List Asked) (history : List Entry) → Leave plan [] asks history → StartsAlternate history }
    ensures held_once { (plan : Plan) (asks : List Asked) (history : List Entry) (user : ℕ) → Leave plan [] asks history →
        times_held user (state_after plan history).shares ≤ 1 }
    ensures settled { (plan : Plan) (asks : List Asked) (history : List Entry) → Leave plan [] asks history →
        (state_after plan history).stop_commanded ≡ false → all_closed (state_after plan history) ≡ true → IsSettled plan history }
    ensures winds_down { (plan : Plan) (asks : List Asked) (history : List Entry) → Leave plan [] asks history → WindsDown history }
{}
