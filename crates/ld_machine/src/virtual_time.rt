// What a player in virtual time rests on: iterations last, waits go on, and somebody plays at the end.
ghost use Rattle.std.specs.Prelude.{false, ◌≡◌, ◌<◌, ◌≤◌, ℕ, List, [], Contains, IsTrue, Some, slice_get, take};
ghost use Rattle.std.specs.List.{list_all};
ghost use Rattle.ld_base.specs.declared.act.Act.TheVariants.{Start};
ghost use Rattle.ld_base.specs.declared.ask.Ask.TheVariants as asks;
ghost use Rattle.ld_base.specs.declared.entry.Entry.{Entry};
ghost use Rattle.ld_machine.specs.Moment.{last_moment};
ghost use Rattle.ld_machine.specs.Plan.{Plan};
ghost use Rattle.ld_machine.specs.State.{all_closed, is_busy, HeldUser, Share, State};
ghost use Rattle.ld_machine.specs.Moves.{enabled};
ghost use Rattle.ld_machine.specs.Effect.{state_after};
ghost use Rattle.ld_machine.specs.Step.{IsStep, Result};
ghost use Rattle.ld_machine.specs.History.{IsLegal};
ghost use Rattle.ld_machine.specs.Rehearsal.{is_rehearsed_entry};
ghost use Rattle.ld_machine.specs.Wait.{wait_moment};
ghost use Rattle.ld_machine.specs.WellTimed.{WellTimed};
ghost use Rattle.ld_machine.specs.Examples.{arrival_plan};
ghost use Rattle.ld_machine.specs.FurtherExamples.{ramping_plan, ramping_done};

/// In a well timed plan an iteration that starts may last for some time.
pub fn starts_last()
    ensures { (plan : Plan) (state : State) (thread t : ℕ) (result : Result) (entry : Entry) (n user item until : ℕ) → WellTimed plan →
        IsStep plan state thread asks.Act t result → Contains result.entries entry → entry.act ≡ Start n user item until → t < until }
{}

/// Before the last moment the moment to wait for is a later one.
pub fn waits_on()
    ensures { (plan : Plan) (state : State) (t : ℕ) → t < last_moment → t < wait_moment plan state t }
{}

/// Entries that a rehearsal may have command no stop.
pub fn uncommanded()
    ensures { (plan : Plan) (history : List Entry) → IsTrue (list_all is_rehearsed_entry history) →
        (state_after plan history).stop_commanded ≡ false }
{}

/// Where nothing is enabled at the end of all moments behind a legal history without a commanded stop,
/// and some scenario is open, somebody plays.
pub fn someone_plays()
    ensures { (plan : Plan) (history : List Entry) (t : ℕ) → WellTimed plan → IsLegal plan history →
        (state_after plan history).stop_commanded ≡ false → all_closed (state_after plan history) ≡ false → last_moment ≤ t →
        enabled plan (state_after plan history) t ≡ [] →
        (n : ℕ) × (share : Share) × (h : HeldUser) × (slice_get (state_after plan history).shares n ≡ Some share)
        × Contains share.held h × IsTrue (is_busy h) }
{}

/// Two plans that are well timed. In one of them a user that has begun and not returned plays at the end of
/// all moments, where nothing is enabled and its scenario is open.
pub fn well_timed_plans()
    ensures arrivals { WellTimed (arrival_plan 1) }
    ensures ramping { WellTimed ramping_plan }
    ensures legal { IsLegal ramping_plan (take 2 ramping_done) }
    ensures still_open { all_closed (state_after ramping_plan (take 2 ramping_done)) ≡ false }
    ensures nothing_enabled { enabled ramping_plan (state_after ramping_plan (take 2 ramping_done)) last_moment ≡ [] }
{}
