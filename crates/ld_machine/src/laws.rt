// The laws of the machine, over all plans, states and histories.
ghost use Rattle.std.specs.Prelude.{false, true, ◌≡◌, ◌≢◌, ◌==◌, count_by, ◌∷◌, ◌++◌, ◌⊎◌, ◌↔◌, ◌<◌, ◌≤◌, ℕ, List, [], Contains, IsTrue, length, Some, slice_get};
ghost use Rattle.ld_base.specs.Tally.{TallyView, TallyFits};
ghost use Rattle.ld_base.specs.declared.act.Act.{Act};
ghost use Rattle.ld_base.specs.declared.act.Act.TheVariants.{Control};
ghost use Rattle.ld_base.specs.declared.command.Command.{Command};
ghost use Rattle.ld_base.specs.declared.ask.Ask.{Ask};
ghost use Rattle.ld_base.specs.declared.ask.Ask.TheVariants as asks;
ghost use Rattle.ld_base.specs.declared.reply.Reply.TheVariants.{Wait};
ghost use Rattle.ld_base.specs.declared.entry.Entry.{Entry};
ghost use Rattle.ld_base.specs.declared.metric.NameSpec.{NameSpec};
ghost use Rattle.ld_machine.specs.Plan.{Part, Plan, owned_items};
ghost use Rattle.ld_machine.specs.Settled.{all_returned, has_items, is_distinct, items_in, IsSettled};
ghost use Rattle.ld_machine.specs.State.{all_closed, Share, State, times_held};
ghost use Rattle.ld_machine.specs.Effect.{after_act, after_entries, state_after};
ghost use Rattle.ld_machine.specs.ShareEffect.{scenario_of_act, share_after};
ghost use Rattle.ld_machine.specs.Moves.{Move, enabled};
ghost use Rattle.ld_machine.specs.Order.{place_of, first_moves};
ghost use Rattle.ld_machine.specs.Samples.{tally_fits};
ghost use Rattle.ld_machine.specs.Same.{same_entries};
ghost use Rattle.ld_machine.specs.Step.{IsStep, Result, results, replies};
ghost use Rattle.ld_machine.specs.Rehearsal.{NothingEnabled};
ghost use Rattle.ld_machine.specs.History.{ask_for, adds_one, adds_two, IsLegal, EndsInside};
ghost use Rattle.ld_machine.specs.Stops.{WindsDown};
ghost use Rattle.ld_machine.specs.Drops.{DropsAllowed};
ghost use Rattle.ld_machine.specs.Turns.{StartsAlternate};
ghost use Rattle.ld_machine.specs.Slots.{has_slots, times_slot};

/// A tally passes the test exactly where it fits.
pub fn fitting_tallies()
    ensures { (names : List NameSpec) (room : ℕ) (tally : TallyView) → IsTrue (tally_fits names room tally) ↔ TallyFits names room tally }
{}

/// Entries pass the test exactly where they are the same.
pub fn same_history()
    ensures { (a b : List Entry) → IsTrue (same_entries a b) ↔ (a ≡ b) }
{}

/// An ask for an act always has a reply.
pub fn always_answered()
    ensures { (plan : Plan) (state : State) (thread t : ℕ) → 0 < length (results plan state thread asks.Act t) }
{}

/// Where some act is enabled there is a first one; and the first ones have one place in the order,
/// so they differ only in the user and in what goes with it.
pub fn first_acts()
    ensures exist { (plan : Plan) (state : State) (t : ℕ) → first_moves plan state t ≡ [] → enabled plan state t ≡ [] }
    ensures one_place { (plan : Plan) (state : State) (t : ℕ) (a b : Move) →
        Contains (first_moves plan state t) a → Contains (first_moves plan state t) b → place_of a ≡ place_of b }
{}

/// Behind a commanded stop nothing is taken, grown, started, dropped or counted late, and no second
/// stop is commanded.
pub fn behind_a_stop()
    ensures { (plan : Plan) (history : List Entry) → IsLegal plan history → WindsDown history }
{}

/// In a legal history an arrival is dropped only when it is due, before the end, and where nobody
/// could play it; an iteration is dropped, and an arrival counted late, only at the end or behind it.
pub fn dropped_and_late()
    ensures { (plan : Plan) (history : List Entry) → plan.planned ≤ plan.limit → IsLegal plan history → DropsAllowed plan history }
{}

/// Where an ask for an act is answered by a wait for a moment, no act is enabled at any moment from
/// the reading up to and without that one.
pub fn waits()
    ensures { (plan : Plan) (state : State) (thread t m : ℕ) →
        Contains (replies plan state thread asks.Act t) (Wait m) → NothingEnabled plan state t m }
{}

/// A legal history goes on legally with the entries of any step from the state behind it.
pub fn goes_on()
    ensures { (plan : Plan) (history : List Entry) (thread : ℕ) (ask : Ask) (t : ℕ) (r : Result) → IsLegal plan history →
        IsStep plan (state_after plan history) thread ask t r → IsLegal plan (history ++ r.entries) }
{}

/// A front of a legal history is legal, unless it ends between the two entries of one step.
pub fn fronts()
    ensures { (plan : Plan) (front rest : List Entry) → IsLegal plan (front ++ rest) → IsLegal plan front ⊎ EndsInside plan front }
{}

/// No item of a scenario is started, dropped or counted late twice.
pub fn items_once()
    ensures { (plan : Plan) (history : List Entry) (n : ℕ) (part : Part) → IsLegal plan history → slice_get plan.parts n ≡ Some part →
        IsTrue (has_items part.executor) → IsTrue (is_distinct (items_in n history)) }
{}

/// Where a history is settled, each owned item of a scenario stands in exactly one Start, Drop or Late
/// entry of it, and each Start has its Return.
pub fn settled_items()
    ensures items { (plan : Plan) (history : List Entry) (n : ℕ) (part : Part) (item : ℕ) → IsSettled plan history →
        slice_get plan.parts n ≡ Some part → IsTrue (has_items part.executor) → Contains (owned_items part.executor) item →
        count_by (λ k. k == item) (items_in n history) ≡ 1 }
    ensures returned { (plan : Plan) (history : List Entry) → IsSettled plan history → IsTrue (all_returned history) }
{}

/// A legal history without a commanded stop, behind which every scenario is closed, is settled: nobody is
/// held, each owned item ended once and no other did, and each Start has its Return.
pub fn settles()
    ensures { (plan : Plan) (history : List Entry) → IsLegal plan history → (state_after plan history).stop_commanded ≡ false →
        all_closed (state_after plan history) ≡ true → IsSettled plan history }
{}

/// Behind a legal history no user is held twice, by one scenario or by two; so it is busy with one
/// iteration at most.
pub fn held_once()
    ensures { (plan : Plan) (history : List Entry) (user : ℕ) → IsLegal plan history → times_held user (state_after plan history).shares ≤ 1 }
{}

/// Behind a legal history each slot of a scenario whose executor has slots is held by one user at most.
pub fn slots_once()
    ensures { (plan : Plan) (history : List Entry) (n slot : ℕ) (part : Part) (share : Share) → IsLegal plan history →
        slice_get plan.parts n ≡ Some part → IsTrue (has_slots part.executor) → slice_get (state_after plan history).shares n ≡ Some share →
        times_slot slot share.held ≤ 1 }
{}

/// In a legal history no user plays two iterations at once: behind each Start the next Start or Return
/// of its user, if there is one, is the Return of this very iteration.
pub fn starts_alternate()
    ensures { (plan : Plan) (history : List Entry) → IsLegal plan history → StartsAlternate history }
{}

/// A step leaves the state that its entries lead to.
pub fn steps_leave()
    ensures { (plan : Plan) (state : State) (thread : ℕ) (ask : Ask) (t : ℕ) (result_of : Result) →
        IsStep plan state thread ask t result_of → result_of.state ≡ after_entries plan state result_of.entries }
{}

/// A legal history's tests ask for steps: one entry, or two, pass exactly where some step from the
/// state adds just these.
pub fn added_by_steps()
    ensures one { (plan : Plan) (state : State) (one : Entry) →
        IsTrue (adds_one plan state one)
        ↔ ((r : Result) × IsStep plan state one.thread (ask_for state one.act) one.reading r × (r.entries ≡ one ∷ [])) }
    ensures two { (plan : Plan) (state : State) (one two : Entry) →
        IsTrue (adds_two plan state one two)
        ↔ ((r : Result) × IsStep plan state one.thread (ask_for state one.act) one.reading r × (r.entries ≡ one ∷ two ∷ [])) }
{}

/// An act changes the share of its scenario alone, and a command changes each share; what becomes of a
/// share is said by the share itself, its part, the thread, the reading and the act.
pub fn shares_after_acts()
    ensures own { (plan : Plan) (state : State) (thread t : ℕ) (act : Act) (n : ℕ) (part : Part) (share : Share) →
        scenario_of_act act ≡ Some n → slice_get plan.parts n ≡ Some part → slice_get state.shares n ≡ Some share →
        slice_get (after_act plan state thread t act).shares n ≡ Some (share_after part thread t act share) }
    ensures others { (plan : Plan) (state : State) (thread t : ℕ) (act : Act) (n m : ℕ) → scenario_of_act act ≡ Some n → m ≢ n →
        slice_get (after_act plan state thread t act).shares m ≡ slice_get state.shares m }
    ensures commands { (plan : Plan) (state : State) (thread t : ℕ) (command : Command) (n : ℕ) (part : Part) (share : Share) →
        slice_get state.shares n ≡ Some share →
        slice_get (after_act plan state thread t (Control command)).shares n ≡ Some (share_after part thread t (Control command) share) }
{}
