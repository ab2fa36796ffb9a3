// The laws of what is counted, held and left open behind a history.
ghost use Rattle.std.specs.Prelude.{◌≡◌, ◌+◌, ◌↔◌, ℕ, List, Contains, IsTrue, None, Some, length, slice_get};
ghost use Rattle.ld_base.specs.declared.entry.Entry.{Entry};
ghost use Rattle.ld_machine.specs.Plan.{Part, Plan, owned_items, owned_slots};
ghost use Rattle.ld_machine.specs.State.{busy_users, HeldUser, Share};
ghost use Rattle.ld_machine.specs.Effect.{state_after};
ghost use Rattle.ld_machine.specs.History.{IsLegal};
ghost use Rattle.ld_machine.specs.Settled.{has_items, is_distinct, IsSettled, unsettled};
ghost use Rattle.ld_machine.specs.Slots.{has_slots};
ghost use Rattle.ld_machine.specs.Counted.{how_many, starts_item, ends_done, ends_interrupted, drops_item, counts_late};

/// Behind a legal history each iteration of a scenario that was started was done or interrupted, or its
/// user is busy; and each item that is no longer open was started, dropped or counted late.
pub fn counted()
    ensures iterations { (plan : Plan) (history : List Entry) (n : ℕ) (share : Share) → IsLegal plan history →
        slice_get (state_after plan history).shares n ≡ Some share →
        how_many (starts_item n) history
        ≡ how_many (ends_done n) history + how_many (ends_interrupted n) history + length (busy_users share) }
    ensures items { (plan : Plan) (history : List Entry) (n : ℕ) (part : Part) (share : Share) → IsLegal plan history →
        slice_get plan.parts n ≡ Some part → IsTrue (has_items part.executor) → slice_get (state_after plan history).shares n ≡ Some share →
        how_many (starts_item n) history + how_many (drops_item n) history + how_many (counts_late n) history ≡ length share.ended }
{}

/// In a settled history as many iterations of a scenario were done and interrupted as were started; and
/// started, dropped and late items together are as many as the owned ones, where none of these comes twice.
pub fn counted_when_settled()
    ensures iterations { (plan : Plan) (history : List Entry) (n : ℕ) (part : Part) → IsLegal plan history → IsSettled plan history →
        slice_get plan.parts n ≡ Some part →
        how_many (starts_item n) history ≡ how_many (ends_done n) history + how_many (ends_interrupted n) history }
    ensures items { (plan : Plan) (history : List Entry) (n : ℕ) (part : Part) → IsSettled plan history →
        slice_get plan.parts n ≡ Some part → IsTrue (has_items part.executor) → IsTrue (is_distinct (owned_items part.executor)) →
        how_many (starts_item n) history + how_many (drops_item n) history + how_many (counts_late n) history
        ≡ length (owned_items part.executor) }
{}

/// Behind a legal history each user that a scenario with slots holds has a slot that the instance owns.
pub fn slots_owned()
    ensures { (plan : Plan) (history : List Entry) (n : ℕ) (part : Part) (share : Share) (h : HeldUser) → IsLegal plan history →
        slice_get plan.parts n ≡ Some part → IsTrue (has_slots part.executor) → slice_get (state_after plan history).shares n ≡ Some share →
        Contains share.held h → Contains (owned_slots part.executor) h.slot }
{}

/// A legal history is settled exactly where nothing is unsettled behind it: every scenario is closed, and no
/// item is open.
pub fn unsettled_exactly()
    ensures { (plan : Plan) (history : List Entry) → IsLegal plan history →
        (unsettled plan (state_after plan history) ≡ None) ↔ IsSettled plan history }
{}
