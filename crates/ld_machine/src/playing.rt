// Who plays, over all legal histories, and an example of it.
ghost use Rattle.std.specs.Prelude.{◌≡◌, ◌≤◌, ℕ, List, Contains, IsTrue, None, Some, slice_get, take};
ghost use Rattle.ld_base.specs.Stint.{StintView};
ghost use Rattle.ld_base.specs.declared.entry.Entry.{Entry};
ghost use Rattle.ld_machine.specs.Plan.{Plan};
ghost use Rattle.ld_machine.specs.State.{is_busy, HeldUser, Share};
ghost use Rattle.ld_machine.specs.Effect.{state_after};
ghost use Rattle.ld_machine.specs.Step.{is_out};
ghost use Rattle.ld_machine.specs.History.{IsLegal};
ghost use Rattle.ld_machine.specs.Examples.{arrival_plan, arrival_grown};
ghost use Rattle.ld_machine.specs.FurtherExamples.{full_plan, full_lines};
ghost use Rattle.ld_machine.specs.Playing.{Play, play_of, stint_of_play, IsNumbered, KeepsRoom, KeepsSamples};

/// What a user plays by its last turn is what it is busy with behind a legal history: its stint is out
/// at the thread that started it, no other stint is out, and each busy user plays.
pub fn busy_turns()
    ensures out { (plan : Plan) (history : List Entry) (user : ℕ) (play : Play) → IsLegal plan history → play_of user history ≡ Some play →
        IsTrue (is_out (state_after plan history) play.thread (stint_of_play user play)) }
    ensures playing { (plan : Plan) (history : List Entry) (thread : ℕ) (stint : StintView) → IsLegal plan history →
        IsTrue (is_out (state_after plan history) thread stint) →
        (play : Play) × (play_of stint.user history ≡ Some play) × (play.thread ≡ thread) × (stint ≡ stint_of_play stint.user play) }
    ensures busy { (plan : Plan) (history : List Entry) (n : ℕ) (share : Share) (h : HeldUser) → IsLegal plan history →
        slice_get (state_after plan history).shares n ≡ Some share → Contains share.held h → IsTrue (is_busy h) →
        (play : Play) × (play_of h.user history ≡ Some play) }
{}

/// Whoever plays was made, within the plan's limit: users are numbered from 1 up to it.
pub fn players_made()
    ensures { (plan : Plan) (history : List Entry) (user : ℕ) (play : Play) → plan.planned ≤ plan.limit → IsLegal plan history →
        play_of user history ≡ Some play → (1 ≤ user) × (user ≤ plan.limit) }
{}

/// A legal history keeps to the plan's limit of entries, the Returns of all who are busy counted in.
pub fn keeps_room()
    ensures { (plan : Plan) (history : List Entry) → IsLegal plan history → KeepsRoom plan history }
{}

/// The samples of a legal history keep to the plan's limit, room for those of all iterations under way counted in.
pub fn keeps_samples()
    ensures { (plan : Plan) (history : List Entry) → IsLegal plan history → KeepsSamples plan history }
{}

/// The entries of a legal history are numbered from 1, in their order.
pub fn numbered()
    ensures { (plan : Plan) (history : List Entry) → IsLegal plan history → IsNumbered history }
{}

/// Two users play while a history goes on, each what its last turn began, and nobody behind it; the entries
/// of one that comes next to its limit are numbered.
pub fn players()
    ensures legal { IsLegal (arrival_plan 2) (take 4 arrival_grown) }
    ensures first { play_of 1 (take 4 arrival_grown) ≡ Some (record { thread = 0; start = 0; scenario = 0; item = 0; until = 31000000000 }) }
    ensures second { play_of 2 (take 4 arrival_grown) ≡ Some (record { thread = 0; start = 500000000; scenario = 0; item = 1; until = 31000000000 }) }
    ensures before { play_of 2 (take 3 arrival_grown) ≡ None }
    ensures one_behind { play_of 1 arrival_grown ≡ None }
    ensures two_behind { play_of 2 arrival_grown ≡ None }
    ensures room { KeepsRoom full_plan full_lines }
    ensures numbers { IsNumbered full_lines }
{}
