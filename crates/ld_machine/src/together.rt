// The laws by which many scenarios are put together: the first act of all, the next candidate, and
// who is busy and who is free.
ghost use Rattle.std.specs.Prelude.{◌≡◌, ◌≢◌, ◌==◌, ◌&&◌, ◌||◌, ◌++◌, ◌∷◌, ◌+◌, ◌*◌, ◌↔◌, ◌⊎◌, ◌<◌, ◌≤◌, ℕ, Bool, true, false, not, List, [], Contains, length, Option, Some, None, set, take, nat_lt, option_to_list, if◌then◌else◌, slice_get};
ghost use Rattle.ld_base.specs.Stint.{StintView};
ghost use Rattle.ld_base.specs.Tally.{TallyView};
ghost use Rattle.ld_base.specs.declared.act.Act.TheVariants as acts;
ghost use Rattle.ld_base.specs.declared.act.Outcome.{Outcome};
ghost use Rattle.ld_base.specs.declared.command.Command.{Command};
ghost use Rattle.ld_base.specs.declared.ask.Ask.{Ask};
ghost use Rattle.ld_base.specs.declared.ask.Ask.TheVariants as asks;
ghost use Rattle.ld_base.specs.declared.entry.Entry.{Entry};
ghost use Rattle.ld_base.specs.declared.reply.Reply.{Reply};
ghost use Rattle.ld_base.specs.declared.reply.Reply.TheVariants.{Wait, Over};
ghost use Rattle.ld_machine.specs.Plan.{Part, Plan};
ghost use Rattle.ld_machine.specs.State.{Level, Runs, opening, Condition, Idle, Busy, HeldUser, Share, State, is_idle, is_busy, busy_users, busy_count, is_held, free_users, times_among, times_held, all_closed};
ghost use Rattle.ld_machine.specs.Scenario.{Scenario};
ghost use Rattle.ld_machine.specs.Moves.{Move, TakeUser, StartIteration, CloseScenario, users_of, moves_of, scenarios};
ghost use Rattle.ld_machine.specs.Order.{is_before, place_of, first_among, first_moves};
ghost use Rattle.ld_machine.specs.Acts.{acts_of, made_busy, scenario_of};
ghost use Rattle.ld_machine.specs.Room.{script_room, busy_room};
ghost use Rattle.ld_machine.specs.Commands.{after_command};
ghost use Rattle.ld_machine.specs.Wait.{busy_until, scenario_moments, least_of, next_candidate, wait_moment};
ghost use Rattle.ld_machine.specs.Effect.{hold, put_condition, let_go, end_item, change_at, change_share, end_item_of, after_act, after_entries, state_after};
ghost use Rattle.ld_machine.specs.FurtherExamples.{two_plan, two_done};
ghost use Rattle.ld_machine.specs.History.{IsLegal};
ghost use Rattle.ld_machine.specs.Step.{IsStep, Result, answered, is_out, move_result, performed, results, return_of};
ghost use Rattle.ld_machine.specs.Together.{IsActOf, NoneBefore, NoneActs, IsFirstActOf, IsFirstBelow, NoneActsBelow, lesser, least_above, least_moment, least_with_untils, least_until, least_until_in, IsLeast, IsLeastAbove, HoldsOnce, holds, WellHeld, idle_user_of, free_user_of, released_user_of, grown_user_of};

/// No place is before itself, and what is before a place is before all that the place is before. So
/// of two places one at most is before the other. Of the places of acts, where a first isn't before
/// a second nor the second before a third, the first isn't before the third.
pub fn order_of_places()
    ensures itself { (place : List ℕ) → is_before place place ≡ false }
    ensures along { (a b c : List ℕ) → is_before a b ≡ true → is_before b c ≡ true → is_before a c ≡ true }
    ensures once { (a b : List ℕ) → is_before a b ≡ true → is_before b a ≡ false }
    ensures not_before { (a b c : Move) → is_before (place_of a) (place_of b) ≡ false →
        is_before (place_of b) (place_of c) ≡ false → is_before (place_of a) (place_of c) ≡ false }
{}

/// The first acts are those of some scenario that no act of any scenario is before. To see that m is
/// one, it is enough to know for each act of a scenario a best one, as the first of its scenario: the
/// act isn't before the best one, and the best one isn't before m.
pub fn first_of_all()
    ensures are { (plan : Plan) (state : State) (t : ℕ) (m : Move) →
        Contains (first_moves plan state t) m ↔ (((n : ℕ) × IsActOf plan state t n m) × NoneBefore plan state t m) }
    ensures by_each { (plan : Plan) (state : State) (t n : ℕ) (m : Move) → IsActOf plan state t n m →
        ((k : ℕ) (other : Move) → IsActOf plan state t k other →
        (best : Move) × (is_before (place_of other) (place_of best) ≡ false) × (is_before (place_of best) (place_of m) ≡ false)) →
        Contains (first_moves plan state t) m }
{}

/// The first acts of a list are those of it that no other is before; where there are acts, there is
/// a first one.
pub fn first_of_list()
    ensures are { (moves : List Move) (m : Move) → Contains (first_among moves) m
        ↔ (Contains moves m × ((other : Move) → Contains moves other → is_before (place_of other) (place_of m) ≡ false)) }
    ensures exist { (moves : List Move) (other : Move) → Contains moves other → (m : Move) × Contains (first_among moves) m }
{}

/// A first act of all is a first one of its scenario; and an act that no first one of any scenario is
/// before is a first one of all.
pub fn first_of_each()
    ensures its { (plan : Plan) (state : State) (t : ℕ) (m : Move) → Contains (first_moves plan state t) m → (n : ℕ) × IsFirstActOf plan state t n m }
    ensures by_firsts { (plan : Plan) (state : State) (t n : ℕ) (m : Move) → IsActOf plan state t n m →
        ((k : ℕ) (first : Move) → IsFirstActOf plan state t k first → is_before (place_of first) (place_of m) ≡ false) →
        Contains (first_moves plan state t) m }
{}

/// To look for a first act one scenario after another: the first that comes is kept until a scenario's
/// first act is before it, and at the end it is a first act of all.
pub fn first_step_by_step()
    ensures start { (plan : Plan) (state : State) (t : ℕ) → NoneActsBelow plan state t 0 }
    ensures none { (plan : Plan) (state : State) (t k : ℕ) → NoneActsBelow plan state t k →
        ((s : Scenario) → slice_get (scenarios plan state) k ≡ Some s → moves_of (users_of plan state) k s t ≡ []) →
        NoneActsBelow plan state t (k + 1) }
    ensures found { (plan : Plan) (state : State) (t k : ℕ) (m : Move) → NoneActsBelow plan state t k → IsFirstActOf plan state t k m →
        IsFirstBelow plan state t (k + 1) m }
    ensures kept_by_none { (plan : Plan) (state : State) (t k : ℕ) (m : Move) → IsFirstBelow plan state t k m →
        ((s : Scenario) → slice_get (scenarios plan state) k ≡ Some s → moves_of (users_of plan state) k s t ≡ []) →
        IsFirstBelow plan state t (k + 1) m }
    ensures kept { (plan : Plan) (state : State) (t k : ℕ) (m other : Move) → IsFirstBelow plan state t k m → IsFirstActOf plan state t k other →
        is_before (place_of other) (place_of m) ≡ false → IsFirstBelow plan state t (k + 1) m }
    ensures replaced { (plan : Plan) (state : State) (t k : ℕ) (m other : Move) → IsFirstBelow plan state t k m → IsFirstActOf plan state t k other →
        is_before (place_of other) (place_of m) ≡ true → IsFirstBelow plan state t (k + 1) other }
    ensures first { (plan : Plan) (state : State) (t k : ℕ) (m : Move) → length (scenarios plan state) ≤ k → IsFirstBelow plan state t k m →
        Contains (first_moves plan state t) m }
    ensures nothing { (plan : Plan) (state : State) (t k : ℕ) → length (scenarios plan state) ≤ k → NoneActsBelow plan state t k →
        NoneActs plan state t }
{}

/// Where no scenario may perform an act, an ask for an act gives a wait and nothing else, if some
/// scenario is open.
pub fn nothing_first()
    ensures none { (plan : Plan) (state : State) (t : ℕ) → NoneActs plan state t → first_moves plan state t ≡ [] }
    ensures waits { (plan : Plan) (state : State) (thread t : ℕ) → NoneActs plan state t → all_closed state ≡ false →
        results plan state thread asks.Act t ≡ answered state (Wait (wait_moment plan state t)) ∷ [] }
{}

/// Where all scenarios are closed, an ask for an act gives `Over` and nothing else. All are closed
/// exactly where each is, so not where one is open, and not where one may perform an act.
pub fn all_over()
    ensures over { (plan : Plan) (state : State) (thread t : ℕ) → all_closed state ≡ true →
        results plan state thread asks.Act t ≡ answered state Over ∷ [] }
    ensures each { (state : State) → (all_closed state ≡ true) ↔ ((n : ℕ) (share : Share) → slice_get state.shares n ≡ Some share → share.closed ≡ true) }
    ensures open_one { (state : State) (n : ℕ) (share : Share) → slice_get state.shares n ≡ Some share → share.closed ≡ false →
        all_closed state ≡ false }
    ensures acts { (plan : Plan) (state : State) (t n : ℕ) (m : Move) → IsActOf plan state t n m → all_closed state ≡ false }
{}

/// What a first act gives is among the results of an ask for an act.
pub fn first_performed()
    ensures { (plan : Plan) (state : State) (thread t : ℕ) (m : Move) → Contains (first_moves plan state t) m →
        Contains (results plan state thread asks.Act t) (move_result plan state thread t m) }
{}

/// Of some moments the least is one of them and at most each; there is none exactly where there are
/// no moments. The least of two lists in a row is the lesser of their leasts.
pub fn least_candidate()
    ensures least { (moments : List ℕ) (m : ℕ) → (least_of moments ≡ Some m) ↔ IsLeast moments m }
    ensures none { (moments : List ℕ) → (least_of moments ≡ None) ↔ (moments ≡ []) }
    ensures joined { (front back : List ℕ) → least_of (front ++ back) ≡ lesser (least_of front) (least_of back) }
{}

/// The same of the moments above t. Of one moment the least above t is itself, if it is above t.
pub fn least_above_reading()
    ensures least { (t : ℕ) (moments : List ℕ) (m : ℕ) → (least_above t moments ≡ Some m) ↔ IsLeastAbove t moments m }
    ensures none { (t : ℕ) (moments : List ℕ) → (least_above t moments ≡ None) ↔ ((x : ℕ) → Contains moments x → x ≤ t) }
    ensures one { (t m : ℕ) → least_above t (m ∷ []) ≡ (if nat_lt t m then Some m else None) }
    ensures joined { (t : ℕ) (front back : List ℕ) → least_above t (front ++ back) ≡ lesser (least_above t front) (least_above t back) }
{}

/// In which order and how moments are compared doesn't matter for the lesser one.
pub fn lesser_of_moments()
    ensures none { (a : Option ℕ) → lesser a None ≡ a }
    ensures swapped { (a b : Option ℕ) → lesser a b ≡ lesser b a }
    ensures along { (a b c : Option ℕ) → lesser (lesser a b) c ≡ lesser a (lesser b c) }
{}

/// The next candidate is the lesser of the least moment of the scenarios and the least `until` of the
/// shares, above the reading. Where there is a share for each part, it is the least of what each
/// scenario has of both.
pub fn next_candidate_of_parts()
    ensures parts { (plan : Plan) (state : State) (t : ℕ) →
        next_candidate plan state t ≡ lesser (least_moment t (scenarios plan state)) (least_until_in t state.shares) }
    ensures each { (plan : Plan) (state : State) (t : ℕ) → length plan.parts ≡ length state.shares →
        next_candidate plan state t ≡ least_with_untils t (scenarios plan state) }
{}

/// The least moment of scenarios, one scenario more at a time, at the back or at the front.
pub fn least_moment_steps()
    ensures back { (t : ℕ) (front : List Scenario) (s : Scenario) →
        least_moment t (front ++ s ∷ []) ≡ lesser (least_moment t front) (least_above t (scenario_moments s)) }
    ensures front { (t : ℕ) (s : Scenario) (rest : List Scenario) →
        least_moment t (s ∷ rest) ≡ lesser (least_above t (scenario_moments s)) (least_moment t rest) }
    ensures back_with_untils { (t : ℕ) (front : List Scenario) (s : Scenario) →
        least_with_untils t (front ++ s ∷ [])
        ≡ lesser (least_with_untils t front) (lesser (least_above t (scenario_moments s)) (least_until t s.share.held)) }
    ensures front_with_untils { (t : ℕ) (s : Scenario) (rest : List Scenario) →
        least_with_untils t (s ∷ rest)
        ≡ lesser (lesser (least_above t (scenario_moments s)) (least_until t s.share.held)) (least_with_untils t rest) }
{}

/// The least `until` of held users and of shares, one more at a time, at the back or at the front.
pub fn least_until_steps()
    ensures back { (t : ℕ) (front : List HeldUser) (h : HeldUser) →
        least_until t (front ++ h ∷ []) ≡ lesser (least_until t front) (least_above t (option_to_list (busy_until h.condition))) }
    ensures front { (t : ℕ) (h : HeldUser) (rest : List HeldUser) →
        least_until t (h ∷ rest) ≡ lesser (least_above t (option_to_list (busy_until h.condition))) (least_until t rest) }
    ensures back_share { (t : ℕ) (front : List Share) (share : Share) →
        least_until_in t (front ++ share ∷ []) ≡ lesser (least_until_in t front) (least_until t share.held) }
    ensures front_share { (t : ℕ) (share : Share) (rest : List Share) →
        least_until_in t (share ∷ rest) ≡ lesser (least_until t share.held) (least_until_in t rest) }
{}

/// What a change of a share does to its busy users. To hold a user, to let go of an idle one held once,
/// to end an item, to set the level and to close leaves them. Of users held once, an idle one that
/// becomes busy is one more, and a busy one that becomes idle one less.
pub fn busy_in_share()
    ensures held { (user slot : ℕ) (share : Share) → busy_users (hold user slot share) ≡ busy_users share }
    ensures let_go { (user : ℕ) (share : Share) → HoldsOnce is_idle share user → busy_users (let_go user share) ≡ busy_users share }
    ensures started { (user thread item until : ℕ) (share : Share) → HoldsOnce is_idle share user →
        length (busy_users (put_condition user (Busy thread item until) share)) ≡ length (busy_users share) + 1 }
    ensures returned { (user : ℕ) (share : Share) → HoldsOnce is_busy share user →
        length (busy_users (put_condition user Idle share)) + 1 ≡ length (busy_users share) }
    ensures ended { (part : Part) (item : ℕ) (share : Share) → busy_users (end_item part item share) ≡ busy_users share }
    ensures level { (level : Level) (share : Share) → busy_users (record share { level = level }) ≡ busy_users share }
    ensures closed { (closed : Bool) (share : Share) → busy_users (record share { closed = closed }) ≡ busy_users share }
{}

/// The count of all busy users changes as that of the changed share does; where there is no share of
/// the number, nothing changes.
pub fn busy_under_change()
    ensures changed { (state : State) (n : ℕ) (change : Share → Share) (share : Share) → slice_get state.shares n ≡ Some share →
        busy_count (change_share state n change) + length (busy_users share) ≡ busy_count state + length (busy_users (change share)) }
    ensures same { (state : State) (n : ℕ) (change : Share → Share) → ((share : Share) → busy_users (change share) ≡ busy_users share) →
        busy_count (change_share state n change) ≡ busy_count state }
    ensures absent { (state : State) (n : ℕ) (change : Share → Share) → slice_get state.shares n ≡ None → change_share state n change ≡ state }
{}

/// How many users are busy behind each act: one more behind a Start on an idle user, one less behind a
/// Return, and as many behind all others, if only idle users are released.
pub fn busy_behind_acts()
    ensures take { (plan : Plan) (state : State) (thread t n user slot : ℕ) →
        busy_count (after_act plan state thread t (acts.Take n user slot)) ≡ busy_count state }
    ensures grow { (plan : Plan) (state : State) (thread t n user slot : ℕ) →
        busy_count (after_act plan state thread t (acts.Grow n user slot)) ≡ busy_count state }
    ensures start { (plan : Plan) (state : State) (thread t n user item until : ℕ) (share : Share) → slice_get state.shares n ≡ Some share →
        HoldsOnce is_idle share user → busy_count (after_act plan state thread t (acts.Start n user item until)) ≡ busy_count state + 1 }
    ensures dropped { (plan : Plan) (state : State) (thread t n item : ℕ) →
        busy_count (after_act plan state thread t (acts.Drop n item)) ≡ busy_count state }
    ensures late { (plan : Plan) (state : State) (thread t n item : ℕ) →
        busy_count (after_act plan state thread t (acts.Late n item)) ≡ busy_count state }
    ensures returned { (plan : Plan) (state : State) (thread t n user item : ℕ) (outcome : Outcome) (tally : TallyView) (share : Share) →
        slice_get state.shares n ≡ Some share → HoldsOnce is_busy share user →
        busy_count (after_act plan state thread t (acts.Return n user item outcome tally)) + 1 ≡ busy_count state }
    ensures release { (plan : Plan) (state : State) (thread t n user : ℕ) (share : Share) → slice_get state.shares n ≡ Some share →
        HoldsOnce is_idle share user → busy_count (after_act plan state thread t (acts.Release n user)) ≡ busy_count state }
    ensures stop { (plan : Plan) (state : State) (thread t n : ℕ) → busy_count (after_act plan state thread t (acts.Stop n)) ≡ busy_count state }
    ensures close { (plan : Plan) (state : State) (thread t n : ℕ) → busy_count (after_act plan state thread t (acts.Close n)) ≡ busy_count state }
    ensures control { (plan : Plan) (state : State) (thread t : ℕ) (command : Command) →
        busy_count (after_act plan state thread t (acts.Control command)) ≡ busy_count state }
{}

/// Whom a share holds behind a change of it: behind `hold` the user and whoever was held, behind
/// `let_go` all but the user, and behind all other changes the same.
pub fn held_in_share()
    ensures held { (user slot other : ℕ) (share : Share) → holds other (hold user slot share) ≡ ((user == other) || holds other share) }
    ensures let_go { (user : ℕ) (share : Share) → holds user (let_go user share) ≡ false }
    ensures others { (user other : ℕ) (share : Share) → other ≢ user → holds other (let_go user share) ≡ holds other share }
    ensures put { (user other : ℕ) (condition : Condition) (share : Share) → holds other (put_condition user condition share) ≡ holds other share }
    ensures same { (user : ℕ) (a b : Share) → a.held ≡ b.held → holds user a ≡ holds user b }
    ensures once { (passes : HeldUser → Bool) (share : Share) (user : ℕ) → HoldsOnce passes share user → holds user share ≡ true }
{}

/// Who is held by some share, and behind a change of one. No share holds a user more often than all.
pub fn held_under_change()
    ensures held { (state : State) (n user slot other : ℕ) (share : Share) → slice_get state.shares n ≡ Some share →
        is_held (change_share state n (hold user slot)) other ≡ ((user == other) || is_held state other) }
    ensures let_go { (state : State) (n user : ℕ) (share : Share) → slice_get state.shares n ≡ Some share → holds user share ≡ true →
        times_held user state.shares ≤ 1 → is_held (change_share state n (let_go user)) user ≡ false }
    ensures others { (state : State) (n user other : ℕ) → other ≢ user →
        is_held (change_share state n (let_go user)) other ≡ is_held state other }
    ensures put { (state : State) (n user other : ℕ) (condition : Condition) →
        is_held (change_share state n (put_condition user condition)) other ≡ is_held state other }
    ensures same { (state : State) (n user : ℕ) (change : Share → Share) → ((share : Share) → (change share).held ≡ share.held) →
        is_held (change_share state n change) user ≡ is_held state user }
    ensures some { (state : State) (n user : ℕ) (share : Share) → slice_get state.shares n ≡ Some share → holds user share ≡ true →
        is_held state user ≡ true }
    ensures among { (state : State) (n user : ℕ) (share : Share) → slice_get state.shares n ≡ Some share →
        times_among user share.held ≤ times_held user state.shares }
{}

/// A user is free exactly where it was made, numbered from 1, and no share holds it. Where as many
/// are made and the same are held, the same are free.
pub fn free_where()
    ensures free { (state : State) (user : ℕ) → Contains (free_users state) user ↔ ((1 ≤ user) × (user ≤ state.made) × (is_held state user ≡ false)) }
    ensures same { (a b : State) → a.made ≡ b.made → ((user : ℕ) → is_held a user ≡ is_held b user) → free_users a ≡ free_users b }
{}

/// Who is free behind each act: behind a Take all but the user, behind a Release the user too, and
/// behind all others the same, if the user that is grown has the next number.
pub fn free_behind_acts()
    ensures take { (plan : Plan) (state : State) (thread t n user slot other : ℕ) (share : Share) → slice_get state.shares n ≡ Some share →
        Contains (free_users (after_act plan state thread t (acts.Take n user slot))) other ↔ (Contains (free_users state) other × (other ≢ user)) }
    ensures grow { (plan : Plan) (state : State) (thread t n user slot : ℕ) (share : Share) → slice_get state.shares n ≡ Some share →
        user ≡ state.made + 1 → free_users (after_act plan state thread t (acts.Grow n user slot)) ≡ free_users state }
    ensures release { (plan : Plan) (state : State) (thread t n user other : ℕ) (share : Share) → slice_get state.shares n ≡ Some share →
        holds user share ≡ true → times_held user state.shares ≤ 1 → 1 ≤ user → user ≤ state.made →
        Contains (free_users (after_act plan state thread t (acts.Release n user))) other ↔ (Contains (free_users state) other ⊎ (other ≡ user)) }
    ensures start { (plan : Plan) (state : State) (thread t n user item until : ℕ) →
        free_users (after_act plan state thread t (acts.Start n user item until)) ≡ free_users state }
    ensures dropped { (plan : Plan) (state : State) (thread t n item : ℕ) →
        free_users (after_act plan state thread t (acts.Drop n item)) ≡ free_users state }
    ensures late { (plan : Plan) (state : State) (thread t n item : ℕ) →
        free_users (after_act plan state thread t (acts.Late n item)) ≡ free_users state }
    ensures returned { (plan : Plan) (state : State) (thread t n user item : ℕ) (outcome : Outcome) (tally : TallyView) →
        free_users (after_act plan state thread t (acts.Return n user item outcome tally)) ≡ free_users state }
    ensures stop { (plan : Plan) (state : State) (thread t n : ℕ) → free_users (after_act plan state thread t (acts.Stop n)) ≡ free_users state }
    ensures close { (plan : Plan) (state : State) (thread t n : ℕ) → free_users (after_act plan state thread t (acts.Close n)) ≡ free_users state }
    ensures control { (plan : Plan) (state : State) (thread t : ℕ) (command : Command) →
        free_users (after_act plan state thread t (acts.Control command)) ≡ free_users state }
{}

/// At the opening, behind each step from a state that is so, and behind each legal history no user is
/// held twice, and whoever is held was made.
pub fn well_held()
    ensures opening { (plan : Plan) → WellHeld (opening plan) }
    ensures step { (plan : Plan) (state : State) (thread : ℕ) (ask : Ask) (t : ℕ) (result_of : Result) →
        IsStep plan state thread ask t result_of → WellHeld state → WellHeld result_of.state }
    ensures legal { (plan : Plan) (history : List Entry) → IsLegal plan history → WellHeld (state_after plan history) }
{}

/// An act of a scenario names its number. The user that it is on the scenario's share holds once,
/// idle; or it is free; or it has the next number. So the laws of who is busy and who is free apply.
/// The user of a stint that is out is held once, busy.
pub fn users_of_acts()
    ensures number { (plan : Plan) (state : State) (t n : ℕ) (m : Move) → IsActOf plan state t n m → scenario_of m ≡ n }
    ensures share { (plan : Plan) (state : State) (t n : ℕ) (m : Move) (act : IsActOf plan state t n m) → slice_get state.shares n ≡ Some act.0.share }
    ensures idle { (plan : Plan) (state : State) (t n : ℕ) (m : Move) (act : IsActOf plan state t n m) (user : ℕ) → WellHeld state →
        idle_user_of m ≡ Some user → HoldsOnce is_idle act.0.share user }
    ensures free { (plan : Plan) (state : State) (t n : ℕ) (m : Move) (user : ℕ) → IsActOf plan state t n m →
        free_user_of m ≡ Some user → Contains (free_users state) user }
    ensures grown { (plan : Plan) (state : State) (t n : ℕ) (m : Move) (user : ℕ) → IsActOf plan state t n m →
        grown_user_of m ≡ Some user → user ≡ state.made + 1 }
    ensures out { (state : State) (thread : ℕ) (stint : StintView) → WellHeld state → is_out state thread stint ≡ true →
        (share : Share) × (slice_get state.shares stint.scenario ≡ Some share) × HoldsOnce is_busy share stint.user }
{}

/// Behind an act of a scenario as many users more are busy as it makes busy, and behind a Return of a
/// stint that is out one user less.
pub fn busy_behind_steps()
    ensures act { (plan : Plan) (state : State) (thread t : ℕ) (reply : Reply) (n : ℕ) (m : Move) → WellHeld state → IsActOf plan state t n m →
        busy_count (performed plan state thread t reply (acts_of m)).state ≡ busy_count state + made_busy m }
    ensures returned { (plan : Plan) (state : State) (thread t : ℕ) (reply : Reply) (stint : StintView) (outcome : Outcome) (tally : TallyView) →
        WellHeld state → is_out state thread stint ≡ true →
        busy_count (performed plan state thread t reply (return_of stint outcome tally ∷ [])).state + 1 ≡ busy_count state }
{}

/// Behind an act of a scenario those are free that were free before, but for the user that it takes,
/// and the user that it releases; behind a Return the same.
pub fn free_behind_steps()
    ensures act { (plan : Plan) (state : State) (thread t : ℕ) (reply : Reply) (n : ℕ) (m : Move) (other : ℕ) → WellHeld state → IsActOf plan state t n m →
        Contains (free_users (performed plan state thread t reply (acts_of m)).state) other
        ↔ ((Contains (free_users state) other × (free_user_of m ≢ Some other)) ⊎ (released_user_of m ≡ Some other)) }
    ensures returned { (plan : Plan) (state : State) (thread t : ℕ) (reply : Reply) (stint : StintView) (outcome : Outcome) (tally : TallyView) →
        free_users (performed plan state thread t reply (return_of stint outcome tally ∷ [])).state ≡ free_users state }
{}

/// The sample room of all iterations under way changes as the number of the changed share's busy users
/// does, times the room of its script.
pub fn room_under_change()
    ensures changed { (plan : Plan) (state : State) (n : ℕ) (change : Share → Share) (share : Share) → slice_get state.shares n ≡ Some share →
        busy_room plan (change_share state n change) + length (busy_users share) * script_room plan n
        ≡ busy_room plan state + length (busy_users (change share)) * script_room plan n }
    ensures same { (plan : Plan) (state : State) (n : ℕ) (change : Share → Share) → ((share : Share) → busy_users (change share) ≡ busy_users share) →
        busy_room plan (change_share state n change) ≡ busy_room plan state }
    ensures ended { (plan : Plan) (n item : ℕ) (state : State) → busy_room plan (end_item_of plan n item state) ≡ busy_room plan state }
    ensures commanded { (plan : Plan) (state : State) (command : Command) (t : ℕ) →
        busy_room plan (after_command state command t) ≡ busy_room plan state }
{}

/// Behind an act of a scenario the iterations under way have more room, that of the script of each user
/// that it makes busy, and behind a Return of a stint that is out less, that of its script.
pub fn room_behind_steps()
    ensures act { (plan : Plan) (state : State) (thread t : ℕ) (reply : Reply) (n : ℕ) (m : Move) → WellHeld state → IsActOf plan state t n m →
        busy_room plan (performed plan state thread t reply (acts_of m)).state
        ≡ busy_room plan state + made_busy m * script_room plan (scenario_of m) }
    ensures returned { (plan : Plan) (state : State) (thread t : ℕ) (reply : Reply) (stint : StintView) (outcome : Outcome) (tally : TallyView) →
        WellHeld state → is_out state thread stint ≡ true →
        busy_room plan (performed plan state thread t reply (return_of stint outcome tally ∷ [])).state + script_room plan stint.scenario
        ≡ busy_room plan state }
{}

/// The scenarios as they stand: number n has the part and the share of this number, and the controls;
/// there are as many as parts, where there is a share for each.
pub fn scenarios_stand()
    ensures stands { (plan : Plan) (state : State) (n : ℕ) (part : Part) (share : Share) → slice_get plan.parts n ≡ Some part →
        slice_get state.shares n ≡ Some share →
        slice_get (scenarios plan state) n ≡ Some (record { part = part; share = share; controls = state.controls }) }
    ensures parts { (plan : Plan) (state : State) (n : ℕ) (s : Scenario) → slice_get (scenarios plan state) n ≡ Some s →
        (slice_get plan.parts n ≡ Some s.part) × (slice_get state.shares n ≡ Some s.share) × (s.controls ≡ state.controls) }
    ensures count { (plan : Plan) (state : State) → length plan.parts ≡ length state.shares → length (scenarios plan state) ≡ length plan.parts }
{}

/// A change of one share sets it in its place, and so its scenario; the others stay. There is a share
/// for each part at the opening, and no entries add or remove one.
pub fn scenarios_under_change()
    ensures shares { (n : ℕ) (change : Share → Share) (share : Share) (shares : List Share) → slice_get shares n ≡ Some share →
        change_at n change shares ≡ set shares n (change share) }
    ensures scenario { (plan : Plan) (state : State) (n : ℕ) (change : Share → Share) (s : Scenario) → slice_get (scenarios plan state) n ≡ Some s →
        scenarios plan (change_share state n change) ≡ set (scenarios plan state) n (record s { share = change s.share }) }
    ensures opened { (plan : Plan) → length (opening plan).shares ≡ length plan.parts }
    ensures count { (plan : Plan) (state : State) (entries : List Entry) → length (after_entries plan state entries).shares ≡ length state.shares }
{}

/// Two scenarios of two users each. At the opening the first takes a user for its slot 0. Behind its
/// two Starts nothing is enabled, its end is the next candidate, both users are busy and none is free;
/// behind a Return one is busy. When the second holds both, its Starts come before the Close of the
/// first, which is enabled too. A share that holds one idle user holds it once.
pub fn two_together()
    ensures opened { first_moves two_plan (opening two_plan) 0 ≡ TakeUser 0 1 0 ∷ TakeUser 0 2 0 ∷ [] }
    ensures nothing { first_moves two_plan (state_after two_plan (take 4 two_done)) 1 ≡ [] }
    ensures moment { least_moment 0 (scenarios two_plan (state_after two_plan (take 4 two_done))) ≡ Some 10000000000 }
    ensures until { least_until_in 0 (state_after two_plan (take 4 two_done)).shares ≡ Some 15000000000 }
    ensures next { next_candidate two_plan (state_after two_plan (take 4 two_done)) 0 ≡ Some 10000000000 }
    ensures busy { busy_count (state_after two_plan (take 4 two_done)) ≡ 2 }
    ensures free { free_users (opening two_plan) ≡ 1 ∷ 2 ∷ [] }
    ensures taken { free_users (state_after two_plan (take 4 two_done)) ≡ [] }
    ensures returned { busy_count (state_after two_plan (take 5 two_done)) ≡ 1 }
    ensures second { first_moves two_plan (state_after two_plan (take 14 two_done)) 15000000000
        ≡ StartIteration 1 1 0 46000000000 ∷ StartIteration 1 2 1 46000000000 ∷ [] }
    ensures close { IsActOf two_plan (state_after two_plan (take 14 two_done)) 15000000000 0 (CloseScenario 0) }
    ensures idle { HoldsOnce is_idle (record { level = Runs; closed = false; held = record { user = 1; slot = 0; condition = Idle } ∷ []; ended = [] }) 1 }
{}
