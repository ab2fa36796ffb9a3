// Who holds whom, and what acts make of it; and what wishes tell of the first acts of all.
ghost use Rattle.std.specs.Prelude.{◌≡◌, ◌↔◌, ◌==◌, ℕ, true, false, [], Contains, None, Some, slice_get, if◌then◌else◌};
ghost use Rattle.ld_base.specs.Tally.{TallyView};
ghost use Rattle.ld_base.specs.declared.act.Act.TheVariants as acts;
ghost use Rattle.ld_base.specs.declared.act.Outcome.{Outcome};
ghost use Rattle.ld_base.specs.declared.command.Command.{Command};
ghost use Rattle.ld_base.specs.declared.wish.Wish.{Wish};
ghost use Rattle.ld_base.specs.declared.wish.Wish.TheVariants.{Nothing};
ghost use Rattle.ld_machine.specs.Plan.{Plan};
ghost use Rattle.ld_machine.specs.State.{Busy, HeldUser, Idle, Share, State, is_held};
ghost use Rattle.ld_machine.specs.Scenario.{Scenario, may_stop};
ghost use Rattle.ld_machine.specs.Moves.{Move, StopScenario, Users, moves_of, scenarios, users_of};
ghost use Rattle.ld_machine.specs.Order.{place_of};
ghost use Rattle.ld_machine.specs.Effect.{after_act};
ghost use Rattle.ld_machine.specs.Wishes.{TellsFirst, acts_wished};
ghost use Rattle.ld_machine.specs.Together.{IsFirstActOf, WellHeld};
ghost use Rattle.ld_machine.specs.Holders.{holder_of};

/// Where no user is held twice, a user's holder is the scenario whose share has it, as the share has it; a user has
/// no holder exactly where no share holds it.
pub fn who_holds()
    ensures share { (state : State) (user n : ℕ) (h : HeldUser) → WellHeld state →
        (holder_of state user ≡ Some (n, h))
        ↔ ((share : Share) × (slice_get state.shares n ≡ Some share) × Contains share.held h × (h.user ≡ user)) }
    ensures nobody { (state : State) (user : ℕ) → (holder_of state user ≡ None) ↔ (is_held state user ≡ false) }
{}

/// Who holds whom behind each act: behind a Take or a Grow the scenario holds the user too, idle on the slot; behind a
/// Start or a Return the user is under its new condition; behind a Release nobody holds it; and each other user, and
/// behind all other acts each user, is held as before.
pub fn holders_behind_acts()
    ensures take { (plan : Plan) (state : State) (thread t n user slot other : ℕ) (share : Share) → WellHeld state →
        slice_get state.shares n ≡ Some share → is_held state user ≡ false →
        holder_of (after_act plan state thread t (acts.Take n user slot)) other
        ≡ (if other == user then Some (n, record { user = user; slot = slot; condition = Idle }) else holder_of state other) }
    ensures grow { (plan : Plan) (state : State) (thread t n user slot other : ℕ) (share : Share) → WellHeld state →
        slice_get state.shares n ≡ Some share → is_held state user ≡ false →
        holder_of (after_act plan state thread t (acts.Grow n user slot)) other
        ≡ (if other == user then Some (n, record { user = user; slot = slot; condition = Idle }) else holder_of state other) }
    ensures start { (plan : Plan) (state : State) (thread t n user item until other : ℕ) (h : HeldUser) → WellHeld state →
        holder_of state user ≡ Some (n, h) →
        holder_of (after_act plan state thread t (acts.Start n user item until)) other
        ≡ (if other == user then Some (n, record h { condition = Busy thread item until }) else holder_of state other) }
    ensures returned { (plan : Plan) (state : State) (thread t n user item other : ℕ) (outcome : Outcome) (tally : TallyView) (h : HeldUser) →
        WellHeld state → holder_of state user ≡ Some (n, h) →
        holder_of (after_act plan state thread t (acts.Return n user item outcome tally)) other
        ≡ (if other == user then Some (n, record h { condition = Idle }) else holder_of state other) }
    ensures release { (plan : Plan) (state : State) (thread t n user other : ℕ) (h : HeldUser) → WellHeld state →
        holder_of state user ≡ Some (n, h) →
        holder_of (after_act plan state thread t (acts.Release n user)) other ≡ (if other == user then None else holder_of state other) }
    ensures dropped { (plan : Plan) (state : State) (thread t n item other : ℕ) →
        holder_of (after_act plan state thread t (acts.Drop n item)) other ≡ holder_of state other }
    ensures late { (plan : Plan) (state : State) (thread t n item other : ℕ) →
        holder_of (after_act plan state thread t (acts.Late n item)) other ≡ holder_of state other }
    ensures stop { (plan : Plan) (state : State) (thread t n other : ℕ) →
        holder_of (after_act plan state thread t (acts.Stop n)) other ≡ holder_of state other }
    ensures close { (plan : Plan) (state : State) (thread t n other : ℕ) →
        holder_of (after_act plan state thread t (acts.Close n)) other ≡ holder_of state other }
    ensures control { (plan : Plan) (state : State) (thread t : ℕ) (command : Command) (other : ℕ) →
        holder_of (after_act plan state thread t (acts.Control command)) other ≡ holder_of state other }
{}

/// What a right wish of scenario n tells of its acts among all: each act that it stands for is a first one of the
/// scenario, if that may not be halted, and these have one place in the order; where it is for nothing the scenario has
/// no act. A halt comes before all else of its scenario.
pub fn wishes_of_all()
    ensures wished { (plan : Plan) (state : State) (t n prefer : ℕ) (s : Scenario) (wish : Wish) (m : Move) →
        slice_get (scenarios plan state) n ≡ Some s → may_stop s t ≡ false → TellsFirst n (users_of plan state) s t prefer wish →
        Contains (acts_wished n (users_of plan state) s.part wish) m → IsFirstActOf plan state t n m }
    ensures place { (n : ℕ) (users : Users) (s : Scenario) (wish : Wish) (a b : Move) →
        Contains (acts_wished n users s.part wish) a → Contains (acts_wished n users s.part wish) b → place_of a ≡ place_of b }
    ensures nothing { (plan : Plan) (state : State) (t n prefer : ℕ) (s : Scenario) →
        may_stop s t ≡ false → TellsFirst n (users_of plan state) s t prefer Nothing → moves_of (users_of plan state) n s t ≡ [] }
    ensures halt { (plan : Plan) (state : State) (t n : ℕ) (s : Scenario) →
        slice_get (scenarios plan state) n ≡ Some s → may_stop s t ≡ true → IsFirstActOf plan state t n (StopScenario n) }
{}
