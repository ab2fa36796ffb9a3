// The laws of threads: what each may ask, and who is busy.
ghost use Rattle.std.specs.Prelude.{◌≡◌, ◌≢◌, ◌↔◌, ◌++◌, ℕ, List, Contains, IsTrue, None, Some, slice_get, false};
ghost use Rattle.ld_base.specs.Stint.{StintView};
ghost use Rattle.ld_base.specs.declared.ask.Ask.{Ask};
ghost use Rattle.ld_base.specs.declared.entry.Entry.{Entry};
ghost use Rattle.ld_machine.specs.Plan.{Plan};
ghost use Rattle.ld_machine.specs.State.{is_busy, HeldUser, Share, State};
ghost use Rattle.ld_machine.specs.Effect.{state_after};
ghost use Rattle.ld_machine.specs.Step.{IsStep, Result, is_out};
ghost use Rattle.ld_machine.specs.Busy.{busy_of};
ghost use Rattle.ld_machine.specs.History.{IsLegal};
ghost use Rattle.ld_machine.specs.Threads.{IsBegun, MayAsk, own_entries};
ghost use Rattle.ld_machine.specs.Together.{WellHeld};

/// Where no user is held twice, a user is busy with exactly the stint of it that is out, and with nothing
/// exactly where no share holds it busy.
pub fn who_is_busy()
    ensures stint { (state : State) (user thread : ℕ) (stint : StintView) → WellHeld state →
        (busy_of state user ≡ Some (thread, stint)) ↔ (IsTrue (is_out state thread stint) × (stint.user ≡ user)) }
    ensures nothing { (state : State) (user : ℕ) → (busy_of state user ≡ None)
        ↔ ((n : ℕ) (share : Share) (h : HeldUser) → slice_get state.shares n ≡ Some share → Contains share.held h → h.user ≡ user → is_busy h ≡ false) }
{}

/// Behind a legal history the stints that are out at a thread are those that it began, by its own entries,
/// and didn't return. So it may ask by its own entries exactly what the state has a step for, and no
/// entries of other threads take that away.
pub fn what_threads_may_ask()
    ensures begun { (plan : Plan) (history : List Entry) (thread : ℕ) (stint : StintView) → IsLegal plan history →
        IsTrue (is_out (state_after plan history) thread stint) ↔ IsBegun (own_entries thread history) stint }
    ensures may { (plan : Plan) (history : List Entry) (thread : ℕ) (ask : Ask) (t : ℕ) → IsLegal plan history →
        MayAsk plan (own_entries thread history) ask ↔ ((r : Result) × IsStep plan (state_after plan history) thread ask t r) }
    ensures kept { (plan : Plan) (history more : List Entry) (thread : ℕ) (ask : Ask) → MayAsk plan (own_entries thread history) ask →
        ((entry : Entry) → Contains more entry → entry.thread ≢ thread) → MayAsk plan (own_entries thread (history ++ more)) ask }
    ensures own { (plan : Plan) (state : State) (thread : ℕ) (ask : Ask) (t : ℕ) (result_of : Result) (entry : Entry) →
        IsStep plan state thread ask t result_of → Contains result_of.entries entry → (entry.thread ≡ thread) × (entry.reading ≡ t) }
{}
