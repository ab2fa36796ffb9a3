// Worked examples: what one scenario's wish stands for.
ghost use Rattle.std.specs.Prelude.{false, [], ◌∷◌};
ghost use Rattle.ld_base.specs.declared.wish.Wish.TheVariants.{Nothing, Release, Take, Start, More, Drop, Late, Close};
ghost use Rattle.ld_machine.specs.State.{Runs, StartsNothing, Idle, Busy};
ghost use Rattle.ld_machine.specs.Wishes.{WishesFirst};
ghost use Rattle.ld_machine.specs.WishExamples.{Wishes, rates, loops, scenario_with, user_one, users_with, two_idle, two_loops, one_each, two_ramps, two_controlled};

/// Of two arrivals in one second, the first waits for a user that is taken for slot 0, and starts on it;
/// then nothing is to be done until the second is due. That starts on one more user: one that is made,
/// or a free one where no more may be made, or else it is dropped.
pub fn wishes()
    ensures taken { Wishes (users_with 1 (1 ∷ [])) (scenario_with rates Runs [] []) 0 (Take 0) }
    ensures started { Wishes (users_with 1 []) (scenario_with rates Runs (user_one Idle ∷ []) []) 0 (Start 1 0 31000000000 0) }
    ensures waiting { Wishes (users_with 2 []) (scenario_with rates Runs (user_one (Busy 0 0 31000000000) ∷ []) (0 ∷ [])) 499999999 Nothing }
    ensures grown { Wishes (users_with 2 []) (scenario_with rates Runs (user_one (Busy 0 0 31000000000) ∷ []) (0 ∷ [])) 500000000 (More 1 31000000000 500000000 1) }
    ensures free { Wishes (users_with 1 (2 ∷ 3 ∷ [])) (scenario_with rates Runs (user_one (Busy 0 0 31000000000) ∷ []) (0 ∷ [])) 500000000 (More 1 31000000000 500000000 1) }
    ensures dropped { Wishes (users_with 1 []) (scenario_with rates Runs (user_one (Busy 0 0 31000000000) ∷ []) (0 ∷ [])) 500000000 (Drop 1 500000000) }
    ensures looped { Wishes (users_with 1 []) (scenario_with loops Runs (user_one Idle ∷ []) []) 0 (Start 1 0 31000000000 0) }
{}

/// At the end an arrival is late, its user is released, and the scenario closes. Behind a commanded stop
/// no arrival is answered.
pub fn wishes_at_the_end()
    ensures late { Wishes (users_with 1 []) (scenario_with rates Runs (user_one (Busy 0 0 31000000000) ∷ []) (0 ∷ [])) 1000000000 (Late 1 500000000) }
    ensures released { Wishes (users_with 1 []) (scenario_with rates Runs (user_one Idle ∷ []) (0 ∷ 1 ∷ [])) 1000000000 (Release 1) }
    ensures closed { Wishes (users_with 1 (1 ∷ [])) (scenario_with rates Runs [] (0 ∷ 1 ∷ [])) 1000000000 Close }
    ensures stopped { Wishes (users_with 1 []) (scenario_with rates (StartsNothing 0) (user_one (Busy 0 0 31000000000) ∷ []) (0 ∷ [])) 500000000 Nothing }
{}

/// Where users 1 and 2 are idle on slots of their own and the second is preferred, the wish names the second
/// with what goes with its slot: its own item, and until when it may last. A wish for the first isn't right.
/// At the end the second is released.
pub fn preferred_wishes()
    ensures looped { WishesFirst (two_idle two_loops) 0 false 2 (Start 2 1 10 0) }
    ensures not_looped { WishesFirst (two_idle two_loops) 0 false 2 (Start 1 0 10 0) → ⊥ }
    ensures each { WishesFirst (two_idle one_each) 0 false 2 (Start 2 1 10 0) }
    ensures not_each { WishesFirst (two_idle one_each) 0 false 2 (Start 1 0 10 0) → ⊥ }
    ensures ramped { WishesFirst (two_idle two_ramps) 0 false 2 (Start 2 1 10 0) }
    ensures not_ramped { WishesFirst (two_idle two_ramps) 0 false 2 (Start 1 0 7 0) → ⊥ }
    ensures controlled { WishesFirst (two_idle two_controlled) 0 false 2 (Start 2 1 10 0) }
    ensures not_controlled { WishesFirst (two_idle two_controlled) 0 false 2 (Start 1 0 10 0) → ⊥ }
    ensures released { WishesFirst (two_idle two_loops) 10 false 2 (Release 2) }
    ensures not_released { WishesFirst (two_idle two_loops) 10 false 2 (Release 1) → ⊥ }
    ensures unpreferred { WishesFirst (two_idle two_ramps) 0 false 3 (Start 1 0 7 0) }
{}
