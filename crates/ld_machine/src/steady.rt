// What a scenario may do between two readings.
ghost use Rattle.std.specs.Prelude.{◌≡◌, ◌<◌, ◌≤◌, ℕ, Bool, None, Some};
ghost use Rattle.ld_base.specs.declared.wish.Wish.{Wish};
ghost use Rattle.ld_machine.specs.Scenario.{Scenario};
ghost use Rattle.ld_machine.specs.Moves.{Users, moves_of};
ghost use Rattle.ld_machine.specs.Wait.{scenario_moments};
ghost use Rattle.ld_machine.specs.Wishes.{WishesFirst};
ghost use Rattle.ld_machine.specs.Together.{least_above};

/// From a reading up to and without the scenario's next candidate the same acts are enabled of it, and
/// the same wish is right; where there is no further candidate, at all later moments.
pub fn steady_between_candidates()
    ensures next { (s : Scenario) (t m later : ℕ) → least_above t (scenario_moments s) ≡ Some m → t ≤ later → later < m →
        (n : ℕ) (users : Users) → moves_of users n s later ≡ moves_of users n s t }
    ensures last { (s : Scenario) (t later : ℕ) → least_above t (scenario_moments s) ≡ None → t ≤ later →
        (n : ℕ) (users : Users) → moves_of users n s later ≡ moves_of users n s t }
    ensures wish { (s : Scenario) (t m later : ℕ) → least_above t (scenario_moments s) ≡ Some m → t ≤ later → later < m →
        (free : Bool) (prefer : ℕ) (wish : Wish) → WishesFirst s t free prefer wish → WishesFirst s later free prefer wish }
{}
