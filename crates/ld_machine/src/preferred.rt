// The laws of steps with a preferred user.
ghost use Rattle.std.specs.Prelude.{◌≡◌, ℕ, Contains, Some};
ghost use Rattle.ld_base.specs.declared.ask.Ask.{Ask};
ghost use Rattle.ld_base.specs.declared.ask.Ask.TheVariants as asks;
ghost use Rattle.ld_machine.specs.Plan.{Plan};
ghost use Rattle.ld_machine.specs.State.{State};
ghost use Rattle.ld_machine.specs.Moves.{Move};
ghost use Rattle.ld_machine.specs.Order.{first_moves};
ghost use Rattle.ld_machine.specs.Step.{IsStep, Result, move_result};
ghost use Rattle.ld_machine.specs.Preferred.{IsStepAs, preferred_for, user_of};
ghost use Rattle.ld_machine.specs.Together.{WellHeld};

/// A step with a preferred user is a step, and there is one wherever there is a step. Where a first act
/// is on the preferred user, what comes is what such an act gives. Where none is preferred, each step is
/// such a one.
pub fn preferred_steps()
    ensures steps { (plan : Plan) (state : State) (thread : ℕ) (ask : Ask) (t prefer : ℕ) (result_of : Result) →
        IsStepAs plan state thread ask t prefer result_of → IsStep plan state thread ask t result_of }
    ensures some { (plan : Plan) (state : State) (thread : ℕ) (ask : Ask) (t prefer : ℕ) (result_of : Result) →
        IsStep plan state thread ask t result_of → (other : Result) × IsStepAs plan state thread ask t prefer other }
    ensures chosen { (plan : Plan) (state : State) (thread t prefer : ℕ) (m : Move) (result_of : Result) →
        Contains (first_moves plan state t) m → user_of m ≡ Some prefer → IsStepAs plan state thread asks.Act t prefer result_of →
        (other : Move) × Contains (first_moves plan state t) other × (user_of other ≡ Some prefer) × (result_of ≡ move_result plan state thread t other) }
    ensures nobody { (plan : Plan) (state : State) (thread : ℕ) (ask : Ask) (t : ℕ) (result_of : Result) → WellHeld state →
        IsStep plan state thread ask t result_of → IsStepAs plan state thread ask t 0 result_of }
{}

/// Where no user is held twice, of the first acts one at most is on a user. So the step that adds some
/// entries is the one that comes where the user of the first entry is preferred, and no other comes then.
pub fn steps_again()
    ensures one { (plan : Plan) (state : State) (t user : ℕ) (a b : Move) → WellHeld state → Contains (first_moves plan state t) a →
        Contains (first_moves plan state t) b → user_of a ≡ Some user → user_of b ≡ Some user → a ≡ b }
    ensures again { (plan : Plan) (state : State) (thread : ℕ) (ask : Ask) (t : ℕ) (result_of : Result) → WellHeld state →
        IsStep plan state thread ask t result_of → IsStepAs plan state thread ask t (preferred_for result_of.entries) result_of }
    ensures alone { (plan : Plan) (state : State) (thread : ℕ) (ask : Ask) (t : ℕ) (a b : Result) → WellHeld state →
        IsStep plan state thread ask t a → IsStepAs plan state thread ask t (preferred_for a.entries) b → b ≡ a }
{}
