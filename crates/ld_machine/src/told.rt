// What a scenario may be told.
ghost use Rattle.std.specs.Prelude.{◌≡◌, ◌∷◌, [], ℕ, true, Contains, IsTrue, List, None};
ghost use Rattle.ld_base.specs.declared.act.Act.{Act};
ghost use Rattle.ld_machine.specs.Acts.{acts_of};
ghost use Rattle.ld_machine.specs.Moves.{AnswerArrival, GrowAndStart, Move, TakeAndStart, TakeUser, Users, moves_of};
ghost use Rattle.ld_machine.specs.Scenario.{Scenario};
ghost use Rattle.ld_machine.specs.ShareEffect.{share_after};
ghost use Rattle.ld_machine.specs.Told.{IsHeldInOrder, MayBeTold, executor_has_place, newcomer_of, users_fit};

/// A scenario may be told of what its enabled acts write, one entry behind another. Where an act brings a user to it,
/// there is a place for one on that slot; of a user that is taken, where the scenario takes no more than it may hold.
pub fn enabled_may_be_told()
    ensures first { (n t : ℕ) (users : Users) (s : Scenario) (move : Move) (act : Act) (rest : List Act) →
        Contains (moves_of users n s t) move → acts_of move ≡ act ∷ rest → newcomer_of act ≡ None → MayBeTold s act }
    ensures taken { (n t user slot : ℕ) (users : Users) (s : Scenario) → users_fit s.part.executor ≡ true →
        Contains (moves_of users n s t) (TakeUser n user slot) → IsTrue (executor_has_place s.part.executor s slot) }
    ensures grown { (n t due item until user slot : ℕ) (users : Users) (s : Scenario) →
        Contains (moves_of users n s t) (AnswerArrival n due item until (GrowAndStart user slot)) →
        IsTrue (executor_has_place s.part.executor s slot) }
    ensures taken_for { (n t due item until user slot : ℕ) (users : Users) (s : Scenario) →
        Contains (moves_of users n s t) (AnswerArrival n due item until (TakeAndStart user slot)) →
        IsTrue (executor_has_place s.part.executor s slot) }
    ensures second { (n t thread reading : ℕ) (users : Users) (s : Scenario) (move : Move) (act next : Act) →
        Contains (moves_of users n s t) move → acts_of move ≡ act ∷ next ∷ [] →
        MayBeTold (record s { share = share_after s.part thread reading act s.share }) next }
{}

/// Held users stay in order of their numbers, each once, behind each act that the scenario may be told of.
pub fn told_in_order()
    ensures { (s : Scenario) (thread t : ℕ) (act : Act) → IsHeldInOrder s → MayBeTold s act →
        IsHeldInOrder (record s { share = share_after s.part thread t act s.share }) }
{}
