// Worked examples: histories that are legal, and the first illegal entry of changed ones.
ghost use Rattle.std.specs.Prelude.{◌≡◌, Some, None, take, false};
ghost use Rattle.ld_base.specs.declared.act.Act.TheVariants.{Take, Start, Drop, Return};
ghost use Rattle.ld_base.specs.declared.act.Outcome.TheVariants.{Done};
ghost use Rattle.ld_machine.specs.History.{IsLegal, first_illegal};
ghost use Rattle.ld_machine.specs.Settled.{IsSettled, is_settled};
ghost use Rattle.ld_machine.specs.Drops.{DropsAllowed};
ghost use Rattle.ld_machine.specs.OnTime.{IsOnTime};
ghost use Rattle.ld_machine.specs.Rehearsal.{IsRehearsed};
ghost use Rattle.ld_machine.specs.Examples.{line, no_samples, with_line, without_line, moved_up, arrival_plan, arrival_dropped, arrival_grown, per_vu_plan, per_vu_dropped, constant_plan, constant_done, constant_interrupted, shared_plan, shared_done};

/// An arrival that finds its one user busy is dropped where no more may be made.
pub fn dropped_arrival()
    ensures legal { IsLegal (arrival_plan 1) arrival_dropped }
    ensures settled { IsSettled (arrival_plan 1) arrival_dropped }
    ensures drops { DropsAllowed (arrival_plan 1) arrival_dropped }
    ensures on_time { IsOnTime (arrival_plan 1) arrival_dropped 1000000000 }
{}

/// Of that history, changed: a user that wasn't made; a drop before its moment; a drop in front of
/// a start; no release; no drop; or the end cut off, which is legal and not settled.
pub fn changed_dropped_arrival()
    ensures other_user { first_illegal (arrival_plan 1) (with_line (line 1 0 0 (Take 0 2 0)) arrival_dropped) ≡ Some 1 }
    ensures other_return { first_illegal (arrival_plan 1) (with_line (line 4 0 1000000000 (Return 0 2 0 Done no_samples)) arrival_dropped) ≡ Some 4 }
    ensures early_drop { first_illegal (arrival_plan 1) (with_line (line 3 0 499999999 (Drop 0 1)) arrival_dropped) ≡ Some 3 }
    ensures moved_drop { first_illegal (arrival_plan 1) (moved_up 3 arrival_dropped) ≡ Some 2 }
    ensures no_release { first_illegal (arrival_plan 1) (without_line 5 arrival_dropped) ≡ Some 5 }
    ensures no_drop { first_illegal (arrival_plan 1) (without_line 3 arrival_dropped) ≡ Some 5 }
    ensures cut { first_illegal (arrival_plan 1) (take 5 arrival_dropped) ≡ None }
    ensures unsettled { is_settled (arrival_plan 1) (take 5 arrival_dropped) ≡ false }
{}

/// It starts on a user that is made for it where one more may be made.
pub fn grown_arrival()
    ensures legal { IsLegal (arrival_plan 2) arrival_grown }
    ensures settled { IsSettled (arrival_plan 2) arrival_grown }
    ensures drops { DropsAllowed (arrival_plan 2) arrival_grown }
    ensures on_time { IsOnTime (arrival_plan 2) arrival_grown 1500000000 }
{}

/// Of that history, changed: the arrival starts on the busy user; a start in front of its growth;
/// no start behind the growth; the end cut off between the two; or another limit.
pub fn changed_grown_arrival()
    ensures other_user { first_illegal (arrival_plan 2) (with_line (line 4 0 500000000 (Start 0 1 1 31000000000)) arrival_grown) ≡ Some 4 }
    ensures moved_start { first_illegal (arrival_plan 2) (moved_up 4 arrival_grown) ≡ Some 3 }
    ensures no_start { first_illegal (arrival_plan 2) (without_line 4 arrival_grown) ≡ Some 4 }
    ensures cut { first_illegal (arrival_plan 2) (take 3 arrival_grown) ≡ Some 3 }
    ensures dropped { first_illegal (arrival_plan 2) arrival_dropped ≡ Some 3 }
    ensures grown { first_illegal (arrival_plan 1) arrival_grown ≡ Some 3 }
{}

/// Of three iterations of two seconds in three seconds, the third is dropped at the end.
pub fn dropped_iteration()
    ensures legal { IsLegal per_vu_plan per_vu_dropped }
    ensures settled { IsSettled per_vu_plan per_vu_dropped }
    ensures drops { DropsAllowed per_vu_plan per_vu_dropped }
    ensures on_time { IsOnTime per_vu_plan per_vu_dropped 4000000000 }
{}

/// Of that history, changed: a user that wasn't made; a drop before the end; a start in front of
/// the return that frees its user; or no drop.
pub fn changed_dropped_iteration()
    ensures other_user { first_illegal per_vu_plan (with_line (line 1 0 0 (Take 0 2 0)) per_vu_dropped) ≡ Some 1 }
    ensures early_drop { first_illegal per_vu_plan (with_line (line 5 0 2999999999 (Drop 0 2)) per_vu_dropped) ≡ Some 5 }
    ensures moved_start { first_illegal per_vu_plan (moved_up 4 per_vu_dropped) ≡ Some 3 }
    ensures no_drop { first_illegal per_vu_plan (without_line 5 per_vu_dropped) ≡ Some 7 }
{}

/// An iteration that ends at its hard moment is done.
pub fn iteration_done()
    ensures legal { IsLegal constant_plan constant_done }
    ensures settled { IsSettled constant_plan constant_done }
    ensures on_time { IsOnTime constant_plan constant_done 1500000000 }
{}

/// An iteration that would end behind its hard moment is interrupted.
pub fn iteration_interrupted()
    ensures legal { IsLegal constant_plan constant_interrupted }
    ensures settled { IsSettled constant_plan constant_interrupted }
{}

/// Of the first history, changed: a user that wasn't made; another `until`; a return behind `until`
/// that counts as done; a release in front of the return; or no start.
pub fn changed_iteration_done()
    ensures other_user { first_illegal constant_plan (with_line (line 2 0 0 (Start 0 2 0 1500000000)) constant_done) ≡ Some 2 }
    ensures other_until { first_illegal constant_plan (with_line (line 2 0 0 (Start 0 1 0 1499999999)) constant_done) ≡ Some 2 }
    ensures late_return { first_illegal constant_plan (with_line (line 3 0 1500000001 (Return 0 1 0 Done no_samples)) constant_done) ≡ Some 3 }
    ensures moved_release { first_illegal constant_plan (moved_up 4 constant_done) ≡ Some 3 }
    ensures no_start { first_illegal constant_plan (without_line 2 constant_done) ≡ Some 2 }
{}

/// Each of these histories is what a rehearsal plays, with iterations of so many nanoseconds.
pub fn rehearsals()
    ensures arrival_dropped { IsRehearsed (arrival_plan 1) 1000000000 arrival_dropped }
    ensures arrival_grown { IsRehearsed (arrival_plan 2) 1000000000 arrival_grown }
    ensures per_vu_dropped { IsRehearsed per_vu_plan 2000000000 per_vu_dropped }
    ensures constant_done { IsRehearsed constant_plan 1500000000 constant_done }
    ensures constant_interrupted { IsRehearsed constant_plan 1500000001 constant_interrupted }
    ensures shared_done { IsRehearsed shared_plan 1000000000 shared_done }
{}

/// Five iterations that two users share.
pub fn shared_iterations()
    ensures legal { IsLegal shared_plan shared_done }
    ensures settled { IsSettled shared_plan shared_done }
{}
