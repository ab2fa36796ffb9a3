// Further worked examples: the other executors, two scenarios, a full journal and control.
ghost use Rattle.std.specs.Prelude.{◌≡◌, ◌∷◌, [], Some, take, true, false};
ghost use Rattle.ld_base.specs.Stint.{stint_of};
ghost use Rattle.ld_base.specs.declared.act.Act.TheVariants.{Take, Start};
ghost use Rattle.ld_base.specs.declared.ask.Ask.TheVariants as asks;
ghost use Rattle.ld_base.specs.declared.command.Command.TheVariants.{Pause, Stop, Vus, VusMax};
ghost use Rattle.ld_base.specs.declared.reply.Reply.TheVariants.{Noted, Denied, Go, Halt, Alive, Wait, Over, Full};
ghost use Rattle.ld_base.specs.declared.reply.Room.TheVariants.{Entries, Samples};
ghost use Rattle.ld_machine.specs.State.{opening};
ghost use Rattle.ld_machine.specs.Effect.{state_after};
ghost use Rattle.ld_machine.specs.Step.{replies};
ghost use Rattle.ld_machine.specs.Samples.{tally_fits};
ghost use Rattle.ld_machine.specs.History.{IsLegal, first_illegal};
ghost use Rattle.ld_machine.specs.Settled.{IsSettled, unsettled};
ghost use Rattle.ld_machine.specs.Drops.{DropsAllowed};
ghost use Rattle.ld_machine.specs.Rehearsal.{IsRehearsed};
ghost use Rattle.ld_machine.specs.Examples.{line, with_line, moved_up, arrival_plan};
ghost use Rattle.ld_machine.specs.FurtherExamples.{ramping_plan, ramping_done, two_plan, two_done, arrivals_late, full_plan, full_lines, controlled_plan, controlled_stopped, sampling_plan, sampling_lines, one_sample};

/// Two users ramp up and down.
pub fn ramping_users()
    ensures legal { IsLegal ramping_plan ramping_done }
    ensures settled { IsSettled ramping_plan ramping_done }
    ensures rehearsed { IsRehearsed ramping_plan 10000000000 ramping_done }
    ensures early_take { first_illegal ramping_plan (with_line (line 1 0 4999999999 (Take 0 1 0)) ramping_done) ≡ Some 1 }
    ensures other_until { first_illegal ramping_plan (with_line (line 4 0 10000000000 (Start 0 2 1 50000000000)) ramping_done) ≡ Some 4 }
    ensures before_on { replies ramping_plan (opening ramping_plan) 0 asks.Act 0 ≡ Wait 5000000000 ∷ [] }
{}

/// The second of two scenarios takes the users that the first released.
pub fn two_scenarios()
    ensures legal { IsLegal two_plan two_done }
    ensures settled { IsSettled two_plan two_done }
    ensures rehearsed { IsRehearsed two_plan 8000000000 two_done }
    ensures other_scenario { first_illegal two_plan (with_line (line 11 0 15000000000 (Take 1 1 0)) two_done) ≡ Some 11 }
    ensures moved_close { first_illegal two_plan (moved_up 17 two_done) ≡ Some 16 }
{}

/// An arrival is late where the first thread comes behind the end.
pub fn late_arrivals()
    ensures legal { IsLegal (arrival_plan 1) arrivals_late }
    ensures settled { IsSettled (arrival_plan 1) arrivals_late }
    ensures drops { DropsAllowed (arrival_plan 1) arrivals_late }
{}

/// A journal of ten entries has no place for a fifth iteration, whose Return is counted in.
pub fn full_journal()
    ensures legal { IsLegal full_plan full_lines }
    ensures rehearsed { IsRehearsed full_plan 1000000000 full_lines }
    ensures refused { replies full_plan (state_after full_plan full_lines) 0 asks.Act 4000000000 ≡ Full Entries 11 10 ∷ [] }
    ensures unsettled { unsettled full_plan (state_after full_plan full_lines) ≡ Some (0, 0) }
{}

/// Users are commanded up to the greatest number, and a stop once.
pub fn controlled_users()
    ensures legal { IsLegal controlled_plan controlled_stopped }
    ensures settled { IsSettled controlled_plan controlled_stopped }
    ensures too_many { replies controlled_plan (opening controlled_plan) 1 (asks.Control (Vus 4)) 0 ≡ Denied ∷ [] }
    ensures too_great { replies controlled_plan (opening controlled_plan) 1 (asks.Control (VusMax 4)) 0 ≡ Denied ∷ [] }
    ensures noted { replies controlled_plan (opening controlled_plan) 1 (asks.Control (Vus 3)) 0 ≡ Noted ∷ [] }
    ensures second_stop { replies controlled_plan (state_after controlled_plan (take 6 controlled_stopped)) 1 (asks.Control Stop) 2000000000 ≡ Denied ∷ [] }
    ensures goes_on { replies controlled_plan (state_after controlled_plan (take 6 controlled_stopped)) 0 (asks.Check 0) 2000000000 ≡ Go ∷ [] }
    ensures halts { replies controlled_plan (state_after controlled_plan (take 7 controlled_stopped)) 0 (asks.Check 0) 2000000000 ≡ Halt ∷ [] }
    ensures stands { replies controlled_plan (state_after controlled_plan (take 7 controlled_stopped)) 1 asks.Look 2000000000 ≡ Alive false true 2 3 ∷ [] }
    ensures over { replies controlled_plan (state_after controlled_plan controlled_stopped) 1 asks.Act 2000000000 ≡ Over ∷ [] }
    ensures short_wait { replies controlled_plan (state_after controlled_plan (take 2 controlled_stopped)) 0 asks.Act 5 ≡ Wait 20000005 ∷ [] }
{}

/// A second iteration has no room for its samples, and a Return is of the thread that started the
/// iteration, with a tally that fits.
pub fn samples()
    ensures legal { IsLegal sampling_plan sampling_lines }
    ensures refused { replies sampling_plan (state_after sampling_plan sampling_lines) 0 asks.Act 0 ≡ Full Samples 12 10 ∷ [] }
    ensures noted { replies sampling_plan (state_after sampling_plan sampling_lines) 0 (asks.Return (stint_of 0 1 0 1000000000) true (one_sample 0 200 1)) 5 ≡ Noted ∷ [] }
    ensures other_thread { replies sampling_plan (state_after sampling_plan sampling_lines) 1 (asks.Return (stint_of 0 1 0 1000000000) true (one_sample 0 200 1)) 5 ≡ [] }
    ensures other_until { replies sampling_plan (state_after sampling_plan sampling_lines) 0 (asks.Return (stint_of 0 1 0 999999999) true (one_sample 0 200 1)) 5 ≡ [] }
    ensures no_such_check { tally_fits sampling_plan.names 6 (one_sample 0 200 2) ≡ false }
    ensures no_such_name { tally_fits sampling_plan.names 6 (one_sample 2 200 1) ≡ false }
    ensures counter { tally_fits sampling_plan.names 6 (one_sample 1 0 0) ≡ true }
    ensures counter_status { tally_fits sampling_plan.names 6 (one_sample 1 200 0) ≡ false }
    ensures too_many { tally_fits sampling_plan.names 0 (one_sample 0 200 1) ≡ false }
{}
