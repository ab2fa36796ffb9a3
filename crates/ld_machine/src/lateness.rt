// The laws of lateness: what a rehearsal says of arrivals that are counted late.
ghost use Rattle.std.specs.Prelude.{◌≡◌, ℕ, List, None, IsTrue, false};
ghost use Rattle.ld_base.specs.declared.entry.Entry.{Entry};
ghost use Rattle.ld_machine.specs.Plan.{Plan};
ghost use Rattle.ld_machine.specs.Rehearsal.{FirstRefusal, IsRehearsed, nothing_late};
ghost use Rattle.ld_machine.specs.WellTimed.{WellTimed};
ghost use Rattle.ld_machine.specs.Examples.{arrival_plan, arrival_dropped};
ghost use Rattle.ld_machine.specs.FurtherExamples.{arrivals_late};

/// Where arrivals are planned before the ends of their scenarios, a rehearsal that has room for each
/// first act counts no arrival late.
pub fn never_late()
    ensures { (plan : Plan) (long : ℕ) (history : List Entry) → WellTimed plan → IsRehearsed plan long history →
        FirstRefusal plan history None → IsTrue (nothing_late history) }
{}

/// A plan of two arrivals is well timed, and its rehearsal has room for each first act. Where the first
/// thread comes behind the end, both arrivals are late.
pub fn arrivals_on_time()
    ensures timed { WellTimed (arrival_plan 1) }
    ensures room { FirstRefusal (arrival_plan 1) arrival_dropped None }
    ensures late { nothing_late arrivals_late ≡ false }
{}
