// The laws of valid plans, and examples of them.
ghost use Rattle.std.specs.Prelude.{◌≡◌, ◌≤◌, ℕ, List, IsTrue, Some};
ghost use Rattle.ld_machine.specs.Plan.{Arrival, PerVuIterations, Part, Plan, SlotItem, owned_items};
ghost use Rattle.ld_machine.specs.Scenario.{Scenario, least_open_arrival, least_open_item, open_items, slot_open_item};
ghost use Rattle.ld_machine.specs.Settled.{is_distinct};
ghost use Rattle.ld_machine.specs.Requirement.{IsRequirement};
ghost use Rattle.ld_machine.specs.ValidPlan.{IsValidPart, IsValidPlan, slot_open_items};
ghost use Rattle.ld_machine.specs.WellTimed.{WellTimed};
ghost use Rattle.ld_machine.specs.Together.{IsLeast};
ghost use Rattle.ld_machine.specs.Examples.{arrival_plan};
ghost use Rattle.ld_machine.specs.FurtherExamples.{ramping_plan};

/// Parts need one number of planned users and have one limit, and no more users are planned than the
/// limit.
pub fn one_requirement()
    ensures planned { (parts : List Part) (a b m n : ℕ) → IsRequirement parts a m → IsRequirement parts b n → a ≡ b }
    ensures limit { (parts : List Part) (a b m n : ℕ) → IsRequirement parts a m → IsRequirement parts b n → m ≡ n }
    ensures within { (parts : List Part) (planned limit : ℕ) → IsRequirement parts planned limit → planned ≤ limit }
{}

/// A valid plan is well timed, plans no more users than there may be, and no item of a part of it comes twice.
pub fn valid_plans_fit()
    ensures timed { (plan : Plan) → IsValidPlan plan → WellTimed plan }
    ensures within { (plan : Plan) → IsValidPlan plan → plan.planned ≤ plan.limit }
    ensures distinct { (part : Part) → IsValidPart part → IsTrue (is_distinct (owned_items part.executor)) }
{}

/// In a valid part the open item that comes first is the least: of the scenario, of its arrivals, and of
/// the items of one slot.
pub fn least_open()
    ensures item { (s : Scenario) (item : ℕ) → IsValidPart s.part → least_open_item s ≡ Some item → IsLeast (open_items s) item }
    ensures arrival { (s : Scenario) (a : Arrival) → IsValidPart s.part → least_open_arrival s ≡ Some a → IsLeast (open_items s) a.item }
    ensures slot { (s : Scenario) (slots : List ℕ) (items : List SlotItem) (slot item : ℕ) → IsValidPart s.part →
        s.part.executor ≡ PerVuIterations slots items → slot_open_item s items slot ≡ Some item → IsLeast (slot_open_items s items slot) item }
{}

/// Two plans that are valid.
pub fn two_valid_plans()
    ensures arrivals { IsValidPlan (arrival_plan 2) }
    ensures ramping { IsValidPlan ramping_plan }
{}
