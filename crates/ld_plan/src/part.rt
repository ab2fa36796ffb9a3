ghost use Rattle.std.specs.Prelude.{◌≡◌, ◌<◌, ◌≤◌};

use crate::executor::length_of;
use crate::fault::PlanFault;
use crate::owned_items::OwnedItems;
use crate::owned_part::OwnedPart;
use crate::row::Row;
use crate::stay::Stay;
use ld_base::Text;
use ld_options::Scenario;
use ld_stripe::Stripe;
use std::alloc::Global;
use std::marker::Model;

// What an instance owns of one scenario: what each scenario has, and the users and items that are owned of it. It is seen
// as its part of the machine's plan, beside the scenario of the whole test.
#[derive(Drop)]
pub struct Part {
    name: Text,
    begin: u64,
    end: u64,
    grace: u64,
    room: u32,
    owned: OwnedItems,
}

impl Model for Part {
    ghost use Rattle.ld_plan.specs.PartView.{PartView};

    ghost Value = { PartView };

    ghost use Rattle.ld_plan.specs.Part.{part_view};

    ghost view = { part_view };
}

impl Part {
    ghost use Rattle.std.specs.Prelude.{◌≡◌, ◌≢◌, ◌<◌, ◌≤◌, ◌↔◌, ◌+◌, ◌∷◌, [], ℕ, IsTrue, IfOk, IfErr, IsSomeAnd, Contains, length, max};
    ghost use Rattle.ld_arrival.specs.Limits.{most_arrivals};
    ghost use Rattle.ld_arrival.specs.Timetable.{moment_of};
    ghost use Rattle.ld_machine.specs.Moment.{moment_after};
    ghost use Rattle.ld_machine.specs.Plan.{Arrival, due_moment, owned_items};
    ghost use Rattle.ld_machine.specs.Scenario.{executor_arrivals};
    ghost use Rattle.ld_options.specs.Ranges.{IsScenarioInRange, most_items};
    ghost use Rattle.ld_plan.specs.Executor.{timetable_of};
    ghost use Rattle.ld_plan.specs.IsPlanOf.{IsPartOf};
    ghost use Rattle.ld_plan.specs.OwnedPart.{IsSmallPart, executor_of};
    ghost use Rattle.ld_plan.specs.PartView.{PartView};
    ghost use Rattle.ld_plan.specs.PlanFault.{IsManyOf};
    ghost use Rattle.ld_plan.specs.PlanView.{arrival_count};
    ghost use Rattle.ld_plan.specs.Row.{row_of};
    ghost use Rattle.ld_plan.specs.Stay.{limit_at, planned_at};
    ghost use Rattle.ld_machine.specs.Requirement.{executor_extra, executor_need, most_owned_users, owned_users};
    ghost use Rattle.ld_plan.specs.declared.fault.PlanFault.TheVariants.{Memory};

    // What a position owns of the scenario of this number, whose iterations give at most `room`
    // samples. The positions have this striping.
    pub fn of(
        alloc: Global,
        number: u16,
        scenario: &Scenario,
        room: u32,
        positions: &Stripe,
        position: usize,
    ) -> Result<Part, PlanFault>
        requires in_range { IsScenarioInRange scenario.now }
        requires inside { position < length positions.now.weights }
        ensures part { IfOk result (IsPartOf room positions.now position scenario.now) }
        ensures few { IfOk result (λ _. arrival_count (timetable_of scenario.now.executor) ≤ most_arrivals) }
        ensures refused { IfErr result (λ f. f ≢ Memory → IsManyOf (timetable_of scenario.now.executor) number f) }
    {
        let owned = OwnedItems::of(alloc, number, &scenario.executor, positions, position)?;
        let name = Text::of(Vec::from_slice(alloc, scenario.name.as_slice())?);
        let length = length_of(&scenario.executor);
        Ok(Part {
            name,
            begin: scenario.begin,
            end: scenario.begin.saturating_add(length),
            grace: scenario.grace,
            room,
            owned,
        })
    }

    // The scenario's name.
    pub fn name(&self) -> &Text
        ensures { result.now ≡ self.now.whole.name }
    {
        &self.name
    }

    // How many items the whole test has.
    pub fn whole_items(&self) -> u64
        ensures items { result ≡ self.now.part.whole_items }
        ensures few { result ≤ most_items }
    {
        self.owned.whole_items()
    }

    // How many arrivals the whole test has.
    pub fn arrivals(&self) -> u64
        ensures arrivals { result ≡ arrival_count self.now.whole.timetable }
        ensures few { result ≤ most_arrivals }
    {
        self.owned.arrivals()
    }

    // How many items the instance owns.
    pub fn owned(&self) -> u64
        ensures owned { result ≡ length (owned_items self.now.part.executor) }
        ensures few { result ≤ most_items }
    {
        self.owned.owned()
    }

    // Whether the instance owns this item.
    pub fn owns(&self, item: u64) -> bool
        requires { item < self.now.part.whole_items }
        ensures { IsTrue result ↔ Contains (owned_items self.now.part.executor) item }
    {
        self.owned.owns(item)
    }

    // The moment at which an arrival is due, in nanoseconds from the run's start.
    pub fn moment(&self, item: u64) -> u64
        requires { item < arrival_count self.now.whole.timetable }
        ensures moment { IsSomeAnd self.now.whole.timetable (λ timetable.
            result ≡ moment_after self.now.part.begin (moment_of timetable item)) }
        ensures due { (a : Arrival) → Contains (executor_arrivals self.now.part.executor) a → a.item ≡ item →
            result ≡ due_moment self.now.part a }
    {
        self.begin.saturating_add(self.owned.moment(item))
    }

    // How long its iterations may last behind its end.
    pub fn grace(&self) -> u64
        ensures { result ≡ self.now.part.grace }
    {
        self.grace
    }

    // How many samples an iteration may give.
    pub fn sample_room(&self) -> u32
        ensures { result ≡ self.now.part.sample_room }
    {
        self.room
    }

    // The numbers of the scenario.
    pub fn row(&self) -> Row
        ensures { result ≡ row_of self.now.part }
    {
        let users = self.owned.users();
        Row {
            begin: self.begin,
            end: self.end,
            hard: self.end.saturating_add(self.grace),
            users: users.planned,
            max: users.limit,
            items: self.owned(),
        }
    }

    // The stay of its users, from its begin up to its hard moment.
    pub fn stay(&self) -> Stay
        ensures planned { (t : ℕ) →
            planned_at (result ∷ []) t ≡ executor_need self.now.part.executor self.now.part t }
        ensures limit { (t : ℕ) →
            limit_at (result ∷ []) t
            ≡ executor_need self.now.part.executor self.now.part t + executor_extra self.now.part.executor self.now.part t }
        ensures users { result.planned ≡ owned_users self.now.part.executor }
        ensures most { result.limit ≡ max (owned_users self.now.part.executor) (most_owned_users self.now.part.executor) }
    {
        let users = self.owned.users();
        Stay {
            from: self.begin,
            until: self.end.saturating_add(self.grace),
            planned: users.planned,
            limit: users.planned.max(users.limit),
        }
    }

    // What is owned of its users and items, for who plays it.
    pub fn owned_part(&self, alloc: Global) -> Result<OwnedPart, PlanFault>
        ensures owned { IfOk result (λ owned. executor_of owned ≡ self.now.part.executor) }
        ensures small { IfOk result IsSmallPart }
        ensures memory { IfErr result (λ f. f ≡ Memory) }
    {
        self.owned.part(alloc)
    }
}
