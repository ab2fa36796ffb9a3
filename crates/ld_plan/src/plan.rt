use crate::fault::PlanFault;
use crate::owned::owned_of;
use crate::owned_part::OwnedPart;
use crate::part::Part;
use crate::row::Row;
use crate::users::Users;
use ld_base::Text;
use ld_options::Options;
use ld_segment::{Segment, Sequence};
use std::alloc::Global;
use std::marker::Model;

/// The plan of one instance: what a segment of a sequence owns of a test, and how many users that
/// needs. It is seen as the plan of the pool's machine, beside the position that it plays, the
/// scenarios of the whole test, and the options and the sequence that it was made of.
///
/// Scenarios are numbered from 0, in byte order of their names. Items are numbered from 0, over the
/// whole test.
#[derive(Drop)]
pub struct Plan {
    options: Options,
    sequence: Sequence,
    position: usize,
    parts: Vec<Part>,
    users: Users,
    entries: u32,
}

impl Model for Plan {
    ghost use Rattle.ld_plan.specs.PlanView.{PlanView};

    ghost Value = { PlanView };

    ghost use Rattle.ld_plan.specs.Plan.{plan_view, IsPlan};

    ghost view = { plan_view };

    ghost invariant = { IsPlan };
}

impl Plan {
    ghost use Rattle.std.specs.Prelude.{◌≡◌, ◌≢◌, ◌<◌, ◌≤◌, ◌↔◌, Some, IsTrue, IfOk, IfErr, IsSomeAnd, Contains, length, slice_get};
    ghost use Rattle.ld_segment.specs.Points.{IsFilled};
    ghost use Rattle.ld_segment.specs.Segments.{segments_of};
    ghost use Rattle.ld_arrival.specs.Limits.{most_arrivals};
    ghost use Rattle.ld_arrival.specs.Timetable.{moment_of};
    ghost use Rattle.ld_machine.specs.Moment.{moment_after};
    ghost use Rattle.ld_machine.specs.Plan.{Arrival, Part, due_moment, owned_items};
    ghost use Rattle.ld_machine.specs.Scenario.{executor_arrivals};
    ghost use Rattle.ld_machine.specs.Settled.{is_distinct};
    ghost use Rattle.ld_machine.specs.Told.{users_fit};
    ghost use Rattle.ld_machine.specs.WellTimed.{WellTimed};
    ghost use Rattle.ld_plan.specs.OwnedPart.{IsSmallPart, executor_of};
    ghost use Rattle.ld_plan.specs.Plan.{IsMade};
    ghost use Rattle.ld_plan.specs.PlanFault.{IsAccepted, IsRefusal};
    ghost use Rattle.ld_plan.specs.PlanView.{arrival_count};
    ghost use Rattle.ld_options.specs.Ranges.{most_items, most_users};
    ghost use Rattle.ld_plan.specs.IsPlanOf.{IsPlanOf};
    ghost use Rattle.ld_machine.specs.Requirement.{IsRequirement};
    ghost use Rattle.ld_machine.specs.ValidPlan.{IsValidPlan};
    ghost use Rattle.ld_plan.specs.Row.{row_of};
    ghost use Rattle.ld_plan.specs.declared.fault.PlanFault.{PlanFault};
    ghost use Rattle.ld_plan.specs.declared.fault.PlanFault.TheVariants.{Memory};

    /// The plan of the instance that plays a segment of a filled sequence, with at most `entries`
    /// entries in its journal, from 10 to 1,000,000.
    ///
    /// Refused are, in this order: a segment that is none of the sequence; a period of the sequence of
    /// more than 100,000; the first scenario with more than 400,000 planned arrivals, over the whole
    /// test; scenarios that may have more than 1,000 users together at one moment of the whole test; and
    /// `entries` below 2 for each owned item plus 1 for each scenario.
    pub fn of(
        alloc: Global,
        options: Options,
        segment: Segment,
        sequence: Sequence,
        entries: u32,
    ) -> Result<Plan, PlanFault>
        requires filled { IsFilled sequence }
        requires least { 10 ≤ entries }
        requires most { entries ≤ 1000000 }
        ensures plan { IfOk result (IsPlanOf options segment sequence entries) }
        ensures accepted { IfOk result (λ _. IsAccepted options segment sequence entries) }
        ensures unrefused { IfOk result (λ _. (f : PlanFault) → IsRefusal options segment sequence entries f → ⊥) }
        ensures refused { IfErr result (λ f. f ≢ Memory → IsRefusal options segment sequence entries f) }
    {
        match owned_of(alloc, &options, &segment, &sequence, entries) {
            Ok(owned) => Ok(Plan {
                options,
                sequence,
                position: owned.position,
                parts: owned.parts,
                users: owned.users,
                entries,
            }),
            Err(fault) => Err(fault),
        }
    }

    /// The options of the test.
    pub fn options(&self) -> &Options
        ensures options { result.now ≡ self.now.options }
        ensures made { IsMade self.now }
    {
        &self.options
    }

    /// The sequence that cuts the test.
    pub fn sequence(&self) -> &Sequence
        ensures sequence { result.now ≡ self.now.sequence }
        ensures filled { IsFilled self.now.sequence }
    {
        &self.sequence
    }

    /// The position of the sequence that the instance plays, from 0.
    pub fn position(&self) -> usize
        ensures position { result ≡ self.now.position }
        ensures inside { result < length (segments_of self.now.sequence) }
    {
        self.position
    }

    /// How many users the plan needs. It is a valid plan: its items rise, and its arrivals are due before
    /// the ends of their scenarios.
    pub fn users(&self) -> Users
        ensures planned { result.planned ≡ self.now.plan.planned }
        ensures limit { result.limit ≡ self.now.plan.limit }
        ensures requirement { IsRequirement self.now.plan.parts result.planned result.limit }
        ensures within { result.planned ≤ result.limit }
        ensures most { result.limit ≤ most_users }
        ensures timed { WellTimed self.now.plan }
        ensures valid { IsValidPlan self.now.plan }
    {
        self.users
    }

    /// How many entries the instance's journal may have, from 10 to 1,000,000.
    pub fn entries(&self) -> u32
        ensures entries { result ≡ self.now.plan.entry_limit }
        ensures least { 10 ≤ result }
        ensures most { result ≤ 1000000 }
    {
        self.entries
    }

    /// How many scenarios there are: one at least.
    pub fn scenarios(&self) -> u16
        ensures count { result ≡ length self.now.plan.parts }
        ensures whole { result ≡ length self.now.wholes }
        ensures some { 0 < result }
    {
        self.parts.len() as u16
    }

    // The part of a scenario.
    fn part(&self, scenario: u16) -> &Part
        requires { scenario < length self.now.plan.parts }
        ensures part { slice_get self.now.plan.parts scenario ≡ Some result.now.part }
        ensures whole { slice_get self.now.wholes scenario ≡ Some result.now.whole }
        ensures made { IsMade self.now }
    {
        &self.parts[scenario as usize]
    }

    /// A scenario's name.
    pub fn name(&self, scenario: u16) -> &Text
        requires { scenario < length self.now.plan.parts }
        ensures { IsSomeAnd (slice_get self.now.wholes scenario) (λ whole. result.now ≡ whole.name) }
    {
        self.part(scenario).name()
    }

    /// How many items of a scenario the whole test has.
    pub fn whole_items(&self, scenario: u16) -> u64
        requires { scenario < length self.now.plan.parts }
        ensures { IsSomeAnd (slice_get self.now.plan.parts scenario) (λ part. result ≡ part.whole_items) }
    {
        self.part(scenario).whole_items()
    }

    /// How many arrivals of a scenario the whole test has: none where its executor has no arrivals.
    pub fn arrivals(&self, scenario: u16) -> u64
        requires { scenario < length self.now.plan.parts }
        ensures arrivals { IsSomeAnd (slice_get self.now.wholes scenario) (λ whole. result ≡ arrival_count whole.timetable) }
        ensures few { result ≤ most_arrivals }
    {
        self.part(scenario).arrivals()
    }

    /// How many items of a scenario the instance owns.
    pub fn owned(&self, scenario: u16) -> u64
        requires { scenario < length self.now.plan.parts }
        ensures owned { IsSomeAnd (slice_get self.now.plan.parts scenario) (λ part. result ≡ length (owned_items part.executor)) }
        ensures few { result ≤ most_items }
    {
        self.part(scenario).owned()
    }

    /// Whether the instance owns an item of a scenario. The item is below the whole's number.
    pub fn owns(&self, scenario: u16, item: u64) -> bool
        requires { IsSomeAnd (slice_get self.now.plan.parts scenario) (λ part. item < part.whole_items) }
        ensures { IsSomeAnd (slice_get self.now.plan.parts scenario) (λ part. IsTrue result ↔ Contains (owned_items part.executor) item) }
    {
        self.part(scenario).owns(item)
    }

    /// The moment at which an arrival of a scenario is due, in nanoseconds from the run's start. The
    /// arrival is below the whole's number, and the instance need not own it.
    pub fn moment(&self, scenario: u16, item: u64) -> u64
        requires inside { scenario < length self.now.plan.parts }
        requires below { IsSomeAnd (slice_get self.now.wholes scenario) (λ whole. item < arrival_count whole.timetable) }
        ensures moment { IsSomeAnd (slice_get self.now.plan.parts scenario) (λ part.
            IsSomeAnd (slice_get self.now.wholes scenario) (λ whole.
            IsSomeAnd whole.timetable (λ timetable. result ≡ moment_after part.begin (moment_of timetable item)))) }
        ensures due { IsSomeAnd (slice_get self.now.plan.parts scenario) (λ part.
            (a : Arrival) → Contains (executor_arrivals part.executor) a → a.item ≡ item → result ≡ due_moment part a) }
    {
        self.part(scenario).moment(item)
    }

    /// The numbers of a scenario.
    pub fn row(&self, scenario: u16) -> Row
        requires { scenario < length self.now.plan.parts }
        ensures { IsSomeAnd (slice_get self.now.plan.parts scenario) (λ part. result ≡ row_of part) }
    {
        self.part(scenario).row()
    }

    /// How long a scenario's iterations may last behind its end, in nanoseconds.
    pub fn grace(&self, scenario: u16) -> u64
        requires { scenario < length self.now.plan.parts }
        ensures { IsSomeAnd (slice_get self.now.plan.parts scenario) (λ part. result ≡ part.grace) }
    {
        self.part(scenario).grace()
    }

    /// How many samples an iteration of a scenario may give.
    pub fn sample_room(&self, scenario: u16) -> u32
        requires { scenario < length self.now.plan.parts }
        ensures { IsSomeAnd (slice_get self.now.plan.parts scenario) (λ part. result ≡ part.sample_room) }
    {
        self.part(scenario).sample_room()
    }

    /// What the instance owns of a scenario, for who plays it: no more users at its begin than at most,
    /// distinct items, and of the whole test at most 400,000 items and 1,000 slots.
    ///
    /// Fails where there is no memory for it.
    pub fn owned_part(&self, alloc: Global, scenario: u16) -> Result<OwnedPart, PlanFault>
        requires { scenario < length self.now.plan.parts }
        ensures owned { IfOk result (λ owned. IsSomeAnd (slice_get self.now.plan.parts scenario)
            (λ part. executor_of owned ≡ part.executor)) }
        ensures users { IfOk result (λ owned. IsTrue (users_fit (executor_of owned))) }
        ensures distinct { IfOk result (λ owned. IsTrue (is_distinct (owned_items (executor_of owned)))) }
        ensures small { IfOk result IsSmallPart }
        ensures memory { IfErr result (λ f. f ≡ Memory) }
    {
        self.part(scenario).owned_part(alloc)
    }
}
