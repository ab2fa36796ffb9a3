// What a position owns of a scenario of arrivals.
ghost use Rattle.std.specs.Prelude.{◌≡◌, ◌≢◌, ◌≤◌, IfErr, IfOk, Some, length};
ghost use Rattle.ld_arrival.specs.Limits.{IsWithinLimits, most_arrivals};
ghost use Rattle.ld_arrival.specs.Timetable.{Ramping, planned_count};
ghost use Rattle.ld_options.specs.Ranges.{most_stages};
ghost use Rattle.ld_plan.specs.OwnedItems.{timetable_at};
ghost use Rattle.ld_plan.specs.PlanFault.{IsManyOf};
ghost use Rattle.ld_plan.specs.declared.fault.PlanFault.TheVariants.{Memory};

use crate::fault::PlanFault;
use crate::owned_part::OwnedPart;
use crate::striping::{copy_of, of_items, share_of};
use crate::users::Users;
use ld_arrival::{ArrivalFault, Arrivals, Ticker};
use ld_base::Stage;
use ld_stripe::Stripe;
use std::alloc::Global;
use std::marker::Model;

// A constant rate of arrivals: `rate` in each `unit`, for `duration`. Times are in nanoseconds.
#[derive(Clone, Copy)]
pub struct ConstantRate {
    pub rate: u64,
    pub unit: u64,
    pub duration: u64,
}

// What a position owns of a scenario of arrivals: so many users before the begin and so many at most, and of the arrivals
// those that the stripe gives to it.
#[derive(Drop)]
pub struct OwnedArrivals {
    pre: u32,
    max: u32,
    position: usize,
    arrivals: Arrivals,
    items: Stripe,
}

impl Model for OwnedArrivals {
    ghost use Rattle.ld_plan.specs.OwnedItems.{ArrivalsView};

    ghost Value = { ArrivalsView };

    ghost use Rattle.ld_plan.specs.OwnedArrivals.{arrivals_view, AreOwnedArrivals};

    ghost view = { arrivals_view };

    ghost invariant = { AreOwnedArrivals };
}

impl OwnedArrivals {
    ghost use Rattle.std.specs.Prelude.{◌≡◌, ◌≢◌, ◌<◌, ◌≤◌, ◌↔◌, ℕ, IsTrue, IfOk, IfErr, Some, Contains, length, map};
    ghost use Rattle.ld_arrival.specs.Limits.{IsWithinLimits, most_arrivals};
    ghost use Rattle.ld_arrival.specs.Timetable.{Ramping, moment_of, planned_count};
    ghost use Rattle.ld_machine.specs.Plan.{owned_items};
    ghost use Rattle.ld_machine.specs.Requirement.{most_owned_users, owned_users};
    ghost use Rattle.ld_machine.specs.Scenario.{executor_arrivals};
    ghost use Rattle.ld_options.specs.Ranges.{IsInRange, most_users};
    ghost use Rattle.ld_plan.specs.OwnedItems.{AreArrivalsOf, AreDueAt, IsOwnedOf, constant_arrivals, ramping_arrivals, timetable_at, view_of_arrivals};
    ghost use Rattle.ld_plan.specs.OwnedPart.{IsSmallPart, executor_of};
    ghost use Rattle.ld_plan.specs.Stay.{IsSteady};
    ghost use Rattle.ld_plan.specs.PlanFault.{IsManyOf};
    ghost use Rattle.ld_plan.specs.PlanView.{arrival_of};
    ghost use Rattle.ld_plan.specs.declared.fault.PlanFault.TheVariants.{Memory};

    // What a position owns of the scenario of this number, whose arrivals come at this constant rate, and which has so
    // many users. The positions have this striping.
    pub fn constant(
        alloc: Global,
        number: u16,
        rate: ConstantRate,
        users: Users,
        positions: &Stripe,
        position: usize,
    ) -> Result<OwnedArrivals, PlanFault>
        requires in_range { IsInRange (constant_arrivals rate users) }
        requires inside { position < length positions.now.weights }
        ensures owned { IfOk result (λ owned.
            IsOwnedOf positions.now position (constant_arrivals rate users) (view_of_arrivals owned)) }
        ensures few { IfOk result (λ _. planned_count (timetable_at rate) ≤ most_arrivals) }
        ensures refused { IfErr result (λ f. f ≢ Memory → IsManyOf (Some (timetable_at rate)) number f) }
    {
        let arrivals = at_constant_rate(alloc, rate, number)?;
        OwnedArrivals::of(alloc, arrivals, users, positions, position)
    }

    // The same of a scenario whose arrivals come at a rate that ramps through stages. Times are in nanoseconds.
    pub fn ramping(
        alloc: Global,
        number: u16,
        start_rate: u64,
        unit: u64,
        stages: &[Stage],
        users: Users,
        positions: &Stripe,
        position: usize,
    ) -> Result<OwnedArrivals, PlanFault>
        requires in_range { IsInRange (ramping_arrivals start_rate unit stages.now users) }
        requires inside { position < length positions.now.weights }
        ensures owned { IfOk result (λ owned.
            IsOwnedOf positions.now position (ramping_arrivals start_rate unit stages.now users) (view_of_arrivals owned)) }
        ensures few { IfOk result (λ _. planned_count (Ramping start_rate unit stages.now) ≤ most_arrivals) }
        ensures refused { IfErr result (λ f. f ≢ Memory → IsManyOf (Some (Ramping start_rate unit stages.now)) number f) }
    {
        let arrivals = at_ramping_rate(alloc, start_rate, unit, stages, number)?;
        OwnedArrivals::of(alloc, arrivals, users, positions, position)
    }

    // What a position owns of these arrivals of the whole test, of a scenario which has so many users.
    fn of(
        alloc: Global,
        arrivals: Arrivals,
        users: Users,
        positions: &Stripe,
        position: usize,
    ) -> Result<OwnedArrivals, PlanFault>
        requires limits { IsWithinLimits arrivals }
        requires some { 1 ≤ users.limit }
        requires few_users { users.limit ≤ most_users }
        requires inside { position < length positions.now.weights }
        ensures owned { IfOk result (AreArrivalsOf positions.now position users arrivals) }
        ensures memory { IfErr result (λ f. f ≡ Memory) }
    {
        let items = of_items(alloc, positions, users.limit)?;
        Ok(OwnedArrivals {
            pre: share_of(positions, position, users.planned),
            max: share_of(positions, position, users.limit),
            position,
            arrivals,
            items,
        })
    }

    // How many arrivals the whole test has.
    pub fn whole_items(&self) -> u64
        ensures items { result ≡ planned_count self.now.timetable }
        ensures few { result ≤ most_arrivals }
    {
        self.arrivals.count()
    }

    // How many arrivals the position owns.
    pub fn owned(&self) -> u64
        ensures owned { result ≡ length (owned_items self.now.executor) }
        ensures few { result ≤ most_arrivals }
    {
        self.items.share(self.position, self.arrivals.count())
    }

    // Whether the position owns this arrival.
    pub fn owns(&self, item: u64) -> bool
        requires { item < planned_count self.now.timetable }
        ensures { IsTrue result ↔ Contains (owned_items self.now.executor) item }
    {
        self.items.owner(item) == self.position
    }

    // The moment at which an arrival is due, in nanoseconds from the scenario's begin.
    pub fn moment(&self, item: u64) -> u64
        requires { item < planned_count self.now.timetable }
        ensures moment { result ≡ moment_of self.now.timetable item }
        ensures due { AreDueAt self.now.executor item result }
    {
        self.arrivals.moment(item)
    }

    // How many users the position has of the scenario.
    pub fn users(&self) -> Users
        ensures planned { result.planned ≡ owned_users self.now.executor }
        ensures limit { result.limit ≡ most_owned_users self.now.executor }
        ensures steady { IsSteady self.now.executor }
    {
        Users {
            planned: self.pre,
            limit: self.max,
        }
    }

    // The same for who plays them.
    pub fn part(&self, alloc: Global) -> Result<OwnedPart, PlanFault>
        ensures owned { IfOk result (λ owned. executor_of owned ≡ self.now.executor) }
        ensures small { IfOk result IsSmallPart }
        ensures memory { IfErr result (λ f. f ≡ Memory) }
    {
        let ticker = self.ticker(alloc)?;
        Ok(OwnedPart::Rates {
            pre: self.pre,
            max: self.max,
            ticker,
        })
    }

    // The owned arrivals, of which none was given.
    fn ticker(&self, alloc: Global) -> Result<Ticker, PlanFault>
        ensures arrivals { IfOk result (λ ticker. map arrival_of ticker ≡ executor_arrivals self.now.executor) }
        ensures memory { IfErr result (λ f. f ≡ Memory) }
    {
        let arrivals = self.arrivals.copy(alloc)?;
        let items = copy_of(alloc, &self.items)?;
        let Ok(ticker) = Ticker::new(alloc, arrivals, items, self.position) else {
            return Err(PlanFault::Memory);
        };
        Ok(ticker)
    }
}

// The arrivals at this constant rate of scenario `scenario`.
fn at_constant_rate(alloc: Global, rate: ConstantRate, scenario: u16) -> Result<Arrivals, PlanFault>
    requires { IsWithinLimits (timetable_at rate) }
    ensures timetable { IfOk result (λ arrivals. arrivals ≡ timetable_at rate) }
    ensures few { IfOk result (λ _. planned_count (timetable_at rate) ≤ most_arrivals) }
    ensures refused { IfErr result (λ f. f ≢ Memory → IsManyOf (Some (timetable_at rate)) scenario f) }
{
    match Arrivals::constant(alloc, rate.rate, rate.unit, rate.duration) {
        Ok(arrivals) => Ok(arrivals),
        Err(ArrivalFault::TooManyArrivals(count)) => {
            Err(PlanFault::TooManyArrivals { scenario, count })
        }
        Err(ArrivalFault::Memory) => Err(PlanFault::Memory),
        Err(ArrivalFault::RateRange | ArrivalFault::DurationRange) => unreachable!(),
    }
}

// The arrivals of scenario `scenario` at a rate that ramps through these stages.
fn at_ramping_rate(
    alloc: Global,
    start_rate: u64,
    unit: u64,
    stages: &[Stage],
    scenario: u16,
) -> Result<Arrivals, PlanFault>
    requires limits { IsWithinLimits (Ramping start_rate unit stages.now) }
    requires few { length stages.now ≤ most_stages }
    ensures timetable { IfOk result (λ arrivals. arrivals ≡ Ramping start_rate unit stages.now) }
    ensures few { IfOk result (λ _. planned_count (Ramping start_rate unit stages.now) ≤ most_arrivals) }
    ensures refused { IfErr result (λ f. f ≢ Memory → IsManyOf (Some (Ramping start_rate unit stages.now)) scenario f) }
{
    match Arrivals::ramping(alloc, start_rate, unit, stages) {
        Ok(arrivals) => Ok(arrivals),
        Err(ArrivalFault::TooManyArrivals(count)) => {
            Err(PlanFault::TooManyArrivals { scenario, count })
        }
        Err(ArrivalFault::Memory) => Err(PlanFault::Memory),
        Err(ArrivalFault::RateRange | ArrivalFault::DurationRange) => unreachable!(),
    }
}
