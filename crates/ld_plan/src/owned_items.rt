use crate::fault::PlanFault;
use crate::owned_arrivals::{ConstantRate, OwnedArrivals};
use crate::owned_iterations::OwnedIterations;
use crate::owned_part::OwnedPart;
use crate::owned_slots::{OwnedSlots, Work};
use crate::users::Users;
use ld_options::Executor;
use ld_stripe::Stripe;
use std::alloc::Global;

// What a position owns of a scenario's users and items, by the kind of its executor.
#[derive(Drop)]
pub enum OwnedItems {
    // Of iterations that all users share.
    Iterations(OwnedIterations),
    // Of users with slots.
    Slots(OwnedSlots),
    // Of arrivals.
    Arrivals(OwnedArrivals),
}

impl OwnedItems {
    ghost use Rattle.std.specs.Prelude.{◌≡◌, ◌≢◌, ◌<◌, ◌≤◌, ◌↔◌, IsTrue, IfOk, IfErr, IsSomeAnd, Contains, length};
    ghost use Rattle.ld_arrival.specs.Limits.{most_arrivals};
    ghost use Rattle.ld_arrival.specs.Timetable.{moment_of};
    ghost use Rattle.ld_machine.specs.Plan.{owned_items};
    ghost use Rattle.ld_machine.specs.Requirement.{most_owned_users, owned_users};
    ghost use Rattle.ld_options.specs.Ranges.{IsInRange, most_items};
    ghost use Rattle.ld_plan.specs.Executor.{timetable_of};
    ghost use Rattle.ld_plan.specs.OwnedItems.{AreDueAt, IsOwnedOf};
    ghost use Rattle.ld_plan.specs.OwnedPart.{IsSmallPart, executor_of};
    ghost use Rattle.ld_plan.specs.Part.{owned_view};
    ghost use Rattle.ld_plan.specs.Stay.{IsSteady};
    ghost use Rattle.ld_plan.specs.PlanFault.{IsManyOf};
    ghost use Rattle.ld_plan.specs.PlanView.{arrival_count};
    ghost use Rattle.ld_plan.specs.declared.fault.PlanFault.TheVariants.{Memory};

    // What a position owns of what the executor of the scenario of this number says. The positions have this striping.
    pub fn of(
        alloc: Global,
        number: u16,
        executor: &Executor,
        positions: &Stripe,
        position: usize,
    ) -> Result<OwnedItems, PlanFault>
        requires in_range { IsInRange executor.now }
        requires inside { position < length positions.now.weights }
        ensures owned { IfOk result (λ owned. IsOwnedOf positions.now position executor.now (owned_view owned)) }
        ensures few { IfOk result (λ _. arrival_count (timetable_of executor.now) ≤ most_arrivals) }
        ensures refused { IfErr result (λ f. f ≢ Memory → IsManyOf (timetable_of executor.now) number f) }
    {
        match executor {
            Executor::SharedIterations {
                vus,
                iterations,
                ..
            } => {
                let owned = OwnedIterations::of(alloc, *vus, *iterations, positions, position)?;
                Ok(OwnedItems::Iterations(owned))
            }
            Executor::PerVuIterations {
                vus,
                iterations,
                ..
            } => {
                let work = Work::Counted(*iterations);
                let owned = OwnedSlots::of(alloc, *vus, work, positions, position)?;
                Ok(OwnedItems::Slots(owned))
            }
            Executor::ConstantVus { vus, .. } => {
                let owned = OwnedSlots::of(alloc, *vus, Work::Endless, positions, position)?;
                Ok(OwnedItems::Slots(owned))
            }
            Executor::ConstantArrivals {
                rate,
                unit,
                duration,
                pre,
                max,
            } => {
                let rate = ConstantRate {
                    rate: *rate,
                    unit: *unit,
                    duration: *duration,
                };
                let users = Users {
                    planned: *pre,
                    limit: *max,
                };
                let owned = OwnedArrivals::constant(
                    alloc, number, rate, users, positions, position,
                )?;
                Ok(OwnedItems::Arrivals(owned))
            }
            Executor::RampingArrivals {
                start_rate,
                unit,
                stages,
                pre,
                max,
            } => {
                let users = Users {
                    planned: *pre,
                    limit: *max,
                };
                let stages = stages.as_slice();
                let owned = OwnedArrivals::ramping(
                    alloc,
                    number,
                    *start_rate,
                    *unit,
                    stages,
                    users,
                    positions,
                    position,
                )?;
                Ok(OwnedItems::Arrivals(owned))
            }
        }
    }

    // How many items the whole test has.
    pub fn whole_items(&self) -> u64
        ensures items { result ≡ (owned_view self.now).whole_items }
        ensures few { result ≤ most_items }
    {
        match self {
            OwnedItems::Iterations(iterations) => iterations.whole_items(),
            OwnedItems::Slots(slots) => slots.whole_items(),
            OwnedItems::Arrivals(arrivals) => arrivals.whole_items(),
        }
    }

    // How many arrivals the whole test has.
    pub fn arrivals(&self) -> u64
        ensures arrivals { result ≡ arrival_count (owned_view self.now).timetable }
        ensures few { result ≤ most_arrivals }
    {
        match self {
            OwnedItems::Iterations(_) => 0,
            OwnedItems::Slots(_) => 0,
            OwnedItems::Arrivals(arrivals) => arrivals.whole_items(),
        }
    }

    // How many items the position owns.
    pub fn owned(&self) -> u64
        ensures owned { result ≡ length (owned_items (owned_view self.now).executor) }
        ensures few { result ≤ most_items }
    {
        match self {
            OwnedItems::Iterations(iterations) => iterations.owned(),
            OwnedItems::Slots(slots) => slots.owned(),
            OwnedItems::Arrivals(arrivals) => arrivals.owned(),
        }
    }

    // Whether the position owns this item.
    pub fn owns(&self, item: u64) -> bool
        requires { item < (owned_view self.now).whole_items }
        ensures { IsTrue result ↔ Contains (owned_items (owned_view self.now).executor) item }
    {
        match self {
            OwnedItems::Iterations(iterations) => iterations.owns(item),
            OwnedItems::Slots(slots) => slots.owns(item),
            OwnedItems::Arrivals(arrivals) => arrivals.owns(item),
        }
    }

    // The moment at which an arrival is due, in nanoseconds from the scenario's begin.
    pub fn moment(&self, item: u64) -> u64
        requires { item < arrival_count (owned_view self.now).timetable }
        ensures moment { IsSomeAnd (owned_view self.now).timetable (λ timetable. result ≡ moment_of timetable item) }
        ensures due { AreDueAt (owned_view self.now).executor item result }
    {
        match self {
            OwnedItems::Iterations(_) => unreachable!(),
            OwnedItems::Slots(_) => unreachable!(),
            OwnedItems::Arrivals(arrivals) => arrivals.moment(item),
        }
    }

    // How many users the position has of the scenario.
    pub fn users(&self) -> Users
        ensures planned { result.planned ≡ owned_users (owned_view self.now).executor }
        ensures limit { result.limit ≡ most_owned_users (owned_view self.now).executor }
        ensures steady { IsSteady (owned_view self.now).executor }
    {
        match self {
            OwnedItems::Iterations(iterations) => iterations.users(),
            OwnedItems::Slots(slots) => slots.users(),
            OwnedItems::Arrivals(arrivals) => arrivals.users(),
        }
    }

    // The same for who plays them.
    pub fn part(&self, alloc: Global) -> Result<OwnedPart, PlanFault>
        ensures owned { IfOk result (λ owned. executor_of owned ≡ (owned_view self.now).executor) }
        ensures small { IfOk result IsSmallPart }
        ensures memory { IfErr result (λ f. f ≡ Memory) }
    {
        match self {
            OwnedItems::Iterations(iterations) => iterations.part(alloc),
            OwnedItems::Slots(slots) => slots.part(alloc),
            OwnedItems::Arrivals(arrivals) => arrivals.part(alloc),
        }
    }
}
