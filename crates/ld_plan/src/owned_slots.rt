// What a position owns of a scenario whose users have slots.
use crate::fault::PlanFault;
use crate::owned_part::OwnedPart;
use crate::striping::{copy_of, share_of};
use crate::users::Users;
use ld_stripe::Stripe;
use std::alloc::Global;
use std::marker::Model;

// What a user with a slot has to do.
#[derive(Clone, Copy)]
pub enum Work {
    // So many iterations.
    Counted(u64),
    // One iteration after another, until the end.
    Endless,
}

// What a position owns of users with slots: of the slots, of which the whole test has so many, those that the stripe of
// the positions gives to it, and the items of those slots.
#[derive(Drop)]
pub struct OwnedSlots {
    position: usize,
    slots: u32,
    work: Work,
    positions: Stripe,
}

impl Model for OwnedSlots {
    ghost use Rattle.ld_plan.specs.OwnedItems.{ItemsView};

    ghost Value = { ItemsView };

    ghost use Rattle.ld_plan.specs.OwnedSlots.{slots_view, AreOwnedSlots};

    ghost view = { slots_view };

    ghost invariant = { AreOwnedSlots };
}

impl OwnedSlots {
    ghost use Rattle.std.specs.Prelude.{◌≡◌, ◌<◌, ◌≤◌, ◌↔◌, ℕ, IsTrue, IfOk, IfErr, Contains, length};
    ghost use Rattle.ld_machine.specs.Plan.{owned_items};
    ghost use Rattle.ld_machine.specs.Requirement.{most_owned_users, owned_users};
    ghost use Rattle.ld_options.specs.Ranges.{most_items, most_users};
    ghost use Rattle.ld_plan.specs.OwnedItems.{IsOwnedOf, view_of_items};
    ghost use Rattle.ld_plan.specs.OwnedPart.{IsSmallPart, executor_of};
    ghost use Rattle.ld_plan.specs.Stay.{IsSteady};
    ghost use Rattle.ld_plan.specs.OwnedSlots.{slot_item_count, slot_users};
    ghost use Rattle.ld_plan.specs.declared.fault.PlanFault.TheVariants.{Memory};

    // What a position owns of a scenario with so many users, each with a slot and this to do. The positions have this
    // striping.
    pub fn of(
        alloc: Global,
        users: u32,
        work: Work,
        positions: &Stripe,
        position: usize,
    ) -> Result<OwnedSlots, PlanFault>
        requires few { users ≤ most_users }
        requires few_items { slot_item_count work users ≤ most_items }
        requires inside { position < length positions.now.weights }
        ensures owned { IfOk result (λ owned. (time : ℕ) →
            IsOwnedOf positions.now position (slot_users work users time) (view_of_items owned)) }
        ensures memory { IfErr result (λ f. f ≡ Memory) }
    {
        let positions = copy_of(alloc, positions)?;
        Ok(OwnedSlots {
            position,
            slots: users,
            work,
            positions,
        })
    }

    // How many items the whole test has.
    pub fn whole_items(&self) -> u64
        ensures items { result ≡ self.now.whole_items }
        ensures few { result ≤ most_items }
    {
        match self.work {
            Work::Counted(iterations) => self.slots as u64 * iterations,
            Work::Endless => 0,
        }
    }

    // How many items the position owns.
    pub fn owned(&self) -> u64
        ensures owned { result ≡ length (owned_items self.now.executor) }
        ensures few { result ≤ most_items }
    {
        match self.work {
            Work::Counted(iterations) => self.share() as u64 * iterations,
            Work::Endless => 0,
        }
    }

    // Whether the position owns this item.
    pub fn owns(&self, item: u64) -> bool
        requires { item < self.now.whole_items }
        ensures { IsTrue result ↔ Contains (owned_items self.now.executor) item }
    {
        match self.work {
            Work::Counted(iterations) => self.positions.owner(item / iterations) == self.position,
            Work::Endless => false,
        }
    }

    // How many slots the position owns.
    fn share(&self) -> u32
        ensures planned { result ≡ owned_users self.now.executor }
        ensures limit { result ≡ most_owned_users self.now.executor }
        ensures steady { IsSteady self.now.executor }
    {
        share_of(&self.positions, self.position, self.slots)
    }

    // How many users the position has of the scenario.
    pub fn users(&self) -> Users
        ensures planned { result.planned ≡ owned_users self.now.executor }
        ensures limit { result.limit ≡ most_owned_users self.now.executor }
        ensures steady { IsSteady self.now.executor }
    {
        let users = self.share();
        Users {
            planned: users,
            limit: users,
        }
    }

    // The same for who plays them.
    pub fn part(&self, alloc: Global) -> Result<OwnedPart, PlanFault>
        ensures owned { IfOk result (λ owned. executor_of owned ≡ self.now.executor) }
        ensures small { IfOk result IsSmallPart }
        ensures memory { IfErr result (λ f. f ≡ Memory) }
    {
        let stripe = copy_of(alloc, &self.positions)?;
        let position = self.position;
        let total = self.slots as u64;
        match self.work {
            Work::Counted(iterations) => Ok(OwnedPart::PerUserIterations {
                iterations,
                stripe,
                position,
                total,
            }),
            Work::Endless => Ok(OwnedPart::ConstantUsers {
                stripe,
                position,
                total,
            }),
        }
    }
}
