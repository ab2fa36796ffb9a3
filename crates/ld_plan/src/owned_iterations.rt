// What a position owns of iterations that all users of a scenario share.
use crate::fault::PlanFault;
use crate::owned_part::OwnedPart;
use crate::striping::{copy_of, of_items, share_of};
use crate::users::Users;
use ld_stripe::Stripe;
use std::alloc::Global;
use std::marker::Model;

// What a position owns of iterations that all users share: so many of the users, and of the items, of which the whole
// test has so many, those that the stripe gives to it.
#[derive(Drop)]
pub struct OwnedIterations {
    users: u32,
    position: usize,
    iterations: u64,
    items: Stripe,
}

impl Model for OwnedIterations {
    ghost use Rattle.ld_plan.specs.OwnedItems.{ItemsView};

    ghost Value = { ItemsView };

    ghost use Rattle.ld_plan.specs.OwnedIterations.{iterations_view, AreOwnedIterations};

    ghost view = { iterations_view };

    ghost invariant = { AreOwnedIterations };
}

impl OwnedIterations {
    ghost use Rattle.std.specs.Prelude.{◌≡◌, ◌<◌, ◌≤◌, ◌↔◌, ℕ, IsTrue, IfOk, IfErr, Contains, length};
    ghost use Rattle.ld_machine.specs.Plan.{owned_items};
    ghost use Rattle.ld_machine.specs.Requirement.{most_owned_users, owned_users};
    ghost use Rattle.ld_options.specs.Ranges.{most_items, most_users};
    ghost use Rattle.ld_options.specs.declared.executor.Executor.TheVariants.{SharedIterations};
    ghost use Rattle.ld_plan.specs.OwnedItems.{IsOwnedOf, view_of_items};
    ghost use Rattle.ld_plan.specs.OwnedPart.{IsSmallPart, executor_of};
    ghost use Rattle.ld_plan.specs.Stay.{IsSteady};
    ghost use Rattle.ld_plan.specs.declared.fault.PlanFault.TheVariants.{Memory};

    // What a position owns of a scenario with so many users, which share so many iterations. The positions have this
    // striping.
    pub fn of(
        alloc: Global,
        users: u32,
        iterations: u64,
        positions: &Stripe,
        position: usize,
    ) -> Result<OwnedIterations, PlanFault>
        requires some { 1 ≤ users }
        requires few { users ≤ most_users }
        requires few_items { iterations ≤ most_items }
        requires inside { position < length positions.now.weights }
        ensures owned { IfOk result (λ owned. (time : ℕ) →
            IsOwnedOf positions.now position (SharedIterations users iterations time) (view_of_items owned)) }
        ensures memory { IfErr result (λ f. f ≡ Memory) }
    {
        let items = of_items(alloc, positions, users)?;
        Ok(OwnedIterations {
            users: share_of(positions, position, users),
            position,
            iterations,
            items,
        })
    }

    // How many items the whole test has.
    pub fn whole_items(&self) -> u64
        ensures items { result ≡ self.now.whole_items }
        ensures few { result ≤ most_items }
    {
        self.iterations
    }

    // How many items the position owns.
    pub fn owned(&self) -> u64
        ensures owned { result ≡ length (owned_items self.now.executor) }
        ensures few { result ≤ most_items }
    {
        self.items.share(self.position, self.iterations)
    }

    // Whether the position owns this item.
    pub fn owns(&self, item: u64) -> bool
        requires { item < self.now.whole_items }
        ensures { IsTrue result ↔ Contains (owned_items self.now.executor) item }
    {
        self.items.owner(item) == self.position
    }

    // How many users the position has of the scenario.
    pub fn users(&self) -> Users
        ensures planned { result.planned ≡ owned_users self.now.executor }
        ensures limit { result.limit ≡ most_owned_users self.now.executor }
        ensures steady { IsSteady self.now.executor }
    {
        Users {
            planned: self.users,
            limit: self.users,
        }
    }

    // The same for who plays them.
    pub fn part(&self, alloc: Global) -> Result<OwnedPart, PlanFault>
        ensures owned { IfOk result (λ owned. executor_of owned ≡ self.now.executor) }
        ensures small { IfOk result IsSmallPart }
        ensures memory { IfErr result (λ f. f ≡ Memory) }
    {
        let stripe = copy_of(alloc, &self.items)?;
        Ok(OwnedPart::SharedIterations {
            users: self.users,
            stripe,
            position: self.position,
            total: self.iterations,
        })
    }
}
