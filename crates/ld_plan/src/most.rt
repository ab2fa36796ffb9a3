// The most users that stays have at one moment.
ghost use Rattle.std.specs.Prelude.{◌≡◌, ◌<◌, ◌+◌, ◌-◌, ◌≤◌, ◌^◌, max, IfErr, IfOk, IsPermutation};
ghost use Rattle.std.specs.List.Sorted.{IsNonDecreasingBy};
ghost use Rattle.ld_machine.specs.Requirement.{IsGreatest};
ghost use Rattle.ld_plan.specs.Stay.{AreCounted, HoldSometime, limit_at, planned_at};
ghost use Rattle.ld_plan.specs.declared.fault.PlanFault.TheVariants.{Memory};

use crate::fault::PlanFault;
use crate::stay::Stay;
use crate::users::Users;
use std::alloc::{AllocError, Global};

// The most users that these stays have at one moment.
pub fn most_of(alloc: Global, stays: &[Stay]) -> Result<Users, PlanFault>
    requires sometime { HoldSometime stays.now }
    requires counted { AreCounted stays.now }
    ensures planned { IfOk result (λ most. IsGreatest (planned_at stays.now) most.planned) }
    ensures limit { IfOk result (λ most. IsGreatest (limit_at stays.now) most.limit) }
    ensures memory { IfErr result (λ f. f ≡ Memory) }
{
    let begins = by_begin(alloc, stays)?;
    let ends = by_end(alloc, stays)?;
    Ok(most_along(&begins, &ends))
}

// These stays, sorted by their begins.
fn by_begin(alloc: Global, stays: &[Stay]) -> Result<Vec<Stay>, AllocError>
    ensures same { IfOk result (λ sorted. IsPermutation stays.now sorted.items) }
    ensures sorted { IfOk result (λ sorted. IsNonDecreasingBy (λ stay. stay.from) sorted.items) }
{
    let mut sorted = Vec::from_slice(alloc, stays)?;
    sorted.sort_unstable_by_key(|stay| stay.from);
    Ok(sorted)
}

// These stays, sorted by their ends.
fn by_end(alloc: Global, stays: &[Stay]) -> Result<Vec<Stay>, AllocError>
    ensures same { IfOk result (λ sorted. IsPermutation stays.now sorted.items) }
    ensures sorted { IfOk result (λ sorted. IsNonDecreasingBy (λ stay. stay.until) sorted.items) }
{
    let mut sorted = Vec::from_slice(alloc, stays)?;
    sorted.sort_unstable_by_key(|stay| stay.until);
    Ok(sorted)
}

// The most users that stays have at one moment, which are given by their begins and by their ends. It goes along both: at
// each begin all stays are over that end there or before.
fn most_along(begins: &[Stay], ends: &[Stay]) -> Users
    requires same { IsPermutation begins.now ends.now }
    requires by_begin { IsNonDecreasingBy (λ stay. stay.from) begins.now }
    requires by_end { IsNonDecreasingBy (λ stay. stay.until) ends.now }
    requires sometime { HoldSometime begins.now }
    requires counted { AreCounted begins.now }
    ensures planned { IsGreatest (planned_at begins.now) result.planned }
    ensures limit { IsGreatest (limit_at begins.now) result.limit }
{
    let mut begun = 0;
    let mut ended = 0;
    let mut users = Users {
        planned: 0,
        limit: 0,
    };
    let mut most = users;
    while begun < begins.len() {
        if ended < ends.len() && ends[ended].until <= begins[begun].from {
            users = without(users, ends[ended]);
            ended += 1;
        } else {
            users = with(users, begins[begun]);
            most = greater(most, users);
            begun += 1;
        }
    }
    most
}

// Users with those of a stay that begins.
fn with(users: Users, stay: Stay) -> Users
    requires planned { users.planned + stay.planned < 2 ^ 32 }
    requires limit { users.limit + stay.limit < 2 ^ 32 }
    ensures planned { result.planned ≡ users.planned + stay.planned }
    ensures limit { result.limit ≡ users.limit + stay.limit }
{
    Users {
        planned: users.planned + stay.planned,
        limit: users.limit + stay.limit,
    }
}

// Users without those of a stay that is over.
fn without(users: Users, stay: Stay) -> Users
    requires planned { stay.planned ≤ users.planned }
    requires limit { stay.limit ≤ users.limit }
    ensures planned { result.planned ≡ users.planned - stay.planned }
    ensures limit { result.limit ≡ users.limit - stay.limit }
{
    Users {
        planned: users.planned - stay.planned,
        limit: users.limit - stay.limit,
    }
}

// The greater numbers of two.
fn greater(one: Users, other: Users) -> Users
    ensures planned { result.planned ≡ max one.planned other.planned }
    ensures limit { result.limit ≡ max one.limit other.limit }
{
    Users {
        planned: one.planned.max(other.planned),
        limit: one.limit.max(other.limit),
    }
}
