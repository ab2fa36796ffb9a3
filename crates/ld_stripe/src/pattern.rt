// The owners of one period.
ghost use Rattle.std.specs.Prelude.{◌≡◌, ◌<◌, ◌≤◌, ◌-◌, ◌^◌, ◌⊎◌, length, sum, slice_index, IfOk};
ghost use Rattle.ld_stripe.specs.Striping.{given, IsFirstDue, IsStriping, FollowsWeights, owner_at, share_at, shares_at};
ghost use Rattle.ld_stripe.specs.Pattern.{AreGiven};

use std::alloc::{AllocError, Global};

// The position that the next index goes to, behind the owners of all earlier ones.
fn first_due(weights: &[u64], given: &[u64], owners: &[usize], period: u64) -> usize
    requires period { sum weights.now ≡ period }
    requires small { period ≤ 100000 }
    requires given { AreGiven weights.now owners.now given.now }
    requires follows { FollowsWeights weights.now owners.now }
    requires more { length owners.now < period }
    ensures { IsFirstDue weights.now owners.now result }
{
    let index = owners.len() as u64;
    let mut owner = 0;
    let mut most = 0;
    for (position, weight) in weights.iter().enumerate() {
        if most < *weight && given[position] * period <= index * *weight {
            owner = position;
            most = *weight;
        }
    }
    owner
}

// The owners of one period, which is the sum of the weights.
pub fn owners_of(alloc: Global, weights: &[u64], period: u64) -> Result<Vec<usize>, AllocError>
    requires period { sum weights.now ≡ period }
    requires small { period ≤ 100000 }
    ensures { IfOk result (λ owners. IsStriping weights.now owners.items) }
{
    let mut owners = Vec::with_capacity(alloc, period as usize)?;
    let mut given = vec![in alloc; 0u64; weights.len()]?;
    for _index in 0..period {
        let owner = first_due(weights, &given, &owners, period);
        given[owner] += 1;
        owners.push(owner)?;
    }
    Ok(owners)
}

// How many of the indices below `v` a position owns: its weight of each whole period, and what stands
// in the rest.
pub fn share_of(weights: &[u64], owners: &[usize], position: usize, v: u64) -> u64
    requires striping { IsStriping weights.now owners.now }
    requires some { 0 < length owners.now }
    requires inside { position < length weights.now }
    ensures { result ≡ share_at owners.now position v }
{
    let period = owners.len() as u64;
    let rest = (v % period) as usize;
    v / period * weights[position] + times_given(&owners[..rest], position)
}

// How many of the indices below `v` each position owns.
pub fn shares_of(
    alloc: Global,
    weights: &[u64],
    owners: &[usize],
    v: u64,
) -> Result<Vec<u64>, AllocError>
    requires striping { IsStriping weights.now owners.now }
    requires some { 0 < length owners.now }
    ensures shares { IfOk result (λ shares. shares.items ≡ shares_at (record { weights = weights.now; owners = owners.now }) v) }
    ensures each { IfOk result (λ shares. length shares.items ≡ length weights.now) }
    ensures total { IfOk result (λ shares. sum shares.items ≡ v) }
{
    let mut shares = Vec::with_capacity(alloc, weights.len())?;
    for position in 0..weights.len() {
        shares.push(share_of(weights, owners, position, v))?;
    }
    Ok(shares)
}

// How many of the owners are a position.
fn times_given(owners: &[usize], position: usize) -> u64
    ensures { result ≡ given owners.now position }
{
    owners.iter().filter(|owner| **owner == position).count() as u64
}

// The least index from `from` on that a position with a weight owns.
pub fn next_owned(weights: &[u64], owners: &[usize], position: usize, from: u64) -> u64
    requires striping { IsStriping weights.now owners.now }
    requires some { 0 < length owners.now }
    requires weighted { 0 < slice_index weights.now position }
    requires far { from ≤ 10 ^ 12 }
    ensures owned { owner_at owners.now result ≡ position }
    ensures least { share_at owners.now position result ≡ share_at owners.now position from }
    ensures near { result ≤ 2 ^ 63 }
{
    let period = owners.len() as u64;
    for index in from..from + period {
        if owners[(index % period) as usize] == position {
            return index;
        }
    }
    unreachable!()
}

// The greatest index below `value` that a position owns, plus 1, or 0 where there is none.
pub fn owned_below(weights: &[u64], owners: &[usize], position: usize, value: u64) -> u64
    requires striping { IsStriping weights.now owners.now }
    requires some { 0 < length owners.now }
    ensures owned { (result ≡ 0) ⊎ (owner_at owners.now (result - 1) ≡ position) }
    ensures same { share_at owners.now position result ≡ share_at owners.now position value }
    ensures below { result ≤ value }
{
    let period = owners.len() as u64;
    let low = value.saturating_sub(period);
    let mut index = value;
    while index > low {
        index -= 1;
        if owners[(index % period) as usize] == position {
            return index + 1;
        }
    }
    0
}
