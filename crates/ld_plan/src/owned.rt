// What a segment of a sequence owns of a test.
ghost use Rattle.std.specs.Prelude.{◌≡◌, ◌≢◌, ◌<◌, ◌≤◌, length, IfErr, IfOk, OnOk};
ghost use Rattle.ld_segment.specs.Points.{IsFilled};
ghost use Rattle.ld_options.specs.Ranges.{AreInRange, most_scenarios};
ghost use Rattle.ld_options.specs.declared.options.Options.{Options};
ghost use Rattle.ld_plan.specs.IsPlanOf.{sample_room, AreOwned};
ghost use Rattle.ld_plan.specs.Plan.{IsOwned};
ghost use Rattle.ld_plan.specs.PartView.{parts_of};
ghost use Rattle.ld_plan.specs.PlanFault.{AreFew, HasFewUsers, IsFirstMany, IsManyUsers, IsRefusal, needed_entries};
ghost use Rattle.ld_plan.specs.declared.fault.PlanFault.TheVariants.{Memory};

use crate::fault::PlanFault;
use crate::need::users_of;
use crate::part::Part;
use crate::striping::{of_sequence, of_whole};
use crate::users::Users;
use ld_options::Options;
use ld_script::Scripts;
use ld_segment::{Segment, Sequence};
use ld_stripe::Stripe;
use std::alloc::Global;

/// How many users a test may have at one moment.
const MOST_USERS: u32 = 1000;

/// What an instance owns: its position, its part of each scenario, and how many users these need.
#[derive(Drop)]
pub struct Owned {
    pub position: usize,
    pub parts: Vec<Part>,
    pub users: Users,
}

// What the segment of a filled sequence owns of a test, where the journal has so many entries at most.
pub fn owned_of(
    alloc: Global,
    options: &Options,
    segment: &Segment,
    sequence: &Sequence,
    entries: u32,
) -> Result<Owned, PlanFault>
    requires filled { IsFilled sequence.now }
    ensures owned { IfOk result (IsOwned options.now segment.now sequence.now entries) }
    ensures refused { IfErr result (λ f. f ≢ Memory → IsRefusal options.now segment.now sequence.now entries f) }
{
    let Some(position) = sequence.position(segment) else {
        return Err(PlanFault::NotInSequence);
    };
    let positions = of_sequence(alloc, sequence)?;
    let parts = owned_parts(alloc, options, &positions, position)?;
    few_users(alloc, options)?;
    let needed = needed_entries(&parts);
    if needed > entries as u64 {
        return Err(PlanFault::JournalTooSmall {
            needed,
            limit: entries,
        });
    }
    let users = users_of(alloc, &parts)?;
    Ok(Owned {
        position,
        parts,
        users,
    })
}

// What a position owns of each scenario of a test.
fn owned_parts(
    alloc: Global,
    options: &Options,
    positions: &Stripe,
    position: usize,
) -> Result<Vec<Part>, PlanFault>
    requires inside { position < length positions.now.weights }
    ensures owned { IfOk result (λ parts. AreOwned options.now positions.now position parts.items) }
    ensures few { IfOk result (λ _. AreFew options.now.scenarios) }
    ensures in_range { IfOk result (λ _. AreInRange options.now.scenarios) }
    ensures refused { IfErr result (λ f. f ≢ Memory → IsFirstMany options.now.scenarios f) }
{
    let mut parts = Vec::new(alloc);
    for (number, scenario) in options.scenarios.as_slice().iter().enumerate() {
        let room = sample_room(&options.scripts, scenario.script);
        let part = Part::of(alloc, number as u16, scenario, room, positions, position)?;
        let Ok(()) = parts.push(part) else {
            return Err(PlanFault::Memory);
        };
    }
    Ok(parts)
}

// Refuses a test that may have too many users at one moment, of whose scenarios the whole is looked at.
fn few_users(alloc: Global, options: &Options) -> Result<(), PlanFault>
    requires arrivals { AreFew options.now.scenarios }
    ensures few { OnOk result (HasFewUsers options.now) }
    ensures refused { IfErr result (λ f. f ≢ Memory → IsManyUsers options.now f) }
{
    let whole = of_whole(alloc)?;
    let parts = owned_parts(alloc, options, &whole, 0)?;
    let users = users_of(alloc, &parts)?;
    if users.limit > MOST_USERS {
        return Err(PlanFault::TooManyUsers(users.limit));
    }
    Ok(())
}

// How many entries a journal of these parts may need.
fn needed_entries(parts: &[Part]) -> u64
    requires { length parts.now ≤ most_scenarios }
    ensures { result ≡ needed_entries (parts_of parts.now) }
{
    let mut needed = 0;
    for part in parts {
        needed += 2 * part.owned() + 1;
    }
    needed
}

// How many samples an iteration of a script may give.
fn sample_room(scripts: &Scripts, at: u16) -> u32
    ensures { result ≡ sample_room scripts.now.scripts at }
{
    if at < scripts.count() {
        scripts.script(at).sample_room()
    } else {
        0
    }
}
