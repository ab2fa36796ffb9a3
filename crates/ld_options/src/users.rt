// The numbers of users of a scenario.
ghost use Rattle.std.specs.Prelude.{◌≤◌, IfOk};
ghost use Rattle.ld_options.specs.Faults.{Answers};
ghost use Rattle.ld_options.specs.Ranges.{IsWithin, most_users};
ghost use Rattle.ld_options.specs.Users.{greatest as greatest_of, pre_allocated, user_count};

use crate::fault::OptionsFault;
use crate::fields::{number, ranged, whole_given};
use ld_json::Node;
use ld_script::Range;
use std::alloc::Global;

/// The range of the users that are made before the scenario begins.
const PLANNED_USERS: Range = Range {
    least: 0,
    most: 1_000,
};

/// The range of the number of users, and of the greatest one.
const USERS: Range = Range {
    least: 1,
    most: 1_000,
};

// How many users there are.
pub(crate) fn user_count(alloc: Global, node: &Node<'_>) -> Result<u32, OptionsFault>
    ensures answer { Answers result (user_count node.now) }
    ensures within { IfOk result (λ vus. IsWithin 1 most_users vus) }
{
    Ok(number(alloc, node, "vus", Some(1), USERS)? as u32)
}

// How many users are made before the scenario begins.
pub(crate) fn planned_users(alloc: Global, node: &Node<'_>) -> Result<u64, OptionsFault>
    ensures answer { Answers result (pre_allocated node.now) }
    ensures within { IfOk result (λ pre. IsWithin 0 most_users pre) }
{
    number(alloc, node, "preAllocatedVUs", None, PLANNED_USERS)
}

// The greatest number of users, which isn't below those that are made before.
pub(crate) fn greatest(alloc: Global, node: &Node<'_>, pre: u64) -> Result<u64, OptionsFault>
    ensures answer { Answers result (greatest_of pre node.now) }
    ensures within { IfOk result (λ max. IsWithin 1 most_users max) }
    ensures above { IfOk result (λ max. pre ≤ max) }
{
    let max = whole_given(alloc, node, "maxVUs", Some(pre))?;
    if max < pre {
        return Err(OptionsFault::MaxBelowPre(node.path_of(alloc, "maxVUs")?));
    }
    ranged(alloc, node, "maxVUs", USERS, max)
}
