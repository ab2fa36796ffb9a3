// What was planned, summed over the plans.
ghost use Rattle.std.specs.Prelude.{◌≡◌, ◌≤◌, length, sum_by};
ghost use Rattle.ld_summary.specs.Planned.{limit_of, owned_in, planned_of};

use ld_plan::Plan;

// How many users are made before the run, and how many there may be, over all plans, of which there
// are at most 100.
pub fn sum_users(plans: &[Plan]) -> (u64, u64)
    requires { length plans.now ≤ 100 }
    ensures planned { result.0 ≡ sum_by planned_of plans.now }
    ensures limit { result.1 ≡ sum_by limit_of plans.now }
{
    let mut planned = 0;
    let mut limit = 0;
    for plan in plans {
        let users = plan.users();
        planned += users.planned as u64;
        limit += users.limit as u64;
    }
    (planned, limit)
}

// How many items of a scenario are owned, over all plans that have it, of which there are at most 100.
pub fn sum_items(plans: &[Plan], scenario: u16) -> u64
    requires { length plans.now ≤ 100 }
    ensures { result ≡ sum_by (owned_in scenario) plans.now }
{
    let mut items = 0;
    for plan in plans {
        if scenario < plan.scenarios() {
            items += plan.owned(scenario);
        }
    }
    items
}
