// A pool's users: which are taken, grown, busy and let go.

use crate::tests::table::{State, check_script, count, number, parts, small};
use ld_pool::Pool;
use std::alloc::Global;
use std::test::Fail;

// How many users are made at first, and how many there may be; then calls, and what they answer.
const POOLS: &str = "\
2 3
made => 2
free => 2
user 2 => none
take 7 2 => 2
user 2 => 7 idle
free => 1
take 8 0 => 1
user 1 => 8 idle
free => 0
take 7 1 => none
made => 2
grow 9 => 3
made => 3
user 3 => 9 idle
free => 0
grow 9 => none
made => 3
user 1 => 8 idle
user 2 => 7 idle
2 2
take 5 1 => 1
take 6 2 => 2
play 5 1 1099511627776 => 5 1 1099511627776 18446744073709551615 true
user 1 => 5 idle
free => 0
release 1 => none
user 1 => none
user 2 => 6 idle
free => 1
take 6 2 => 1
user 1 => 6 idle
2 3
user 0 => none
user 3 => none
user 4 => none
user 4294967295 => none
0 0
take 0 0 => none
take 0 1 => none
grow 0 => none
made => 0
free => 0
1000 1000
take 1 1000 => 1000
take 1 1000 => 1
free => 998
made => 1000
grow 1 => none";

impl State for Pool {
    fn open(alloc: Global, given: &str) -> Result<Pool, Fail> {
        let (made, limit) = parts(given, " ");
        let (made, limit) = (count(made), count(limit));
        if made > limit || limit > 1000 {
            return Err(Fail::from("no pool"));
        }
        Ok(Pool::new(alloc, made, limit)?)
    }

    fn call(&mut self, alloc: Global, call: &str) -> Result<String, Fail> {
        let (kind, given) = parts(call, " ");
        match kind {
            "user" => user_text(alloc, self, count(given)),
            "play" => play(alloc, self, given),
            _ => number_text(alloc, called(self, kind, given)),
        }
    }
}

// What a call answers whose answer is a number, if it is one.
fn called(pool: &mut Pool, kind: &str, given: &str) -> Option<u32> {
    let (first, second) = parts(given, " ");
    let scenario = small(first);
    match kind {
        "take" => pool.take(scenario, count(second)),
        "grow" => pool.grow(scenario),
        "release" => release(pool, count(first)),
        "made" => Some(pool.made()),
        _ => Some(pool.free_count()),
    }
}

// Lets an idle user go.
fn release(pool: &mut Pool, user: u32) -> Option<u32> {
    if pool.holder(user).is_none() || pool.is_busy(user) {
        return Some(0);
    }
    pool.release(user);
    None
}

// Starts an item on an idle user, and takes it back: what the stint told, and whether its user was busy.
fn play(alloc: Global, pool: &mut Pool, given: &str) -> Result<String, Fail> {
    let (scenario, rest) = parts(given, " ");
    let (user, item) = parts(rest, " ");
    let (scenario, user) = (small(scenario), count(user));
    if pool.holder(user) != Some(scenario) || pool.is_busy(user) {
        return Err(Fail::from("not idle"));
    }
    let stint = pool.start(0, scenario, user, number(item), u64::MAX);
    let (scenario, user) = (stint.scenario(), stint.user());
    let (item, until) = (stint.item(), stint.until());
    let is_busy = pool.is_busy(user);
    pool.give_back(stint);
    Ok(format!(in alloc; "{scenario} {user} {item} {until} {is_busy}")?)
}

// A number, if it is one.
fn number_text(alloc: Global, number: Option<u32>) -> Result<String, Fail> {
    Ok(match number {
        Some(number) => format!(in alloc; "{number}")?,
        None => String::from_str(alloc, "none")?,
    })
}

// The scenario that holds a user, and whether the user is busy.
fn user_text(alloc: Global, pool: &Pool, user: u32) -> Result<String, Fail> {
    let Some(scenario) = pool.holder(user) else {
        return Ok(String::from_str(alloc, "none")?);
    };
    let condition = if pool.is_busy(user) { "busy" } else { "idle" };
    Ok(format!(in alloc; "{scenario} {condition}")?)
}

/// Pools, of which users are taken, grown, started and let go.
#[test]
fn pools(rt: HostRuntime) -> Result<(), Fail> {
    check_script::<Pool, _>(&rt, POOLS)
}
