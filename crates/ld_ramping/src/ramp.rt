ghost use Rattle.std.specs.Prelude.{◌≡◌, ◌≤◌, ◌<◌, ◌+◌, ◌*◌, ◌/◌, ◌++◌, IfOk, IfErr, sum_by};
ghost use Rattle.ld_ramping.specs.Intervals.{intervals_of, longest, spans};
ghost use Rattle.ld_ramping.specs.Rising.{AreRising, EndBy};
ghost use Rattle.ld_ramping.specs.Turns.{listed, turn_among, turn_in};
ghost use Rattle.ld_ramping.specs.declared.fault.ExecFault.TheVariants.{Memory};

use crate::fault::ExecFault;
use crate::interval::Interval;
use ld_base::Stage;
use std::alloc::{AllocError, Global};

/// The intervals in which a slot is on, in order, where `start` users are on at the scenario's begin and
/// the stages, together no longer than 30 days, turn users on and off. The slot's user is `slot + 1`,
/// counted from 1. No interval is empty, each is over when a later one begins, and all are over at the end
/// of the last stage.
///
/// Fails where there is no memory for them.
pub fn intervals(
    alloc: Global,
    start: u32,
    stages: &[Stage],
    slot: u32,
) -> Result<Vec<Interval>, ExecFault>
    requires { sum_by (λ stage. stage.length) stages.now ≤ longest }
    ensures intervals { IfOk result (λ found. found.items ≡ intervals_of (slot + 1) start stages.now) }
    ensures rising { IfOk result (λ found. AreRising found.items) }
    ensures in_time { IfOk result (λ found. EndBy (sum_by (λ stage. stage.length) stages.now) found.items) }
    ensures memory { IfErr result (λ fault. fault ≡ Memory) }
{
    let user = u64::from(slot) + 1;
    let mut found = Vec::new(alloc);
    let mut begin = 0;
    let mut users = u64::from(start);
    let mut since = turn_at(user, users, 0);
    for stage in stages {
        let turn = turn_of(user, begin, users, *stage);
        since = turned(&mut found, since, turn)?;
        begin += stage.length;
        users = stage.target;
    }
    turned(&mut found, since, turn_at(user, users, begin))?;
    Ok(found)
}

// A turn at this moment, if the user is among so many.
fn turn_at(user: u64, users: u64, moment: u64) -> Option<u64>
    ensures { result ≡ turn_among user users moment }
{
    if user <= users { Some(moment) } else { None }
}

// When a stage, which begins at `begin` with so many users, turns a user on or off.
fn turn_of(user: u64, begin: u64, users: u64, stage: Stage) -> Option<u64>
    requires counted { 0 < user }
    requires ends { begin + stage.length ≤ longest }
    ensures { result ≡ turn_in user begin users stage }
{
    let end = begin + stage.length;
    if users < user && user <= stage.target {
        let left = share_of(stage.length, stage.target - user, stage.target - users);
        return Some(end - left);
    }
    if stage.target < user && user <= users {
        let left = share_of(stage.length, user - 1 - stage.target, users - stage.target);
        return Some(end - left);
    }
    None
}

// `part` of `whole` equal shares of a length, rounded down.
fn share_of(length: u64, part: u64, whole: u64) -> u64
    requires { part < whole }
    ensures share { result ≡ length * part / whole }
    ensures within { result ≤ length }
{
    (length as u128 * part as u128 / whole as u128) as u64
}

// Goes on to a turn, if there is one: a user that is on since a moment goes off, and one that is off goes
// on. Answers since when the user is on behind it, if it is on.
fn turned(
    found: &mut Vec<Interval>,
    since: Option<u64>,
    turn: Option<u64>,
) -> Result<Option<u64>, AllocError>
    ensures { IfOk result (λ later.
        (rest : _) → found.old.items ++ spans (listed since ++ (listed turn ++ rest)) ≡ found.new.items ++ spans (listed later ++ rest)) }
{
    let Some(moment) = turn else {
        return Ok(since);
    };
    let Some(on) = since else {
        return Ok(turn);
    };
    if on < moment {
        found.push(Interval { on, off: moment })?;
    }
    Ok(None)
}
