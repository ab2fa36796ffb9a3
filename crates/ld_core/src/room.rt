// Room in the history, and how long to wait.
use crate::machine::Core;
use ld_base::{Reply, Room};

/// How long a wait lasts where nothing says how long: 20 milliseconds, in nanoseconds.
const SHORT_WAIT: u64 = 20_000_000;

impl Core {
    ghost use Rattle.std.specs.Prelude.{◌≡◌, ◌≤◌, ◌<◌, length};
    ghost use Rattle.ld_core.specs.CoreView.{plan_of, state_of};
    ghost use Rattle.ld_core.specs.Changes.{refusal_with};
    ghost use Rattle.ld_machine.specs.Moves.{scenarios};
    ghost use Rattle.ld_machine.specs.Room.{entries_refusal, samples_refusal};
    ghost use Rattle.ld_machine.specs.Together.{least_moment};
    ghost use Rattle.ld_machine.specs.Wait.{wait_moment};

    // Why the history has no room for so many entries, with which an iteration of a scenario is started,
    // if it has none. The entries are looked at first.
    pub(crate) fn full_to_start(&self, scenario: u16, added: u32) -> Option<Reply>
        requires of_plan { scenario < length (plan_of self.now).parts }
        requires few { added ≤ 2 }
        ensures { result ≡ refusal_with (plan_of self.now) (state_of self.now) scenario added 1 }
    {
        match self.full(added, 1) {
            Some(full) => Some(full),
            None => self.full_of_samples(scenario),
        }
    }

    // Why it has no room for so many entries and busy users more, if it has none.
    pub(crate) fn full(&self, added: u32, busy: u32) -> Option<Reply>
        requires few { added ≤ 2 }
        requires one { busy ≤ 1 }
        ensures { result ≡ entries_refusal (plan_of self.now) (state_of self.now) added busy }
    {
        let needed = self.history.len() as u64
            + self.pool.busy_count() as u64
            + added as u64
            + busy as u64;
        let limit = self.plan.entries() as u64;
        if needed > limit {
            return Some(Reply::Full {
                room: Room::Entries,
                needed,
                limit,
            });
        }
        None
    }

    // Why it has no room for the samples of one iteration more of a scenario, if it has none.
    fn full_of_samples(&self, scenario: u16) -> Option<Reply>
        requires of_plan { scenario < length (plan_of self.now).parts }
        ensures { result ≡ samples_refusal (plan_of self.now) (state_of self.now) scenario }
    {
        let needed = self.samples + self.under_way + self.plan.sample_room(scenario) as u64;
        let limit = self.plan.entries() as u64;
        if needed > limit {
            return Some(Reply::Full {
                room: Room::Samples,
                needed,
                limit,
            });
        }
        None
    }

    // The moment to wait for, where nothing is enabled.
    pub(crate) fn wait_moment(&self, reading: u64) -> u64
        ensures { result ≡ wait_moment (plan_of self.now) (state_of self.now) reading }
    {
        match lesser(self.candidate(reading), self.pool.next_until(reading)) {
            Some(moment) => moment,
            None => reading.saturating_add(SHORT_WAIT),
        }
    }

    // The least moment above the reading at which the clock may change what some scenario does.
    fn candidate(&self, reading: u64) -> Option<u64>
        ensures { result ≡ least_moment reading (scenarios (plan_of self.now) (state_of self.now)) }
    {
        let mut least = None;
        for scenario in &self.scenarios {
            least = lesser(least, scenario.candidate(reading));
        }
        least
    }
}

ghost use Rattle.std.specs.Prelude.{◌≡◌};
ghost use Rattle.ld_machine.specs.Together.{lesser};

// The lesser of two moments, or the one that there is.
fn lesser(a: Option<u64>, b: Option<u64>) -> Option<u64>
    ensures { result ≡ lesser a b }
{
    match (a, b) {
        (Some(a), Some(b)) => Some(a.min(b)),
        (Some(a), None) => Some(a),
        (None, b) => b,
    }
}
