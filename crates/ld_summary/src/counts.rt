// What is counted of a scenario.
ghost use Rattle.std.specs.Prelude.{◌≡◌, ◌<◌, ◌≤◌, ◌-◌, ◌*◌, ◌^◌, ◌∷◌, [], length};
ghost use Rattle.ld_summary.specs.Counts.{AreAtMost, acts_in, acts_of, counts_of, plus};

use ld_base::{Act, History, Outcome};

/// How many acts of a scenario there are of each kind.
#[derive(Clone, Copy, PartialEq, Eq)]
pub struct Counts {
    /// The iterations that were started.
    pub started: u64,
    /// Those of them that were done.
    pub done: u64,
    /// Those of them that were interrupted.
    pub interrupted: u64,
    /// The items that were given up.
    pub dropped: u64,
    /// The arrivals that were still waiting at the scenario's end.
    pub late: u64,
}

impl Counts {
    // The counts of a scenario in all histories, of which there are at most 100.
    pub fn of(histories: &[History], scenario: u16) -> Counts
        requires { length histories.now ≤ 100 }
        ensures { result ≡ counts_of scenario (acts_of histories.now) }
    {
        let mut counts = Counts {
            started: 0,
            done: 0,
            interrupted: 0,
            dropped: 0,
            late: 0,
        };
        for history in histories {
            counts.add_history(history, scenario);
        }
        counts
    }

    // Counts what one history has of a scenario.
    fn add_history(&mut self, history: &History, scenario: u16)
        requires { AreAtMost self.old (100 * 2 ^ 32) }
        ensures counts { self.new ≡ plus self.old (counts_of scenario (acts_in history.now)) }
        ensures few { length history.now.entries < 2 ^ 32 }
    {
        for at in 0..history.len() {
            self.add(&history.get(at).unwrap().act, scenario);
        }
    }

    // Counts an act, where it is one of the scenario.
    fn add(&mut self, act: &Act, scenario: u16)
        requires { AreAtMost self.old (101 * 2 ^ 32) }
        ensures { self.new ≡ plus self.old (counts_of scenario (act.now ∷ [])) }
    {
        match act {
            Act::Start {
                scenario: own,
                user: _,
                item: _,
                until: _,
            } => self.started += (*own == scenario) as u64,
            Act::Return {
                scenario: own,
                user: _,
                item: _,
                outcome: Outcome::Done,
                tally: _,
            } => self.done += (*own == scenario) as u64,
            Act::Return {
                scenario: own,
                user: _,
                item: _,
                outcome: Outcome::Interrupted,
                tally: _,
            } => self.interrupted += (*own == scenario) as u64,
            Act::Drop {
                scenario: own,
                item: _,
            } => self.dropped += (*own == scenario) as u64,
            Act::Late {
                scenario: own,
                item: _,
            } => self.late += (*own == scenario) as u64,
            _ => {}
        }
    }
}
