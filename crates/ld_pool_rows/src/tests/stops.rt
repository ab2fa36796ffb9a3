// Rehearsals of tests of several scenarios in which a stop is commanded.

use crate::tests::cores::give_back;
use crate::tests::entries::act_of;
use crate::tests::replies::{Said, told};
use crate::tests::table::{State, check_script, count, number, parts};
use ld_base::{Ask, Command, History, Stint};
use ld_core::Core;
use std::alloc::{AllocError, Global};
use std::test::Fail;

// How long iterations last, in nanoseconds, and a plan; then behind how many entries a stop is commanded, how many
// users were taken, how many of them are back, how many iterations began, how many of them ended, how many scenarios
// were halted and how many closed, what a second stop is told, whether all other commands were denied, and the last
// reply.
//
// Without a stop the entries are: at 0 the first scenario takes user 1 (1) and starts it (2); at 250 milliseconds the
// second takes user 2 (3) and starts it (4); at 500 the first grows user 3 and starts it (5, 6), and at 750 the second
// grows user 4 and starts it (7, 8), both in one step. Each of the four is returned and released a second after its
// start (9 to 14, 16 and 17), and each scenario closes behind its last user (15 and 18). The second scenario is halted
// where it holds a user 500 milliseconds behind the command, which comes as soon as that many entries are there.
//
// Of two that follow each other the first has two users, and is closed (9) long before the second takes two (10, 11)
// and starts them (12, 13). Behind the stop the second is closed before its begin, or lets go whom it holds idle.
const STOPPED: &str = "\
1000000000 2 1 2 0:1 1000000 | next 2 1 2 \"startTime\":\"250ms\",\"gracefulStop\":\"500ms\",
0 => 0 0, 0 0, 0 2, Denied true Over
1 => 1 1, 0 0, 0 2, Denied true Over
2 => 1 1, 1 1, 0 2, Denied true Over
3 => 2 2, 1 1, 0 2, Denied true Over
4 => 2 2, 2 2, 1 2, Denied true Over
6 => 3 3, 3 3, 1 2, Denied true Over
8 => 4 4, 4 4, 1 2, Denied true Over
9 => 4 4, 4 4, 1 2, Denied true Over
10 => 4 4, 4 4, 1 2, Denied true Over
11 => 4 4, 4 4, 1 2, Denied true Over
12 => 4 4, 4 4, 1 2, Denied true Over
13 => 4 4, 4 4, 0 2, Denied true Over
14 => 4 4, 4 4, 0 2, Denied true Over
15 => 4 4, 4 4, 0 2, Denied true Over
16 => 4 4, 4 4, 0 2, Denied true Over
17 => 4 4, 4 4, 0 2, Denied true Over
18 => 4 4, 4 4, 0 2, Denied true Over
1000000000 2 1 2 0:1 1000000 | next 2 2 2 \"startTime\":\"31s\",
9 => 2 2, 2 2, 0 2, Denied true Over
10 => 3 3, 2 2, 0 2, Denied true Over
11 => 4 4, 2 2, 0 2, Denied true Over
12 => 4 4, 3 3, 0 2, Denied true Over";

// More moments, and more acts at one of them, than the rehearsal has.
const MANY: u32 = 50;

// Rehearsals of one plan: the length of iterations, and what tells the plan.
#[derive(Drop)]
struct Stops {
    length: u64,
    plan: String,
}

impl State for Stops {
    fn open(alloc: Global, given: &str) -> Result<Stops, Fail> {
        let (length, plan) = parts(given, " ");
        let (length, plan) = (number(length), String::from_str(alloc, plan)?);
        Ok(Stops { length, plan })
    }

    fn call(&mut self, alloc: Global, call: &str) -> Result<String, Fail> {
        let mut rehearsal = StoppedRehearsal {
            core: Core::open(alloc, &self.plan)?,
            length: self.length,
            moment: 0,
            playing: Vec::new(alloc),
            before_stop: count(call),
            is_stopped: false,
            second_stop: Said::Noted,
            denies_others: true,
        };
        let last = rehearsal.play(alloc)?;
        told_of(alloc, &rehearsal, last)
    }
}

// An iteration that was started, and how it ends.
#[derive(Clone, Copy)]
struct Playing {
    scenario: u16,
    user: u32,
    item: u64,
    until: u64,
    end: u64,
    finished: bool,
}

// A rehearsal under way, in which a stop is commanded.
#[derive(Drop)]
struct StoppedRehearsal {
    core: Core,
    length: u64,
    moment: u64,
    // All that was started.
    playing: Vec<Playing>,
    // How many entries come before the stop.
    before_stop: u32,
    is_stopped: bool,
    // What the second stop was told.
    second_stop: Said,
    // Whether every other command was denied.
    denies_others: bool,
}

impl StoppedRehearsal {
    // Plays all moments: the last reply.
    fn play(&mut self, alloc: Global) -> Result<Said, AllocError> {
        for _ in 0..MANY {
            return_all(&mut self.core, alloc, &self.playing, self.moment);
            match self.act_all()? {
                Said::Wait(moment) => self.moment = next_end(&self.playing, self.moment, moment),
                last => return Ok(last),
            }
        }
        Ok(Said::NotOut)
    }

    // Asks for acts until none is performed: what is replied then.
    fn act_all(&mut self) -> Result<Said, AllocError> {
        for _ in 0..MANY {
            self.command_all();
            match told(self.core.ask(0, Ask::Act, self.moment)) {
                Said::Run(scenario, user, item, until) => {
                    self.begin(scenario, user, item, until)?;
                }
                Said::Wait(moment) => return Ok(Said::Wait(moment)),
                Said::Over => return Ok(Said::Over),
                _ => (),
            }
        }
        Ok(Said::NotOut)
    }

    // Commands all but a stop, and two stops where it is their turn.
    fn command_all(&mut self) {
        let moment = self.moment;
        self.denies_others = self.denies_others && denies_others(&mut self.core, moment);
        if !self.is_stopped && self.core.history().len() >= self.before_stop {
            self.is_stopped = true;
            command(&mut self.core, Command::Stop, moment);
            self.second_stop = command(&mut self.core, Command::Stop, moment);
        }
    }

    // An iteration begins.
    fn begin(&mut self, scenario: u16, user: u32, item: u64, until: u64) -> Result<(), AllocError> {
        let fits = self.moment.saturating_add(self.length);
        self.playing.push(Playing {
            scenario,
            user,
            item,
            until,
            end: fits.min(until),
            finished: fits <= until,
        })?;
        Ok(())
    }
}

// Commands something.
fn command(core: &mut Core, command: Command, moment: u64) -> Said {
    told(core.ask(1, Ask::Control(command), moment))
}

// Whether every command but a stop is denied.
fn denies_others(core: &mut Core, moment: u64) -> bool {
    let pause = command(core, Command::Pause(true), moment);
    let users = command(core, Command::Vus(0), moment);
    let most_users = command(core, Command::VusMax(1), moment);
    is_denied(pause) && is_denied(users) && is_denied(most_users)
}

// Whether a reply denies.
fn is_denied(said: Said) -> bool {
    matches!(said, Said::Denied)
}

// Returns all that has ended at a moment, in order of the users.
fn return_all(core: &mut Core, alloc: Global, playing: &[Playing], moment: u64) {
    let limit = core.plan().users().limit;
    for before in 0..limit {
        return_of(core, alloc, playing, before + 1, moment);
    }
}

// Returns what a user plays, if it has ended at a moment.
fn return_of(core: &mut Core, alloc: Global, playing: &[Playing], user: u32, moment: u64) {
    for played in playing {
        if played.user == user && played.end <= moment {
            let stint = Stint::new(played.scenario, user, played.item, played.until);
            give_back(core, alloc, stint, played.finished, moment);
        }
    }
}

// The least end behind a moment of what is played, if it is less than another moment, or else that one.
fn next_end(playing: &[Playing], moment: u64, other: u64) -> u64 {
    let mut least = other;
    for played in playing {
        if played.end > moment {
            least = least.min(played.end);
        }
    }
    least
}

// What became of a rehearsal whose last reply is this.
fn told_of(alloc: Global, rehearsal: &StoppedRehearsal, last: Said) -> Result<String, Fail> {
    let history = rehearsal.core.history();
    let taken = entries_of(history, "take grow");
    let (back, began) = (entries_of(history, "release"), entries_of(history, "start"));
    let ended = entries_of(history, "return interrupted");
    let (halted, closed) = (entries_of(history, "stop"), entries_of(history, "close"));
    let mut said = format!(in alloc; "{taken} {back}, {began} {ended}, {halted} {closed}, ")?;
    write!(
        said,
        "{:?} {} {last:?}",
        rehearsal.second_stop, rehearsal.denies_others
    )?;
    Ok(said)
}

// How many entries of a history are acts of these names.
fn entries_of(history: &History, names: &str) -> u32 {
    let mut entries: u32 = 0;
    for at in 0..history.len() {
        if let Some(entry) = history.get(at) {
            let (name, _, _, _) = act_of(&entry.act);
            if is_word(names, name) {
                entries = entries.saturating_add(1);
            }
        }
    }
    entries
}

// Whether a word is one of these words.
fn is_word(words: &str, word: &str) -> bool {
    for other in words.split_whitespace() {
        if other == word {
            return true;
        }
    }
    false
}

/// A stop behind each number of entries.
#[test]
fn stops_behind_each_entry(rt: HostRuntime) -> Result<(), Fail> {
    check_script::<Stops, _>(&rt, STOPPED)
}
