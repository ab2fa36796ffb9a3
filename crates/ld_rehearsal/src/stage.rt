// The stage of a rehearsal: the pool's core, the iterations under way, and the moment.
ghost use Rattle.std.specs.Prelude.{◌≡◌, min};
ghost use Rattle.std.specs.Option.{option_map_or};

use crate::due::{Due, Dues};
use crate::fault::RehearsalFault;
use crate::full::FullJournal;
use ld_base::{Ask, Reply, Stint, Tally};
use ld_core::Core;
use ld_plan::Plan;
use std::alloc::Global;

/// What became of an ask for an act.
#[derive(Clone, Copy)]
pub enum Said {
    /// The pool performed an act.
    Acted,
    /// Nothing is to be done before this moment, in nanoseconds from the run's start.
    Waits(u64),
    /// Every scenario is closed.
    Over,
    /// There is no room for the first act.
    Full(FullJournal),
}

/// A rehearsal under way.
#[derive(Drop)]
pub struct Stage {
    pub(crate) core: Core,
    pub(crate) dues: Dues,
    pub(crate) moment: u64,
    pub(crate) length: u64,
    pub(crate) full: Option<FullJournal>,
}

impl Stage {
    ghost use Rattle.std.specs.Prelude.{◌≡◌, ◌≤◌, ◌<◌, ◌+◌, ◌-◌, false, true, Some, IfOk, IfErr, length, slice_set};
    ghost use Rattle.ld_machine.specs.Moment.{last_moment};
    ghost use Rattle.ld_machine.specs.Rehearsal.{IsRefusedAt};
    ghost use Rattle.ld_rehearsal.specs.Dues.{due_of, play_at};
    ghost use Rattle.ld_rehearsal.specs.Stage.{full_reply, stage_plan, stage_state, IsActing, IsAnswered, IsDue, IsEnded, IsOpened, IsPaused, IsReturning, IsRound, IsSameMoment, IsSameRun, MayReturn};
    ghost use Rattle.ld_rehearsal.specs.declared.fault.RehearsalFault.{RehearsalFault};

    // The stage at the opening, at the moment 0.
    pub(crate) fn new(alloc: Global, plan: Plan, length: u64) -> Result<Stage, RehearsalFault>
        requires { 1 ≤ length }
        ensures opened { IfOk result (λ stage. IsOpened plan length stage) }
        ensures returning { IfOk result (λ stage. MayReturn stage 0) }
        ensures memory { IfErr result (λ f. f ≡ RehearsalFault.Memory) }
    {
        let users = plan.users();
        let dues = Dues::new(alloc, users.limit)?;
        let core = Core::new(alloc, plan)?;
        Ok(Stage {
            core,
            dues,
            moment: 0,
            length,
            full: None,
        })
    }

    // Asks for one act.
    fn step(&mut self) -> Said
        requires acting { IsActing self.old }
        ensures answered { IsAnswered self.old self.new result }
    {
        let reply = self.core.ask(0, Ask::Act, self.moment);
        match reply {
            Reply::Run(stint) => {
                self.begin(stint);
                Said::Acted
            }
            Reply::Wait(moment) => Said::Waits(moment),
            Reply::Over => Said::Over,
            Reply::Full {
                room,
                needed,
                limit,
            } => Said::Full(FullJournal {
                room,
                needed,
                limit,
            }),
            other => {
                set_aside(other);
                Said::Acted
            }
        }
    }
    // A user begins to play a stint.
    fn begin(&mut self, stint: Stint)
        requires some { 1 ≤ stint.user }
        requires within { stint.user ≤ length self.old.dues }
        ensures until { stint.until ≤ last_moment }
        ensures begun { self.new ≡ record self.old { dues = slice_set self.old.dues (stint.user - 1) (Some (due_of self.old.length (play_at self.old.moment stint))) } }
    {
        let fits = self.moment.saturating_add(self.length);
        let due = Due {
            scenario: stint.scenario(),
            item: stint.item(),
            until: stint.until(),
            end: fits.min(stint.until()),
            finished: fits <= stint.until(),
        };
        self.dues.put(stint.user(), due);
        stint.spend();
    }

    // Asks for acts until none is performed.
    fn act_all(&mut self) -> Said
        requires acting { IsActing self.old }
        ensures paused { IsPaused self.old self.new result }
    {
        loop {
            match self.step() {
                Said::Acted => {}
                said => return said,
            }
        }
    }

    // Returns what a user plays, which ends now.
    fn return_due(&mut self, alloc: Global, user: u32, due: Due)
        requires returning { MayReturn self.old user }
        requires ends { IsDue self.old user due }
        ensures same { IsSameMoment self.old self.new }
        ensures returning { IsReturning self.new (user + 1) false }
    {
        let stint = Stint::new(due.scenario, user, due.item, due.until);
        let ask = Ask::Return {
            stint,
            finished: due.finished,
            tally: Tally::empty(alloc),
        };
        let noted = self.core.ask(0, ask, self.moment);
        let Reply::Noted = noted else {
            unreachable!();
        };
        self.dues.clear(user);
    }

    // Returns all that ends now, in order of the users.
    fn return_all(&mut self, alloc: Global)
        requires returning { MayReturn self.old 0 }
        ensures same { IsSameMoment self.old self.new }
        ensures acting { IsActing self.new }
    {
        let mut last = 0;
        while let Some((user, due)) = self.dues.first_due(last, self.moment) {
            self.return_due(alloc, user, due);
            last = user;
        }
    }

    // Plays all moments.
    pub(crate) fn run(&mut self, alloc: Global)
        requires returning { MayReturn self.old 0 }
        ensures run { IsSameRun self.old self.new }
        ensures ended { IsEnded self.new }
    {
        loop {
            if !self.round(alloc) {
                return;
            }
        }
    }

    // Plays what happens at this moment, and goes on to the next one. Answers whether there is one.
    pub(crate) fn round(&mut self, alloc: Global) -> bool
        requires returning { MayReturn self.old 0 }
        ensures round { IsRound self.old self.new result }
    {
        self.return_all(alloc);
        match self.act_all() {
            Said::Acted => unreachable!(),
            Said::Waits(moment) => {
                self.moment = lesser(self.dues.next_end(), moment);
                true
            }
            Said::Over => false,
            Said::Full(full) => self.go_on_full(full),
        }
    }

    // Notes that there is no room, and goes on to the next moment at which an iteration ends. Answers
    // whether there is one.
    fn go_on_full(&mut self, full: FullJournal) -> bool
        requires acting { IsActing self.old }
        requires refused { IsRefusedAt (stage_plan self.old) (stage_state self.old) self.old.moment (full_reply full) }
        ensures round { IsRound self.old self.new result }
    {
        self.full = self.full.or(Some(full));
        match self.dues.next_end() {
            Some(end) => {
                self.moment = end;
                true
            }
            None => false,
        }
    }
}

// The lesser of a moment, if there is one, and another.
fn lesser(moment: Option<u64>, other: u64) -> u64
    ensures { result ≡ option_map_or (min other) moment other }
{
    match moment {
        Some(moment) => moment.min(other),
        None => other,
    }
}

// Puts aside a reply that names an act, and hands out nothing.
fn set_aside(reply: Reply) {
    match reply {
        Reply::Run(stint) => stint.spend(),
        Reply::Dropped {
            scenario: _,
            item: _,
        } => {}
        Reply::Late {
            scenario: _,
            item: _,
        } => {}
        Reply::Took {
            scenario: _,
            user: _,
        } => {}
        Reply::Released {
            scenario: _,
            user: _,
        } => {}
        Reply::Stopped { scenario: _ } => {}
        Reply::Closed { scenario: _ } => {}
        Reply::Noted | Reply::Denied | Reply::Go | Reply::Halt | Reply::Over => {}
        Reply::Alive {
            paused: _,
            stopped: _,
            vus: _,
            vus_max: _,
        } => {}
        Reply::Wait(_) => {}
        Reply::Full {
            room: _,
            needed: _,
            limit: _,
        } => {}
    }
}
