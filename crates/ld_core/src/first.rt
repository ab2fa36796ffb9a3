// Which act comes first.
use crate::machine::Core;
use ld_base::Wish;

/// What a scenario would do next.
#[derive(Clone, Copy)]
pub enum Next {
    /// It is halted.
    Halt,
    /// It does what it wishes; `arrivals` says whether what it starts and drops are arrivals.
    Wished { wish: Wish, arrivals: bool },
}

/// The scenario whose act comes first, and what it would do.
#[derive(Clone, Copy)]
pub struct First {
    pub scenario: u16,
    pub next: Next,
}

impl Next {
    ghost use Rattle.std.specs.Prelude.{◌≡◌};
    ghost use Rattle.ld_core.specs.Firsts.{comes_before, due_of, rank_of};

    // Whether it comes before what a scenario of a lower number would do.
    fn comes_before(self, other: Next) -> bool
        ensures { result ≡ comes_before self other }
    {
        let (rank, other_rank) = (self.rank(), other.rank());
        rank < other_rank || (rank == other_rank && self.due() < other.due())
    }

    // Its rank in the order of acts.
    fn rank(self) -> u8
        ensures { result ≡ rank_of self }
    {
        match self {
            Next::Halt => 1,
            Next::Wished { wish, arrivals } => rank_wished(wish, arrivals),
        }
    }

    // The moment at which the arrival that it answers is due, and 0 where it answers none.
    fn due(self) -> u64
        ensures { result ≡ due_of self }
    {
        match self {
            Next::Halt => 0,
            Next::Wished { wish, arrivals } => due_wished(wish, arrivals),
        }
    }
}

impl Core {
    ghost use Rattle.std.specs.Prelude.{◌≡◌, ◌<◌, IfNone, IfSome, is_some, length};
    ghost use Rattle.ld_core.specs.CoreView.{plan_of, state_of};
    ghost use Rattle.ld_core.specs.Firsts.{ComesFirst, NoneNext, TellsNext};
    ghost use Rattle.ld_machine.specs.Scenario.{first_of};
    ghost use Rattle.ld_machine.specs.State.{free_users};
    ghost use Rattle.ld_machine.specs.Together.{NoneActs};

    // What comes first of all scenarios, if some may perform an act; `free` says whether a user is free.
    pub(crate) fn first(&self, free: bool, reading: u64) -> Option<First>
        requires free { free ≡ is_some (first_of (free_users (state_of self.now))) }
        ensures first { IfSome result (λ first. ComesFirst self.now reading first) }
        ensures none { IfNone result (NoneActs (plan_of self.now) (state_of self.now) reading) }
    {
        let mut first = None;
        for scenario in 0..self.plan.scenarios() {
            if let Some(next) = self.next_of(scenario, free, reading) {
                first = Some(earlier(first, First { scenario, next }));
            }
        }
        first
    }

    // What a scenario would do next, if it may perform an act.
    fn next_of(&self, scenario: u16, free: bool, reading: u64) -> Option<Next>
        requires of_plan { scenario < length (plan_of self.now).parts }
        requires free { free ≡ is_some (first_of (free_users (state_of self.now))) }
        ensures tells { IfSome result (λ next. TellsNext self.now reading scenario next) }
        ensures none { IfNone result (NoneNext self.now reading scenario) }
    {
        let state = &self.scenarios[scenario as usize];
        if state.may_stop(reading) {
            return Some(Next::Halt);
        }
        match state.next_act(reading, free, 0) {
            Wish::Nothing => None,
            wish => Some(Next::Wished {
                wish,
                arrivals: state.has_arrivals(),
            }),
        }
    }
}

ghost use Rattle.std.specs.Prelude.{◌≡◌};
ghost use Rattle.ld_core.specs.Firsts.{due_wished, earlier, rank_wished};

// The rank of a wish in the order of acts.
fn rank_wished(wish: Wish, arrivals: bool) -> u8
    ensures { result ≡ rank_wished wish arrivals }
{
    match wish {
        Wish::Release { .. } => 2,
        Wish::Take { .. } => 3,
        Wish::Start { .. } if !arrivals => 5,
        Wish::Drop { .. } if !arrivals => 6,
        Wish::Start { .. } | Wish::More { .. } | Wish::Drop { .. } | Wish::Late { .. } => 4,
        Wish::Close => 7,
        Wish::Nothing => 8,
    }
}

// The moment at which the arrival that a wish answers is due, and 0 where it answers none.
fn due_wished(wish: Wish, arrivals: bool) -> u64
    ensures { result ≡ due_wished wish arrivals }
{
    match wish {
        Wish::Start { due, .. } | Wish::Drop { due, .. } => { if arrivals { due } else { 0 } }
        Wish::More { due, .. } | Wish::Late { due, .. } => due,
        Wish::Release { .. } | Wish::Take { .. } | Wish::Close | Wish::Nothing => 0,
    }
}

// What comes first of two, of which the other is of a higher number.
fn earlier(first: Option<First>, other: First) -> First
    ensures { result ≡ earlier first other }
{
    match first {
        Some(first) => {
            if other.next.comes_before(first.next) {
                other
            } else {
                first
            }
        }
        None => other,
    }
}
