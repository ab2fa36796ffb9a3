ghost use Rattle.std.specs.Prelude.{◌≡◌};
ghost use Rattle.ld_pool.specs.Users.{plays};

use ld_base::Stint;

/// What a busy user plays.
#[derive(Clone, Copy)]
pub struct Busy {
    /// The thread that started it.
    pub thread: u32,
    /// The scenario's number, from 0 in byte order of the scenarios' names.
    pub scenario: u16,
    /// The item's index, from 0.
    pub item: u64,
    /// The moment at which the iteration is to have ended, in nanoseconds from the run's start.
    pub until: u64,
}

impl Busy {
    /// Whether it is the play of this stint, and the thread started it.
    pub fn plays(&self, thread: u32, stint: &Stint) -> bool
        ensures { result ≡ plays self.now thread stint.now }
    {
        self.thread == thread
            && self.scenario == stint.scenario()
            && self.item == stint.item()
            && self.until == stint.until()
    }
}
