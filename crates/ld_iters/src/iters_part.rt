use ld_stripe::Stripe;

/// A kind of scenario whose users begin one iteration after another.
#[derive(Clone, Copy, PartialEq, Eq)]
pub enum IterKind {
    /// All users share one number of iterations.
    Shared,
    /// Each user has the same number of iterations.
    PerUser,
    /// Each user goes on until the end.
    Constant,
}

/// What one instance owns of such a scenario. Moments and times are in nanoseconds.
#[derive(Drop)]
pub struct ItersPart {
    /// Which kind of scenario it is.
    pub kind: IterKind,
    /// The scenario's begin, from the run's start.
    pub begin: u64,
    /// Its regular end, from the run's start.
    pub end: u64,
    /// How long its iterations may last behind its end.
    pub grace: u64,
    /// How many users the instance owns.
    pub users: u32,
    /// How many iterations each user has, where each has its own.
    pub iterations: u64,
    /// How the positions share the items where all users share them, else the slots.
    pub stripe: Stripe,
    /// The position that the instance plays.
    pub position: usize,
    /// How many items the whole test has where all users share them, else how many slots.
    pub total: u64,
}
