use ld_arrival::Ticker;
use ld_stripe::Stripe;

/// What an instance owns of a scenario, for who plays it: its users and its items, by the kind of its executor.
#[derive(Drop)]
pub enum OwnedPart {
    /// All users share one number of iterations.
    SharedIterations {
        /// How many users the instance has: at most 1,000.
        users: u32,
        /// How the positions share the items.
        stripe: Stripe,
        /// The position that the instance plays.
        position: usize,
        /// How many items the whole test has: at most 400,000.
        total: u64,
    },
    /// Each user has a slot, and the same number of iterations.
    PerUserIterations {
        /// How many iterations each user has: at most 400,000 for all users of the whole test together.
        iterations: u64,
        /// How the positions share the slots.
        stripe: Stripe,
        /// The position that the instance plays.
        position: usize,
        /// How many slots the whole test has: at most 1,000.
        total: u64,
    },
    /// Each user has a slot, and begins one iteration after another.
    ConstantUsers {
        /// How the positions share the slots.
        stripe: Stripe,
        /// The position that the instance plays.
        position: usize,
        /// How many slots the whole test has: at most 1,000.
        total: u64,
    },
    /// Iterations begin when arrivals are due.
    Rates {
        /// How many users the scenario takes at its begin: at most `max`.
        pre: u32,
        /// How many users it may hold at most: at most 1,000.
        max: u32,
        /// The owned arrivals, of which none was given.
        ticker: Ticker,
    },
}
