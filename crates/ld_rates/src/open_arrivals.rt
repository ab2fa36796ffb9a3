ghost use Rattle.std.specs.Prelude.{◌≡◌, drop, slice_get};

use ld_arrival::Ticker;
use ld_base::IndexSource;
use std::marker::Model;

/// The arrivals that are still open, in order: the next one, and those that the ticker still gives.
/// They are seen as their items, each with its moment in nanoseconds from the scenario's begin.
#[derive(Drop)]
pub struct OpenArrivals {
    first: Option<(u64, u64)>,
    rest: Ticker,
}

impl Model for OpenArrivals {
    ghost use Rattle.std.specs.Prelude.{◌≡◌, ℕ, List, [], ◌++◌, None, option_to_list};

    ghost Value = { List (ℕ × ℕ) };

    ghost view = { λ o. option_to_list o.first ++ o.rest };

    ghost invariant = { λ o. o.first ≡ None → o.rest ≡ [] };
}

impl OpenArrivals {
    /// All the arrivals that the ticker gives.
    pub fn new(mut ticker: Ticker) -> OpenArrivals
        ensures { result ≡ ticker }
    {
        let first = ticker.next();
        OpenArrivals {
            first,
            rest: ticker,
        }
    }

    /// The next open arrival's item and moment, or None exactly where none is open.
    pub fn first(&self) -> Option<(u64, u64)>
        ensures { result ≡ slice_get self.now 0 }
    {
        self.first
    }

    /// Ends the next open arrival, if there is one.
    pub fn pass(&mut self)
        ensures { self.new ≡ drop 1 self.old }
    {
        self.first = self.rest.next();
    }
}
