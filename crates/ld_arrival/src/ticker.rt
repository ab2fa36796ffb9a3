ghost use Rattle.std.specs.Prelude.{◌≡◌, ◌≢◌, ◌<◌, ◌≤◌, ℕ};
ghost use Rattle.ld_stripe.specs.Striping.{owner_at};

use crate::arrivals::Arrivals;
use crate::fault::ArrivalFault;
use ld_base::IndexSource;
use ld_stripe::Stripe;
use std::alloc::Global;
use std::marker::Model;

/// The arrivals that a position owns, given one by one. It is seen as the pairs that are left: each
/// arrival, counted from 0 over the whole test, with its moment in nanoseconds from the scenario's
/// begin.
#[derive(Drop)]
pub struct Ticker {
    arrivals: Arrivals,
    stripe: Stripe,
    position: usize,
    next: u64,
    count: u64,
}

impl Model for Ticker {
    ghost use Rattle.std.specs.Prelude.{◌≡◌, ◌≤◌, ℕ, List};
    ghost use Rattle.ld_arrival.specs.Schedule.{owned_between};
    ghost use Rattle.ld_arrival.specs.Timetable.{planned_count};

    ghost Value = { List (ℕ × ℕ) };

    ghost view = { λ t. owned_between t.arrivals t.stripe.owners t.position t.next t.count };

    ghost invariant = { λ t. (t.next ≤ t.count) × (t.count ≡ planned_count t.arrivals) };
}

impl Ticker {
    ghost use Rattle.std.specs.Prelude.{◌≡◌, ◌<◌, length, IfOk, IfErr};
    ghost use Rattle.ld_arrival.specs.Schedule.{owned_pairs, schedule};

    /// A ticker of the arrivals that a position owns, of which none was given. Takes no memory.
    pub fn new(
        _alloc: Global,
        arrivals: Arrivals,
        stripe: Stripe,
        position: usize,
    ) -> Result<Ticker, ArrivalFault>
        requires { position < length stripe.weights }
        ensures pairs { IfOk result (λ ticker. ticker ≡ owned_pairs stripe.owners position (schedule arrivals)) }
        ensures memory { IfErr result (λ f. f ≡ ArrivalFault.Memory) }
    {
        let count = arrivals.count();
        Ok(Ticker {
            arrivals,
            stripe,
            position,
            next: 0,
            count,
        })
    }
}

impl IndexSource for Ticker {
    ghost left = { λ pairs. pairs };

    fn next(&mut self) -> Option<(u64, u64)> {
        let k = first_owned(&self.stripe, self.position, self.next, self.count);
        if k == self.count {
            self.next = k;
            return None;
        }
        self.next = k + 1;
        Some((k, self.arrivals.moment(k)))
    }
}

// The first arrival from `from` on that a position owns; `count` where none below it is.
fn first_owned(stripe: &Stripe, position: usize, from: u64, count: u64) -> u64
    requires { from ≤ count }
    ensures within { (from ≤ result) × (result ≤ count) }
    ensures owned { result < count → owner_at stripe.now.owners result ≡ position }
    ensures first { (k : ℕ) → from ≤ k → k < result → owner_at stripe.now.owners k ≢ position }
{
    for k in from..count {
        if stripe.owner(k) == position {
            return k;
        }
    }
    count
}
