ghost use Rattle.std.specs.Prelude.{◌≡◌, ◌≢◌, ◌+◌, ◌<◌, ◌≤◌, ◌++◌, ◌∷◌, ℕ, [], false, IfNone, IfOk, IfSome, IsSomeAnd, IsTrue, SomeIff, filter, length, nat_lt, replicate};
ghost use Rattle.std.specs.List.{range_with_len};
ghost use Rattle.std.specs.Option.{option_and_then, option_map_or};
ghost use Rattle.ld_base.specs.Stint.{stint_of};
ghost use Rattle.ld_machine.specs.Wait.{least_of};
ghost use Rattle.ld_pool.specs.Users.{busy_count, busy_of, busy_with, free_count, holder_of, is_busy, is_idle, untils_of, user_at, with_user};

use crate::busy::Busy;
use crate::fault::PoolFault;
use crate::user::User;
use ld_base::Stint;
use ld_set::{MomentTable, NumberSet};
use std::alloc::{AllocError, Global};
use std::marker::Model;

/// The users of an instance, numbered from 1. All of its memory is taken when it is made.
#[derive(Drop)]
pub struct Pool {
    users: Vec<User>,
    // The numbers of the free users, so that one is found at one look.
    free: NumberSet,
    // The `until` of each busy user by its number, so that the least above a reading is found without a
    // look at each user.
    untils: MomentTable,
    busy: u32,
    limit: u32,
}

impl Model for Pool {
    ghost use Rattle.std.specs.Prelude.{vec_capacity};
    ghost use Rattle.ld_pool.specs.Pool.{IsKept, PoolView};

    ghost Value = { PoolView };

    ghost view = { λ p. record { users = p.users.items; limit = p.limit } };

    ghost invariant = { λ p. IsKept p.users.items p.free p.untils p.busy p.limit (vec_capacity p.users) };
}

impl Pool {
    /// A pool of `made` free users, which may grow to `limit` users, at most 1,000.
    ///
    /// Fails where the allocator gives no memory for them.
    pub fn new(alloc: Global, made: u32, limit: u32) -> Result<Pool, PoolFault>
        requires within { made ≤ limit }
        requires few { limit ≤ 1000 }
        ensures { IfOk result (λ pool. pool ≡ record { users = replicate made User.Free; limit = limit }) }
    {
        let mut users = Vec::with_capacity(alloc, limit as usize)?;
        users.resize(made as usize, User::Free)?;
        let free = first_numbers(alloc, made, limit)?;
        let untils = MomentTable::new(alloc, limit + 1)?;
        Ok(Pool {
            users,
            free,
            untils,
            busy: 0,
            limit,
        })
    }

    /// Gives the scenario a free user, which it holds from then on: `prefer` where that user is
    /// free, and otherwise any other. None exactly where no user is free. Where no user is preferred,
    /// `prefer` is 0, which is no user's number.
    pub fn take(&mut self, scenario: u16, prefer: u32) -> Option<u32>
        ensures free { IfSome result (λ user. user_at self.old.users user ≡ Some User.Free) }
        ensures held { IfSome result (λ user. self.new ≡ record self.old { users = with_user self.old.users user (User.Idle scenario) }) }
        ensures preferred { user_at self.old.users prefer ≡ Some User.Free → result ≡ Some prefer }
        ensures none { IfNone result ((user : ℕ) → user_at self.old.users user ≢ Some User.Free) }
        ensures left { IfNone result (self.new ≡ self.old) }
    {
        let user = self.choice(prefer)?;
        self.free.remove(user);
        self.users[user as usize - 1] = User::Idle { scenario };
        Some(user)
    }

    // A free user: `prefer` where that one is free, and otherwise the first. None exactly where no user
    // is free.
    fn choice(&self, prefer: u32) -> Option<u32>
        ensures free { IfSome result (λ user. user_at self.now.users user ≡ Some User.Free) }
        ensures preferred { user_at self.now.users prefer ≡ Some User.Free → result ≡ Some prefer }
        ensures none { IfNone result ((user : ℕ) → user_at self.now.users user ≢ Some User.Free) }
    {
        if self.user(prefer).is_some_and(User::is_free) {
            return Some(prefer);
        }
        self.free.least()
    }

    /// Makes one user more, numbered after all others, which the scenario holds. None exactly where
    /// as many users as there may be were made.
    pub fn grow(&mut self, scenario: u16) -> Option<u32>
        ensures number { SomeIff result (length self.old.users < self.old.limit) (length self.old.users + 1) }
        ensures held { IfSome result (λ _. self.new ≡ record self.old { users = self.old.users ++ User.Idle scenario ∷ [] }) }
        ensures full { IfNone result (length self.old.users ≡ self.old.limit) }
        ensures left { IfNone result (self.new ≡ self.old) }
    {
        if self.made() == self.limit {
            return None;
        }
        self.users.push_reserved(User::Idle { scenario });
        Some(self.made())
    }

    /// Starts an item on an idle user that the scenario holds, for a thread. The item is to have ended
    /// at the moment `until`, in nanoseconds from the run's start.
    pub fn start(&mut self, thread: u32, scenario: u16, user: u32, item: u64, until: u64) -> Stint
        requires { user_at self.old.users user ≡ Some (User.Idle scenario) }
        ensures stint { result ≡ stint_of scenario user item until }
        ensures busy { self.new ≡ record self.old { users = with_user self.old.users user (busy_with thread result) } }
    {
        let busy = Busy {
            thread,
            scenario,
            item,
            until,
        };
        self.busy += 1;
        self.users[user as usize - 1] = User::Busy(busy);
        self.untils.set(user, Some(until));
        Stint::new(scenario, user, item, until)
    }

    /// Takes back the stint of a busy user, which is idle then. Some thread started it.
    pub fn give_back(&mut self, stint: Stint)
        requires { (thread : ℕ) × (user_at self.old.users stint.user ≡ Some (busy_with thread stint)) }
        ensures { self.new ≡ record self.old { users = with_user self.old.users stint.user (User.Idle stint.scenario) } }
    {
        let scenario = stint.scenario();
        let user = stint.user();
        self.busy -= 1;
        self.users[user as usize - 1] = User::Idle { scenario };
        self.untils.set(user, None);
        stint.spend();
    }

    /// Lets an idle user go, which is free then.
    pub fn release(&mut self, user: u32)
        requires { IsSomeAnd (user_at self.old.users user) (λ held. IsTrue (is_idle held)) }
        ensures { self.new ≡ record self.old { users = with_user self.old.users user User.Free } }
    {
        self.free.insert(user);
        self.users[user as usize - 1] = User::Free;
    }

    /// How many users were made.
    pub fn made(&self) -> u32
        ensures count { result ≡ length self.now.users }
        ensures within { length self.now.users ≤ self.now.limit }
        ensures few { self.now.limit ≤ 1000 }
    {
        self.users.len() as u32
    }

    /// How many users are free.
    pub fn free_count(&self) -> u32
        ensures { result ≡ free_count self.now.users }
    {
        self.free.count()
    }

    /// How many users are busy.
    pub fn busy_count(&self) -> u32
        ensures count { result ≡ busy_count self.now.users }
        ensures few { result ≤ 1000 }
    {
        self.busy
    }

    /// The scenario that holds a user, or None exactly where none does, as where no user of this
    /// number was made.
    pub fn holder(&self, user: u32) -> Option<u16>
        ensures { result ≡ option_and_then holder_of (user_at self.now.users user) }
    {
        self.user(user)?.holder()
    }

    /// Whether a user plays an item. It is false where no user of this number was made.
    pub fn is_busy(&self, user: u32) -> bool
        ensures { result ≡ option_map_or is_busy (user_at self.now.users user) false }
    {
        self.user(user).is_some_and(User::is_busy)
    }

    /// What a user plays, or None exactly where it plays nothing, as where no user of this number was
    /// made.
    pub fn busy(&self, user: u32) -> Option<Busy>
        ensures { result ≡ option_and_then busy_of (user_at self.now.users user) }
    {
        self.user(user)?.busy()
    }

    /// The least moment above the reading until which a busy user's iteration may last, if there is
    /// one.
    pub fn next_until(&self, reading: u64) -> Option<u64>
        ensures { result ≡ least_of (filter (nat_lt reading) (untils_of self.now.users)) }
    {
        self.untils.least_above(reading)
    }

    // The user of a number, or None where none of this number was made.
    fn user(&self, user: u32) -> Option<User>
        ensures { result ≡ user_at self.now.users user }
    {
        let index = (user as usize).checked_sub(1)?;
        self.users.get(index).copied()
    }
}

// The numbers from 1 to `made`, as a set that may hold those up to `limit`.
fn first_numbers(alloc: Global, made: u32, limit: u32) -> Result<NumberSet, AllocError>
    requires within { made ≤ limit }
    requires few { limit ≤ 1000 }
    ensures { IfOk result (λ set. set ≡ record { numbers = range_with_len 1 made; limit = limit + 1 }) }
{
    let mut numbers = NumberSet::new(alloc, limit + 1)?;
    for before in 0..made {
        numbers.insert(before + 1);
    }
    Ok(numbers)
}
