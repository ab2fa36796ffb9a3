ghost use Rattle.std.specs.Prelude.{◌≡◌, ◌≢◌, ◌<◌, ◌≤◌, ℕ, Contains, IfNone, IfOk, IfSome, Some, false, slice_get, true};
ghost use Rattle.ld_machine.specs.Scenario.{Scenario};
ghost use Rattle.ld_machine.specs.State.{HeldUser, idle_users};
ghost use Rattle.ld_seats.specs.Changes.{busied, rested, seated, vacated};
ghost use Rattle.ld_seats.specs.Choice.{IsChosen, IsLeastMeant, is_meant, is_of};
ghost use Rattle.ld_seats.specs.Seating.{Follows, IsOpening, IsSeating};
ghost use Rattle.ld_seats.specs.Seats.{IsSeat};

use crate::seats::{LAST_USER, Seats};
use crate::which::Which;
use ld_base::Act;
use ld_set::NumberSet;
use std::alloc::{AllocError, Global};
use std::marker::Model;

/// The seating of a scenario's users on its slots: which of the owned slots are vacant, whose users are idle, who
/// has which slot, and how many users the scenario holds. Users are numbered from 1 to 1,000, and slots from 0 to
/// 999.
#[derive(Drop)]
pub struct Seating {
    // How many slots the whole test has.
    slots: u32,
    // The owned slots that no user has.
    vacant: NumberSet,
    // The slots whose users are idle.
    idle: NumberSet,
    seats: Seats,
    held: u32,
}

impl Model for Seating {
    ghost use Rattle.std.specs.Prelude.{◌≡◌, ◌≤◌};
    ghost use Rattle.ld_seats.specs.Seating.{SeatingView};

    ghost Value = { SeatingView };

    ghost view = { λ s.
        record { slots = s.slots; vacant = s.vacant.numbers; idle = s.idle.numbers; seats = s.seats; held = s.held } };

    ghost invariant = { λ s. (s.slots ≤ 1000) × (s.vacant.limit ≡ s.slots) × (s.idle.limit ≡ s.slots) };
}

impl Seating {
    /// The seating at the opening, where all owned slots are vacant and no user is held. `slots` is how many slots
    /// the whole test has, and `owned` are those of them that the instance owns. Room for all that comes later is
    /// reserved here.
    ///
    /// Fails where there is no memory for that.
    pub fn new(alloc: Global, slots: u32, owned: NumberSet) -> Result<Seating, AllocError>
        requires few { slots ≤ 1000 }
        requires limit { owned.limit ≡ slots }
        ensures opens { IfOk result (IsOpening owned.numbers) }
    {
        let idle = NumberSet::new(alloc, slots)?;
        let seats = Seats::new(alloc)?;
        Ok(Seating {
            slots,
            vacant: owned,
            idle,
            seats,
            held: 0,
        })
    }

    /// Takes notice of an act of the scenario, or of a control. Nothing is promised of the seating behind an act
    /// that the scenario may not be told of.
    ///
    /// Takes no memory.
    pub fn apply(&mut self, act: &Act)
        ensures follows { Follows self.old self.new act.now }
    {
        match act {
            Act::Take { user, slot, .. } => self.seat(*user, *slot),
            Act::Grow { user, slot, .. } => self.seat(*user, *slot),
            Act::Start { user, .. } => self.start(*user),
            Act::Drop { .. } => {}
            Act::Late { .. } => {}
            Act::Return { user, .. } => self.rest(*user),
            Act::Release { user, .. } => self.let_go(*user),
            Act::Stop { .. } => {}
            Act::Close { .. } => {}
            Act::Control { .. } => {}
        }
    }

    /// The owned slots that no user has, lent.
    pub fn vacant(&self) -> &NumberSet
        ensures { result.now.numbers ≡ self.now.vacant }
    {
        &self.vacant
    }

    /// The slots whose users are idle, lent.
    pub fn idle(&self) -> &NumberSet
        ensures { result.now.numbers ≡ self.now.idle }
    {
        &self.idle
    }

    /// How many users the scenario holds.
    pub fn held(&self) -> u32
        ensures { result ≡ self.now.held }
    {
        self.held
    }

    /// The slot of a held user. For another number it is None or any number.
    pub fn slot_of(&self, user: u32) -> Option<u32>
        ensures { result ≡ slice_get self.now.seats.slot_of user }
    {
        self.seats.slot_of(user)
    }

    /// The user of a slot that isn't vacant. For another number it is None or any number.
    pub fn user_of(&self, slot: u32) -> Option<u32>
        ensures { result ≡ slice_get self.now.seats.user_of slot }
    {
        self.seats.user_of(slot)
    }

    /// The idle user that is chosen of those whose slots are meant, with its slot: the preferred one, if it is one of
    /// them, else that of the least such slot. None exactly where there is no such user.
    pub fn idle_user(&self, which: Which, prefer: u32) -> Option<(u32, u32)>
        ensures some { IfSome result (λ pair. (s : Scenario) → IsSeating self.now s →
            IsChosen s (is_of which.entry) prefer pair.0 pair.1) }
        ensures none { IfNone result ((s : Scenario) (h : HeldUser) → IsSeating self.now s →
            Contains (idle_users s.share) h → is_of which.entry h.slot ≡ false) }
        ensures least { IfSome result (λ pair. pair.0 ≢ prefer → IsLeastMeant which.entry self.now pair.1) }
    {
        let slot = self.chosen_slot(which, prefer)?;
        let user = self.seats.user_of(slot)?;
        Some((user, slot))
    }

    // The slot of that user.
    fn chosen_slot(&self, which: Which, prefer: u32) -> Option<u32>
        ensures some { IfSome result (λ slot. is_meant which.entry self.now slot ≡ true) }
        ensures none { IfNone result ((slot : ℕ) → is_meant which.entry self.now slot ≡ false) }
        ensures preferred { (slot : ℕ) → IsSeat self.now.seats prefer slot → is_meant which.entry self.now slot ≡ true →
            result ≡ Some slot }
        ensures least { IfSome result (λ slot. slice_get self.now.seats.user_of slot ≢ Some prefer →
            IsLeastMeant which.entry self.now slot) }
    {
        if let Some(slot) = self.preferred_slot(which, prefer) {
            return Some(slot);
        }
        match which {
            Which::Any => self.idle.least(),
            Which::Among(set) => self.idle.least_with(set),
            Which::Others(set) => self.idle.least_without(set),
        }
    }

    // The preferred user's slot, if that is meant and its user is idle.
    fn preferred_slot(&self, which: Which, prefer: u32) -> Option<u32>
        ensures some { IfSome result (λ slot. IsSeat self.now.seats prefer slot ×
            (is_meant which.entry self.now slot ≡ true)) }
        ensures none { IfNone result ((slot : ℕ) → IsSeat self.now.seats prefer slot →
            is_meant which.entry self.now slot ≡ false) }
    {
        let slot = self.seats.slot_of(prefer)?;
        if self.is_meant(which, slot) && self.seats.user_of(slot) == Some(prefer) {
            Some(slot)
        } else {
            None
        }
    }

    // Whether the slot is one of those that are meant, and its user is idle.
    fn is_meant(&self, which: Which, slot: u32) -> bool
        ensures { result ≡ is_meant which.entry self.now slot }
    {
        if !self.idle.contains(slot) {
            return false;
        }
        match which {
            Which::Any => true,
            Which::Among(set) => set.contains(slot),
            Which::Others(set) => !set.contains(slot),
        }
    }

    // Puts a user on a slot, idle.
    fn seat(&mut self, user: u32, slot: u32)
        ensures { user ≤ 1000 → slot < self.old.slots → self.old.held ≤ 1000 →
            (self.new ≡ seated user slot self.old) × IsSeat self.new.seats user slot }
    {
        if user <= LAST_USER && slot < self.slots && self.held <= LAST_USER {
            self.vacant.remove(slot);
            self.idle.insert(slot);
            self.seats.put(user, slot);
            self.held += 1;
        }
    }

    // Makes a user busy.
    fn start(&mut self, user: u32)
        ensures { (slot : ℕ) → slice_get self.old.seats.slot_of user ≡ Some slot →
            self.new ≡ busied slot self.old }
    {
        if let Some(slot) = self.seats.slot_of(user) {
            self.idle.remove(slot);
        }
    }

    // Makes a user idle.
    fn rest(&mut self, user: u32)
        ensures { (slot : ℕ) → slice_get self.old.seats.slot_of user ≡ Some slot → slot < self.old.slots →
            self.new ≡ rested slot self.old }
    {
        if let Some(slot) = self.seats.slot_of(user) {
            if slot < self.slots {
                self.idle.insert(slot);
            }
        }
    }

    // Takes an idle user off its slot.
    fn let_go(&mut self, user: u32)
        ensures { (slot : ℕ) → slice_get self.old.seats.slot_of user ≡ Some slot → slot < self.old.slots →
            self.new ≡ vacated slot self.old }
    {
        if let Some(slot) = self.seats.slot_of(user) {
            self.idle.remove(slot);
            if slot < self.slots {
                self.vacant.insert(slot);
            }
            self.held = self.held.saturating_sub(1);
        }
    }
}
