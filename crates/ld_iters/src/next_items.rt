ghost use Rattle.std.specs.Prelude.{◌≡◌, ◌<◌, ◌≤◌, ◌*◌, ◌+◌, ◌==◌, ℕ, IfOk, Some, slice_get, slice_set};

use std::alloc::{AllocError, Global};
use std::marker::Model;

/// The item that each slot starts next, where each slot has as many items as any other. Items are numbered in a row over
/// all slots: slot 0 has the first ones.
#[derive(Drop)]
pub struct NextItems {
    each: u64,
    next: Vec<u64>,
}

impl Model for NextItems {
    ghost use Rattle.std.specs.Prelude.{◌≤◌, ◌*◌, length};
    ghost use Rattle.ld_iters.specs.NextItems.{NextItemsView};

    ghost Value = { NextItemsView };

    ghost view = { λ s. record { each = s.each; next = s.next.items } };

    ghost invariant = { λ s. length s.next.items * s.each ≤ 400000 };
}

impl NextItems {
    /// The first item of each of so many slots.
    ///
    /// Fails where the allocator gives no memory for them.
    pub fn new(alloc: Global, slots: u64, each: u64) -> Result<NextItems, AllocError>
        requires few { slots * each ≤ 400000 }
        ensures each { IfOk result (λ items. items.each ≡ each) }
        ensures first { IfOk result (λ items. (slot : ℕ) → slot < slots → slice_get items.next slot ≡ Some (slot * each)) }
    {
        let mut next = Vec::new(alloc);
        for slot in 0..slots {
            next.push(slot * each)?;
        }
        Ok(NextItems { each, next })
    }

    /// The slot's next item. None exactly where it is none of these slots.
    pub fn of(&self, slot: u32) -> Option<u64>
        ensures { result ≡ slice_get self.now.next slot }
    {
        self.next.get(slot as usize).copied()
    }

    /// Passes the slot's next item over, if there is one, and says whether it was the slot's last.
    pub fn pass(&mut self, slot: u32) -> bool
        ensures next { (item : ℕ) → slice_get self.old.next slot ≡ Some item → item < slot * self.old.each + self.old.each →
            self.new ≡ record self.old { next = slice_set self.old.next slot (item + 1) } }
        ensures last { (item : ℕ) → slice_get self.old.next slot ≡ Some item → item < slot * self.old.each + self.old.each →
            result ≡ (item + 1 == slot * self.old.each + self.old.each) }
    {
        let at = slot as usize;
        if at >= self.next.len() {
            return false;
        }
        let end = slot as u64 * self.each + self.each;
        if self.next[at] >= end {
            return false;
        }
        let next = self.next[at] + 1;
        self.next[at] = next;
        next == end
    }
}
