// The calls of a queue. Each contract says which numbers wait with which totals, and not where they stand.
ghost use Rattle.std.specs.Prelude.{◌≡◌, ℕ, ◌+◌, ◌<◌, ◌&&◌, length, if◌then◌else◌, Some, None, MatchOption, ◌==◌, nat_eq};
ghost use Rattle.std.specs.List.{IsFirstBest, HoldsAt};
ghost use Rattle.std.specs.Map.{update};
ghost use Rattle.search.specs.Waiting.{before, lowers};
ghost use Rattle.search.specs.Queued.{waiting, Untouched, Taken};

use crate::places::{lowest_place, place_of};
use crate::queue::Queue;
use crate::slot::Slot;
use measure::Measure;

impl<'a, M: Measure> Queue<'a, M> {
    // A queue over the lent slots in which no number waits.
    pub(crate) fn over(slots: &'a mut [Slot<M>]) -> Self
        ensures empty { (q : ℕ) → waiting result q ≡ None }
        ensures used { result.used ≡ 0 }
        ensures slots { result.slots.now ≡ slots.old }
        ensures lent { result.slots.ghost_name ≡ slots.entry.ghost_name }
    {
        Queue { slots, used: 0 }
    }

    // The place where a number stands.
    fn place(&self, number: u16) -> Option<usize>
        ensures { MatchOption result (waiting self.now number ≡ None) (λ k. (k < self.now.used) × HoldsAt (λ s. s.number ≡ number) self.now.slots.now k) }
    {
        place_of(&self.slots[..self.used], number)
    }

    // The place of the slot that comes out first.
    fn lowest(&self) -> usize
        requires { 0 < self.now.used }
        ensures { IsFirstBest (before M.scale) self.now.slots.now self.now.used result }
    {
        lowest_place(&self.slots[..self.used])
    }

    // Lets a number that does not wait, while a slot is free, wait with a total.
    pub(crate) fn insert(&mut self, number: u16, total: M)
        requires fresh { waiting self.old number ≡ None }
        requires room { self.old.used < length self.old.slots.now }
        ensures waiting { (q : ℕ) → waiting self.new q ≡ update nat_eq (waiting self.old) number (Some total) q }
        ensures used { self.new.used ≡ self.old.used + 1 }
        ensures rest { Untouched self.old self.new }
        ensures lent { self.new.slots.ghost_name ≡ self.old.slots.ghost_name }
    {
        let at = self.used;
        self.slots[at] = Slot { total, number };
        self.used = at + 1;
    }

    // Lowers the total of a number that waits. Says whether it did: not where the number does not wait, or waits with a total that is not above the new one.
    pub(crate) fn lower(&mut self, number: u16, total: M) -> bool
        ensures lowered { result ≡ lowers M.scale total (waiting self.old number) }
        ensures waiting { (q : ℕ) → waiting self.new q ≡ (if result && q == number then Some total else waiting self.old q) }
        ensures used { self.new.used ≡ self.old.used }
        ensures rest { Untouched self.old self.new }
        ensures lent { self.new.slots.ghost_name ≡ self.old.slots.ghost_name }
    {
        let Some(at) = self.place(number) else {
            return false;
        };
        let old = self.slots[at].total;
        if !total.is_below(old) {
            return false;
        }
        self.slots[at] = Slot { total, number };
        true
    }

    // Takes out the number with the lowest total, and of several with that total the lowest number. None where no number waits.
    pub(crate) fn take_lowest(&mut self) -> Option<Slot<M>>
        ensures taken { Taken M.scale self.old self.new result }
        ensures rest { Untouched self.old self.new }
        ensures lent { self.new.slots.ghost_name ≡ self.old.slots.ghost_name }
    {
        if self.used == 0 {
            return None;
        }
        let at = self.lowest();
        let last = self.used - 1;
        let lowest = self.slots[at];
        let moved = self.slots[last];
        self.slots[at] = moved;
        self.used = last;
        Some(lowest)
    }
}
