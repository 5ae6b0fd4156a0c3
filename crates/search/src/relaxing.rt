// The legs that leave a settled junction are taken.
ghost use Rattle.std.specs.Prelude.{◌≡◌, ℕ, ◌<◌, ◌≤◌, true, false, List, [], length, Some, MatchOption};
ghost use Rattle.std.specs.List.{slice_get};
ghost use Rattle.layout.specs.Plant.{tails};
ghost use Rattle.walks.specs.Net.{net, junctions};
ghost use Rattle.search.specs.Frontier.{state, Sized, SameSettled};
ghost use Rattle.search.specs.Queued.{waiting};
ghost use Rattle.search.specs.Standing.{Totalled, Offered, Stands, Took, Relaxed};

use crate::frontier::Frontier;
use crate::queue::Queue;
use crate::way::NO_LEG;
use layout::asking::Layout;
use measure::Measure;
use walks::weigh;

// What a leg that may be used offers: the junction that it reaches, and its weight.
#[derive(Clone, Copy)]
pub(crate) struct Offer<M> {
    pub(crate) head: u32,
    pub(crate) weight: M,
}

// What a leg offers, where it is open.
fn offer_of<L: Layout, M: Measure>(layout: &L, leg: u32) -> Option<Offer<M>>
    ensures { MatchOption result ((net M.scale (L.meaning layout.now)).usable leg ≡ false) (λ o. ((net M.scale (L.meaning layout.now)).usable leg ≡ true) × (o.head ≡ (net M.scale (L.meaning layout.now)).head leg) × (o.weight ≡ (net M.scale (L.meaning layout.now)).weight leg)) }
{
    if !layout.is_open(leg)? {
        return None;
    }
    let head = layout.head(leg)?;
    let weight = weigh::<L, M>(layout, leg)?;
    Some(Offer { head, weight })
}

impl<'t, M: Measure> Frontier<'t, M> {
    // A total is offered to a junction by a leg: where it has none, or a higher one, it gets this total and this leg, and waits with it.
    fn reach(&mut self, queue: &mut Queue<M>, head: u32, leg: u32, total: M)
        requires sized { Sized M.scale (length self.old.came.now) self.old queue.old }
        requires waiters { Totalled (state M.scale self.old []) (waiting queue.old) }
        requires few { length self.old.came.now ≤ 256 }
        requires there { head < length self.old.came.now }
        requires small { leg < 512 }
        ensures slots { length queue.new.slots.now ≡ length queue.old.slots.now }
        ensures offered { Offered M.scale self.old.start head leg total self.old.totals.now self.old.came.now (waiting queue.old) self.new.totals.now self.new.came.now (waiting queue.new) }
        ensures same { SameSettled self.old self.new }
        ensures lent { queue.new.slots.ghost_name ≡ queue.old.slots.ghost_name }
    {
        // kept: `as`, since numbers of junctions and legs are shown to fit; a `try_from` would ask for an answer to what cannot be
        let place = head as usize;
        if head != self.start && self.came[place] == NO_LEG {
            queue.insert(head as u16, total);
        } else {
            if !total.is_below(self.totals[place]) {
                return;
            }
            let _ = queue.lower(head as u16, total);
        }
        self.totals[place] = total;
        self.came[place] = leg as u16;
    }

    // Takes one leg of a junction that was settled at a total: where the leg is open, its head is offered the joined total.
    fn take_leg<L: Layout>(
        &mut self,
        queue: &mut Queue<M>,
        layout: &L,
        leg: u32,
        junction: u32,
        at: M,
    )
        requires sized { Sized M.scale (junctions (L.meaning layout.now)) self.old queue.old }
        requires standing { (st : List ℕ) × Stands M.scale at (state M.scale self.old st) (waiting queue.old) }
        requires leaves { slice_get (tails (L.meaning layout.now)) leg ≡ Some junction }
        ensures sized { Sized M.scale (junctions (L.meaning layout.now)) self.new queue.new }
        ensures took { (st : List ℕ) → Stands M.scale at (state M.scale self.old st) (waiting queue.old) → Took M.scale (net M.scale (L.meaning layout.now)) st junction at leg (state M.scale self.old st) (state M.scale self.new st) (waiting queue.new) }
        ensures same { SameSettled self.old self.new }
        ensures lent { queue.new.slots.ghost_name ≡ queue.old.slots.ghost_name }
    {
        let Some(offer) = offer_of::<L, M>(layout, leg) else {
            return;
        };
        let total = at.join(offer.weight);
        self.reach(queue, offer.head, leg, total);
    }

    // Takes each leg that leaves a junction, settled at a total, in number order.
    // kept: the legs are taken by a loop over their numbers, as the customer asks.
    pub(crate) fn relax<L: Layout>(
        &mut self,
        queue: &mut Queue<M>,
        layout: &L,
        junction: u32,
        at: M,
    )
        requires sized { Sized M.scale (junctions (L.meaning layout.now)) self.old queue.old }
        requires standing { (st : List ℕ) × Stands M.scale at (state M.scale self.old st) (waiting queue.old) }
        ensures sized { Sized M.scale (junctions (L.meaning layout.now)) self.new queue.new }
        ensures relaxed { (st : List ℕ) → Stands M.scale at (state M.scale self.old st) (waiting queue.old) → Relaxed M.scale (L.meaning layout.now) st junction at (state M.scale self.old st) (state M.scale self.new st) (waiting queue.new) (length (L.meaning layout.now).legs) }
        ensures same { SameSettled self.old self.new }
        ensures lent { queue.new.slots.ghost_name ≡ queue.old.slots.ghost_name }
    {
        let mut from = 0;
        while let Some(leg) = layout.leaving(junction, from) {
            self.take_leg(queue, layout, leg, junction, at);
            from = leg + 1;
        }
    }
}
