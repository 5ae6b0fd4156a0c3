// What a queue is made of. Its calls are in `queueing`.
ghost use Rattle.std.specs.Prelude.{◌≡◌, ◌≤◌, true, length, take};
ghost use Rattle.search.specs.Waiting.{apart};

use crate::slot::Slot;

// A priority queue over lent slots. The first `used` of them hold the numbers that wait, in no order.
// kept: a count beside lent memory, as the customer asks.
#[derive(Drop)]
pub(crate) struct Queue<'a, M> {
    pub(crate) slots: &'a mut [Slot<M>],
    pub(crate) used: usize,
    ghost fits: { used ≤ length slots.now },
    ghost distinct: { apart (take used slots.now) ≡ true },
}
