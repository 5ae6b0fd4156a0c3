// The tables that a search works in.
use crate::slot::Slot;

// Four tables, lent by whoever calls for a search, each with a place for every junction: its total, the leg that it came by
// (65,535 for none), memory for the queue of those that wait, and the junctions settled, in the order of settling.
#[derive(Drop)]
pub struct Tables<'t, M> {
    pub totals: &'t mut [M],
    pub came: &'t mut [u16],
    pub waiting: &'t mut [Slot<M>],
    pub settled: &'t mut [u16],
}
