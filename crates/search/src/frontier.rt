// How far a search has come.

// A search that is under way: where it started, each junction's total and the leg that it came by, and the junctions settled, of which
// the table has `count`. The queue of the junctions that wait goes beside it, since it keeps an invariant of its own.
// kept: a count beside a lent table, and that tables are as long as there are junctions is asked of each step: a ghost field beside lent
// slices lets none of them be lent on.
#[derive(Drop)]
pub(crate) struct Frontier<'t, M> {
    pub(crate) start: u32,
    pub(crate) totals: &'t mut [M],
    pub(crate) came: &'t mut [u16],
    pub(crate) settled: &'t mut [u16],
    pub(crate) count: usize,
}
