// Which legs begin a best walk to an entry, by the tables of a search backwards from it.
ghost use Rattle.std.specs.Prelude.{◌≡◌, ◌<◌, false, [], length, Decides};
ghost use Rattle.std.specs.Option.{unwrap_or};
ghost use Rattle.walks.specs.Tables.{tabled};
ghost use Rattle.renew.specs.Flags.{Distances, LeadsBest};

use crate::asking::open_ends;
use layout::asking::Layout;
use measure::Measure;
use measure::ranking::compare;
use search::Tables;
use walks::weigh;

// Whether two totals are the same.
fn is_same<M: Measure>(total: M, other: M) -> bool
    ensures { Decides result (total ≡ other) }
{
    compare(total, other).is_eq()
}

// What a search backwards from an entry left in its tables: the best totals of the ways to it.
#[derive(Drop)]
pub(crate) struct WaysBack<'w, 't, M> {
    pub(crate) entry: u32,
    pub(crate) tables: &'w Tables<'t, M>,
}

impl<'w, 't, M: Measure> WaysBack<'w, 't, M> {
    // Whether a leg begins a best walk to the entry: its weight joined with the best total from its head is the best total from its tail.
    // No answer where the leg is shut or a total is missing.
    pub(crate) fn begin_with<L: Layout>(&self, layout: &L, leg: u32) -> Option<bool>
        requires { Distances M.scale (L.meaning layout.now) self.now.entry self.now.tables.now.totals.now self.now.tables.now.came.now }
        ensures { Decides (unwrap_or result false) (LeadsBest M.scale (L.meaning layout.now) self.now.entry leg) }
    {
        let ends = open_ends(layout, leg)?;
        let weight = weigh::<L, M>(layout, leg)?;
        let from_head = self.tables.total_of(self.entry, ends.head)?;
        let from_tail = self.tables.total_of(self.entry, ends.tail)?;
        Some(is_same(weight.join(from_head), from_tail))
    }
}
