// A search, from its beginning to its end.
ghost use Rattle.std.specs.Prelude.{◌≡◌, ◌<◌, ◌≤◌, length, take, drop, replicate};
ghost use Rattle.walks.specs.Net.{net, junctions};
ghost use Rattle.walks.specs.Search.{Searched};
ghost use Rattle.walks.specs.Tables.{tabled};
ghost use Rattle.search.specs.Frontier.{state, Sized, SameSearch};
ghost use Rattle.search.specs.Queued.{waiting};
ghost use Rattle.search.specs.Standing.{TablesOf};
ghost use Rattle.search.specs.Stepped.{Underway};

use crate::frontier::Frontier;
use crate::queue::Queue;
use crate::slot::Slot;
use crate::way::NO_LEG;
use layout::asking::Layout;
use measure::Measure;

// Puts one value into every place.
// kept: the library's `fill` asks for a clone that cannot fail, which `Copy` does not show of a type parameter.
fn fill<T: Copy>(table: &mut [T], value: T)
    ensures { table.new ≡ replicate (length table.old) value }
{
    for place in table.iter_mut() {
        *place = value;
    }
}

impl<'t, M: Measure> Frontier<'t, M> {
    // Settles one junction after the other, until the goal is settled or none waits.
    fn until_done<L: Layout>(&mut self, queue: &mut Queue<M>, layout: &L, goal: Option<u32>)
        requires underway { Underway M.scale (net M.scale (L.meaning layout.now)) goal (junctions (L.meaning layout.now)) self.old (waiting queue.old) }
        requires sized { Sized M.scale (junctions (L.meaning layout.now)) self.old queue.old }
        requires within { self.old.count ≤ junctions (L.meaning layout.now) }
        ensures searched { Searched M.scale (net M.scale (L.meaning layout.now)) self.new.start goal (state M.scale self.new (take self.new.count self.new.settled.now)) }
        ensures sized { Sized M.scale (junctions (L.meaning layout.now)) self.new queue.new }
        ensures within { self.new.count ≤ junctions (L.meaning layout.now) }
        ensures past { drop self.new.count self.new.settled.now ≡ drop self.new.count self.old.settled.now }
        ensures same { SameSearch self.old self.new }
        ensures lent { queue.new.slots.ghost_name ≡ queue.old.slots.ghost_name }
    {
        while self.settle_one(queue, layout, goal) {}
    }
}

// Searches from the start until the goal is settled, or until none waits; the answer is how many junctions were settled.
// Each table has a place for every junction, and no more.
// kept: four slices, since the borrow checker does not cover a call with a `Tables` of reborrowed parts.
pub(crate) fn run<L: Layout, M: Measure>(
    layout: &L,
    start: u32,
    goal: Option<u32>,
    totals: &mut [M],
    came: &mut [u16],
    waiting: &mut [Slot<M>],
    settled: &mut [u16],
) -> usize
    requires start { start < junctions (L.meaning layout.now) }
    requires totals { length totals.old ≡ junctions (L.meaning layout.now) }
    requires came { length came.old ≡ junctions (L.meaning layout.now) }
    requires waiting { length waiting.old ≡ junctions (L.meaning layout.now) }
    requires settled { length settled.old ≡ junctions (L.meaning layout.now) }
    ensures searched { Searched M.scale (net M.scale (L.meaning layout.now)) start goal (tabled M.scale start totals.new came.new (take result settled.new)) }
    ensures tables { TablesOf M.scale (junctions (L.meaning layout.now)) start totals.new came.new }
    ensures within { result ≤ length settled.old }
    ensures past { drop result settled.new ≡ drop result settled.old }
{
    fill(totals, M::unit());
    came.fill(NO_LEG);
    let mut queue = Queue::over(waiting);
    // kept: `as`, since the start is shown to fit; a `try_from` would ask for an answer to what cannot be
    queue.insert(start as u16, M::unit());
    let mut frontier = Frontier {
        start,
        totals,
        came,
        settled,
        count: 0,
    };
    frontier.until_done(&mut queue, layout, goal);
    frontier.count
}
