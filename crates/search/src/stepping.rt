// A search, settled one junction at a time.
ghost use Rattle.std.specs.Prelude.{◌≡◌, ◌+◌, ◌≤◌, true, length, drop};
ghost use Rattle.walks.specs.Net.{net, junctions};
ghost use Rattle.search.specs.Frontier.{Sized, SameSearch};
ghost use Rattle.search.specs.Queued.{waiting};
ghost use Rattle.search.specs.Stepped.{Underway, Stepped};

use crate::frontier::Frontier;
use crate::queue::Queue;
use layout::asking::Layout;
use measure::Measure;

impl<'t, M: Measure> Frontier<'t, M> {
    // Settles the waiting junction with the lowest total, and takes its legs unless it is the goal.
    // Says whether the search goes on: not where the goal was settled, or where none waits.
    pub(crate) fn settle_one<L: Layout>(
        &mut self,
        queue: &mut Queue<M>,
        layout: &L,
        goal: Option<u32>,
    ) -> bool
        requires underway { Underway M.scale (net M.scale (L.meaning layout.now)) goal (junctions (L.meaning layout.now)) self.old (waiting queue.old) }
        requires sized { Sized M.scale (junctions (L.meaning layout.now)) self.old queue.old }
        requires within { self.old.count ≤ junctions (L.meaning layout.now) }
        ensures stepped { Stepped M.scale (net M.scale (L.meaning layout.now)) goal (junctions (L.meaning layout.now)) self.new (waiting queue.new) result }
        ensures sized { Sized M.scale (junctions (L.meaning layout.now)) self.new queue.new }
        ensures within { self.new.count ≤ junctions (L.meaning layout.now) }
        ensures further { result ≡ true → self.new.count ≡ self.old.count + 1 }
        ensures past { drop self.new.count self.new.settled.now ≡ drop self.new.count self.old.settled.now }
        ensures more { self.old.count ≤ self.new.count }
        ensures same { SameSearch self.old self.new }
        ensures lent { queue.new.slots.ghost_name ≡ queue.old.slots.ghost_name }
    {
        let Some(lowest) = queue.take_lowest() else {
            return false;
        };
        self.settled[self.count] = lowest.number;
        self.count += 1;
        let junction = u32::from(lowest.number);
        if goal == Some(junction) {
            return false;
        }
        self.relax(queue, layout, junction, lowest.total);
        true
    }
}
