// What renewing asks of a layout: which legs are open, what lies in a hall, and which junctions are its entries.
ghost use Rattle.std.specs.Prelude.{◌≡◌, ◌<◌, true, false, Decides, MatchOption, ◌==◌};
ghost use Rattle.walks.specs.Net.{net, leg_at, hall_at};
ghost use Rattle.walks.specs.Marks.{Entry, BothEnds};

use layout::asking::Layout;
use measure::Measure;

// The ends of a leg.
#[derive(Clone, Copy)]
pub(crate) struct Ends {
    pub(crate) tail: u32,
    pub(crate) head: u32,
}

// The ends of a leg that is open.
pub(crate) fn open_ends<L: Layout>(layout: &L, leg: u32) -> Option<Ends>
    ensures { MatchOption result ((leg_at (L.meaning layout.now) leg).is_open ≡ false) (λ ends. ((leg_at (L.meaning layout.now) leg).is_open ≡ true) × (ends.tail ≡ (leg_at (L.meaning layout.now) leg).tail) × (ends.head ≡ (leg_at (L.meaning layout.now) leg).head)) }
{
    if !layout.is_open(leg)? {
        return None;
    }
    Some(Ends {
        tail: layout.tail(leg)?,
        head: layout.head(leg)?,
    })
}

// A hall of a layout.
#[derive(Drop)]
pub(crate) struct Hall<'l, L: Layout> {
    pub(crate) layout: &'l L,
    pub(crate) number: u32,
    ghost exists: { number < (L.meaning layout.now).halls },
}

impl<'l, L: Layout> Hall<'l, L> {
    // Whether a junction lies in it.
    fn holds(&self, junction: u32) -> bool
        ensures { result ≡ (hall_at (L.Layout.meaning self.now.layout.now) junction == self.now.number) }
    {
        self.layout.hall_of(junction) == Some(self.number)
    }

    // Whether a leg is open and lies inside with both ends.
    pub(crate) fn has_inside<M: Measure>(&self, leg: u32) -> bool
        ensures { Decides result (((net M.scale (L.Layout.meaning self.now.layout.now)).usable leg ≡ true) × BothEnds (net M.scale (L.Layout.meaning self.now.layout.now)) (hall_at (L.Layout.meaning self.now.layout.now)) self.now.number leg) }
    {
        matches!(open_ends(self.layout, leg), Some(ends) if self.holds(ends.tail) && self.holds(ends.head))
    }

    // Whether a leg is open and comes from outside.
    fn is_entered_by(&self, leg: u32) -> bool
        ensures { Decides result (((leg_at (L.Layout.meaning self.now.layout.now) leg).is_open ≡ true) × ((hall_at (L.Layout.meaning self.now.layout.now) (leg_at (L.Layout.meaning self.now.layout.now) leg).tail == self.now.number) ≡ false)) }
    {
        matches!(open_ends(self.layout, leg), Some(ends) if !self.holds(ends.tail))
    }

    // Whether a junction is one of its entries.
    // kept: a chain by `successors` would ask for the first leg in one place and for the next in another.
    pub(crate) fn is_entry<M: Measure>(&self, junction: u32) -> bool
        ensures { Decides result (Entry (net M.scale (L.Layout.meaning self.now.layout.now)) (hall_at (L.Layout.meaning self.now.layout.now)) self.now.number junction) }
    {
        if !self.holds(junction) {
            return false;
        }
        let mut from = 0;
        while let Some(leg) = self.layout.reaching(junction, from) {
            if self.is_entered_by(leg) {
                return true;
            }
            from = leg + 1;
        }
        false
    }
}
