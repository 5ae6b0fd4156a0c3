// The marks of a hall are written, leg by leg.
ghost use Rattle.std.specs.Prelude.{◌≡◌, true, ◌⊎◌, length};
ghost use Rattle.marks.specs.Mark.{is_marked};
ghost use Rattle.walks.specs.Answers.{count_below};
ghost use Rattle.renew.specs.Flags.{Distances, LeadsBest, FlaggedTo, Written};

use crate::asking::Hall;
use crate::best::WaysBack;
use layout::asking::Layout;
use marks::words::Marks;
use measure::Measure;

impl<'l, L: Layout> Hall<'l, L> {
    // Marks for the hall exactly the open legs inside it.
    // kept: the loop goes by leg number, as was asked for.
    pub(crate) fn mark_inside<M: Measure>(&self, marks: &mut Marks)
        ensures { Written self.now.number (length (L.Layout.meaning self.now.layout.now).legs) (FlaggedTo M.scale (L.Layout.meaning self.now.layout.now) self.now.number 0) marks.old marks.new }
    {
        for leg in 0..self.layout.legs() {
            marks.put(self.number, leg, self.has_inside::<M>(leg));
        }
    }

    // Marks for the hall, beside those that are marked, the legs that begin a best walk to the entry.
    // kept: the loop goes by leg number, as was asked for.
    pub(crate) fn mark_best<M: Measure>(&self, marks: &mut Marks, ways: &WaysBack<M>)
        requires { Distances M.scale (L.Layout.meaning self.now.layout.now) ways.now.entry ways.now.tables.now.totals.now ways.now.tables.now.came.now }
        ensures { Written self.now.number (length (L.Layout.meaning self.now.layout.now).legs) (λ e. (is_marked marks.old self.now.number e ≡ true) ⊎ LeadsBest M.scale (L.Layout.meaning self.now.layout.now) ways.now.entry e) marks.old marks.new }
    {
        for leg in 0..self.layout.legs() {
            if ways.begin_with(self.layout, leg).unwrap_or(false) {
                marks.put(self.number, leg, true);
            }
        }
    }

    // How many legs are marked for the hall.
    // kept: the loop goes by leg number, as was asked for.
    pub(crate) fn count_marked(&self, marks: &Marks) -> u32
        ensures { result ≡ count_below (length (L.Layout.meaning self.now.layout.now).legs) (is_marked marks.now self.now.number) }
    {
        let mut count = 0;
        for leg in 0..self.layout.legs() {
            if marks.has(self.number, leg) {
                count += 1;
            }
        }
        count
    }
}
