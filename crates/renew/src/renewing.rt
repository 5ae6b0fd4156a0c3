// Renewing, as it is called: over any layout, with tables that are handed in.
ghost use Rattle.std.specs.Prelude.{◌≡◌, ◌<◌, true, ◌⊎◌, length};
ghost use Rattle.marks.specs.Mark.{is_marked};
ghost use Rattle.marks.specs.declared.words.Marks.{Marks as MarkSet};
ghost use Rattle.search.specs.Desk.{held, Roomy, SameTables};
ghost use Rattle.walks.specs.Net.{junctions};
ghost use Rattle.renew.specs.Flags.{LeadsBest, FlaggedTo, Written};
ghost use Rattle.renew.specs.Renewed.{Past, Renewed};

use crate::asking::Hall;
use crate::best::WaysBack;
use layers::turned::Turned;
use layout::asking::Layout;
use layout::refusal::Refusal;
use marks::words::Marks;
use measure::Measure;
use search::{Tables, explore};

impl<'l, L: Layout> Hall<'l, L> {
    // Marks for the hall, beside those that are marked, the legs that begin a best walk to the entry.
    // A search from the entry over the turned layer finds the best totals of the ways to it.
    fn mark_for_entry<M: Measure>(&self, marks: &mut Marks, entry: u32, tables: &mut Tables<M>)
        requires entry { entry < junctions (L.Layout.meaning self.now.layout.now) }
        requires room { Roomy (junctions (L.Layout.meaning self.now.layout.now)) (held tables.old) }
        ensures marks { Written self.now.number (length (L.Layout.meaning self.now.layout.now).legs) (λ e. (is_marked marks.old self.now.number e ≡ true) ⊎ LeadsBest M.scale (L.Layout.meaning self.now.layout.now) entry e) marks.old marks.new }
        ensures past { Past (junctions (L.Layout.meaning self.now.layout.now)) (held tables.old) (held tables.new) }
        ensures room { Roomy (junctions (L.Layout.meaning self.now.layout.now)) (held tables.new) }
        ensures lent { SameTables tables.old tables.new }
    {
        let turned = Turned::over(self.layout);
        match explore(&turned, entry, tables) {
            Ok(_) => self.mark_best(marks, &WaysBack { entry, tables }),
            // kept: the checks are passed, so nothing is refused here; an `Err` would be an answer to what cannot be
            Err(_) => unreachable(),
        }
    }

    // Marks for the hall, beside the legs inside it, those that begin a best walk to one of its entries.
    // kept: a loop with a test, since each turn changes marks and tables; a chain's closure would have to.
    fn mark_for_entries<M: Measure>(&self, marks: &mut Marks, tables: &mut Tables<M>)
        requires { Roomy (junctions (L.Layout.meaning self.now.layout.now)) (held tables.old) }
        ensures marks { (old : MarkSet) → Written self.now.number (length (L.Layout.meaning self.now.layout.now).legs) (FlaggedTo M.scale (L.Layout.meaning self.now.layout.now) self.now.number 0) old marks.old → Written self.now.number (length (L.Layout.meaning self.now.layout.now).legs) (FlaggedTo M.scale (L.Layout.meaning self.now.layout.now) self.now.number (junctions (L.Layout.meaning self.now.layout.now))) old marks.new }
        ensures past { Past (junctions (L.Layout.meaning self.now.layout.now)) (held tables.old) (held tables.new) }
        ensures lent { SameTables tables.old tables.new }
    {
        for junction in 0..self.layout.junctions() {
            if self.is_entry::<M>(junction) {
                self.mark_for_entry(marks, junction, tables);
            }
        }
    }
}

// Renews the marks of a hall: a leg is marked exactly when it is open and lies inside with both ends, or begins a best walk to an entry.
// The answer is how many are marked. The tables are free below the junction count.
pub fn renew<L: Layout, M: Measure>(
    layout: &L,
    marks: &mut Marks,
    hall: u32,
    tables: &mut Tables<M>,
) -> Result<u32, Refusal>
    ensures renewed { Renewed M.scale (L.meaning layout.now) hall marks.old marks.new (held tables.old) (held tables.new) result }
    ensures lent { SameTables tables.old tables.new }
{
    if hall >= layout.halls() {
        return Err(Refusal::NoHall(hall));
    }
    tables.check(layout.junctions())?;
    let hall = Hall {
        layout,
        number: hall,
    };
    hall.mark_inside::<M>(marks);
    hall.mark_for_entries(marks, tables);
    Ok(hall.count_marked(marks))
}
