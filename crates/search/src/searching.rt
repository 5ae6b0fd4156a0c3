// The search as it is called: over any layout, with tables that are handed in.
ghost use Rattle.std.specs.Prelude.{◌≡◌, ◌^◌, ◌<◌, ◌≤◌, [], length, take, Some, None, Ok, Err, IfOk, nat_lt};
ghost use Rattle.std.specs.List.{position};
ghost use Rattle.layout.specs.Refused.{answered};
ghost use Rattle.walks.specs.Book.{short_table};
ghost use Rattle.walks.specs.Net.{net, junctions};
ghost use Rattle.walks.specs.Search.{Searched};
ghost use Rattle.walks.specs.Tables.{tabled};
ghost use Rattle.search.specs.Answered.{Answered, Told, shown};
ghost use Rattle.search.specs.Counted.{Counted, AllCounted, SettledAll};
ghost use Rattle.search.specs.Desk.{held, sizes, Roomy, SameTables};
ghost use Rattle.search.specs.Explored.{Explored, Left};

use crate::found::Found;
use crate::running::run;
use crate::tables::Tables;
use crate::tracing::trace_way;
use crate::way::NO_LEG;
use layout::asking::Layout;
use layout::refusal::Refusal;
use measure::Measure;

// Where the first table stands that has no place for every junction.
fn first_short(junctions: usize, sizes: &[usize]) -> Option<usize>
    ensures { result ≡ position (λ size. nat_lt size junctions) sizes.now }
{
    sizes.iter().position(|size| *size < junctions)
}

// Refuses tables of which one has no place for every junction, by the position of the first. Up to 65,535 tables; no call has more than five.
pub fn check_tables(junctions: usize, sizes: &[usize]) -> Result<(), Refusal>
    ensures { length sizes.now < 2 ^ 16 → result ≡ answered (short_table junctions 1 sizes.now) tt }
{
    let Some(place) = first_short(junctions, sizes) else {
        return Ok(());
    };
    let position = u32::try_from(place).unwrap_or(u32::MAX);
    Err(Refusal::ShortTable(position.saturating_add(1)))
}

impl<'t, M: Measure> Tables<'t, M> {
    // Refuses tables that have no place for every junction.
    pub fn check(&self, junctions: u32) -> Result<(), Refusal>
        ensures { result ≡ answered (short_table junctions 1 (sizes (held self.now))) tt }
    {
        let sizes = [
            self.totals.len(),
            self.came.len(),
            self.waiting.len(),
            self.settled.len(),
        ];
        check_tables(junctions as usize, &sizes)
    }

    // The total that a search from the start has of a junction: there is one where the junction is the start, or came by a leg.
    // Past the end of a table stands the unit, or no leg.
    pub fn total_of(&self, start: u32, junction: u32) -> Option<M>
        ensures { result ≡ (tabled M.scale start (held self.now).totals (held self.now).came []).total junction }
    {
        let place = junction as usize;
        let came = self.came.get(place).copied().unwrap_or(NO_LEG);
        if junction != start && came == NO_LEG {
            return None;
        }
        Some(self.totals.get(place).copied().unwrap_or(M::unit()))
    }
}

// Searches in tables that are long enough, until the goal is settled or none waits. The answer is how many junctions were settled.
// kept: that the start exists is asked here, of `run` and of `tell`; a type of its own for it would be named in three places and made in two.
fn settle<L: Layout, M: Measure>(
    layout: &L,
    start: u32,
    goal: Option<u32>,
    tables: &mut Tables<M>,
) -> usize
    requires start { start < junctions (L.meaning layout.now) }
    requires room { Roomy (junctions (L.meaning layout.now)) (held tables.old) }
    ensures left { Left M.scale (L.meaning layout.now) start goal (held tables.old) (held tables.new) result }
    ensures counted { Counted (L.meaning layout.now) tables.new.settled.now result }
    ensures room { Roomy (junctions (L.meaning layout.now)) (held tables.new) }
    ensures lent { SameTables tables.old tables.new }
{
    let n = layout.junctions() as usize;
    run(
        layout,
        start,
        goal,
        &mut tables.totals[0..n],
        &mut tables.came[0..n],
        &mut tables.waiting[0..n],
        &mut tables.settled[0..n],
    )
}

// Settles every junction that a walk leads to from the start.
pub fn explore<L: Layout, M: Measure>(
    layout: &L,
    start: u32,
    tables: &mut Tables<M>,
) -> Result<u32, Refusal>
    ensures explored { Explored M.scale (L.meaning layout.now) start (held tables.old) (held tables.new) result }
    ensures counted { IfOk result (λ count. Counted (L.meaning layout.now) tables.new.settled.now count) }
    ensures all { IfOk result (λ count. SettledAll M.scale (L.meaning layout.now) start (held tables.new) count) }
    ensures lent { SameTables tables.old tables.new }
{
    let junctions = layout.junctions();
    if start >= junctions {
        return Err(Refusal::NoJunction(1));
    }
    tables.check(junctions)?;
    let count = settle(layout, start, None, tables);
    // kept: `as`, since no more are settled than there are junctions; a `try_from` would ask for an answer to what cannot be
    Ok(count as u32)
}

// What the tables tell of the goal when the search for it has ended; where it was settled, the way to it is written.
fn tell<L: Layout, M: Measure>(
    layout: &L,
    start: u32,
    goal: u32,
    count: usize,
    tables: &Tables<M>,
    way: &mut [u16],
) -> Result<Found<M>, Refusal>
    requires searched { Searched M.scale (net M.scale (L.meaning layout.now)) start (Some goal) (shown M.scale (L.meaning layout.now) start (held tables.now) count) }
    requires start { start < junctions (L.meaning layout.now) }
    requires goal { goal < junctions (L.meaning layout.now) }
    requires room { Roomy (junctions (L.meaning layout.now)) (held tables.now) }
    requires way { junctions (L.meaning layout.now) ≤ length way.old }
    requires few { count ≤ junctions (L.meaning layout.now) }
    ensures { Told M.scale (net M.scale (L.meaning layout.now)) start goal (shown M.scale (L.meaning layout.now) start (held tables.now) count) count way.old way.new result }
{
    let Some(total) = tables.total_of(start, goal) else {
        return Err(Refusal::NoWay(count as u32));
    };
    let legs = trace_way(layout, tables.came, &tables.settled[..count], goal, way);
    Ok(Found {
        total,
        settled: count as u32,
        legs: legs as u32,
    })
}

// Searches for a best way to the goal, and writes it, first leg first.
pub fn search<L: Layout, M: Measure>(
    layout: &L,
    start: u32,
    goal: u32,
    tables: &mut Tables<M>,
    way: &mut [u16],
) -> Result<Found<M>, Refusal>
    ensures answered { Answered M.scale (L.meaning layout.now) start goal (held tables.old) way.old (held tables.new) way.new result }
    ensures counted { AllCounted (L.meaning layout.now) tables.new.settled.now result }
    ensures lent { SameTables tables.old tables.new }
{
    let junctions = layout.junctions();
    if start >= junctions {
        return Err(Refusal::NoJunction(1));
    }
    if goal >= junctions {
        return Err(Refusal::NoJunction(2));
    }
    tables.check(junctions)?;
    if way.len() < junctions as usize {
        return Err(Refusal::ShortTable(5));
    }
    let count = settle(layout, start, Some(goal), tables);
    tell(layout, start, goal, count, tables, way)
}
