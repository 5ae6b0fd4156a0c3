// The promise to the crews, whole: over every list of orders.
ghost use Rattle.search.specs.Desk.{held, SameTables};
ghost use Rattle.shift.specs.Kept.{KeptAfter};
ghost use Rattle.shift.specs.Turns.{places_of, calls_of, AnswersShift};

use crate::turn::Turn;
use crate::working::work;
use layout::asking::Layout;
use layout::refusal::Refusal;
use measure::Measure;
use router::router::Router;
use search::{Found, Tables};

// Commissions a layout, carries out any list of orders, each with the tables that it is lent, and then routes: the replies are those of the crew's book, and the route keeps its promise.
pub fn promise_kept_after<L: Layout + Drop, M: Measure>(
    layout: L,
    turns: &mut [Turn<M>],
    start: u32,
    goal: u32,
    tables: &mut Tables<M>,
    way: &mut [u16],
) -> Result<Found<M>, Refusal>
    ensures answers { AnswersShift M.scale (L.Layout.meaning layout) (places_of (held tables.old) way.old) turns.old turns.new }
    ensures promise { KeptAfter M.scale (L.Layout.meaning layout) (calls_of (places_of (held tables.old) way.old) turns.old) start goal (places_of (held tables.old) way.old) (held tables.new) way.new result }
    ensures lent { SameTables tables.old tables.new }
{
    let mut router = Router::commission(layout);
    work(&mut router, turns, tables, way);
    let found = router.route(start, goal, tables, way);
    drop(router);
    found
}
