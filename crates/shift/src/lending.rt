// Orders are carried out with the tables that they are lent.
ghost use Rattle.std.specs.Prelude.{◌≡◌, ℕ, List, length, MatchResult};
ghost use Rattle.router.specs.Ordered.{marked_answer};
ghost use Rattle.router.specs.Routing.{route_answer};
ghost use Rattle.router.specs.Worked.{GoesOn};
ghost use Rattle.search.specs.Desk.{held, SameTables};
ghost use Rattle.walks.specs.Book.{renew, route};
ghost use Rattle.shift.specs.declared.turn.Reply.TheVariants as reply;
ghost use Rattle.shift.specs.Turns.{places_of, lent, call_of, WholeWay, AnswersCall};

use crate::turn::{Places, Reply, Turn};
use layout::asking::Layout;
use layout::refusal::Refusal;
use measure::Measure;
use order_text::Order;
use router::router::Router;
use search::{Found, Slot, Tables};

impl Places {
    // The places that an order which wants so many is lent of these tables.
    fn lent<M>(self, tables: &Tables<M>, way: &[u16]) -> Places
        ensures { result ≡ lent self (places_of (held tables.now) way.now) }
    {
        Places {
            totals: self.totals.min(tables.totals.len()),
            came: self.came.min(tables.came.len()),
            waiting: self.waiting.min(tables.waiting.len()),
            settled: self.settled.min(tables.settled.len()),
            way: self.way.min(way.len()),
        }
    }
}

// Renews a hall with these tables.
// kept: four slices at one lifetime, since the borrow checker does not cover a call with a `Tables` of reborrowed parts.
fn renew_in<'t, L: Layout, M: Measure>(
    router: &mut Router<L, M>,
    hall: u32,
    totals: &'t mut [M],
    came: &'t mut [u16],
    waiting: &'t mut [Slot<M>],
    settled: &'t mut [u16],
) -> Result<u32, Refusal>
    ensures below { router.new.sheet.below ≡ router.old.sheet.below }
    ensures book { GoesOn M.scale (L.Layout.meaning router.old.sheet.below) (renew hall (length totals.old) (length came.old) (length waiting.old) (length settled.old)) (marked_answer result) router.old.sheet.sheet router.old.halls router.new.sheet.sheet router.new.halls }
{
    let mut tables = Tables {
        totals,
        came,
        waiting,
        settled,
    };
    router.renew(hall, &mut tables)
}

// Routes with these tables.
// kept: the same.
fn route_in<'t, L: Layout, M: Measure>(
    router: &Router<L, M>,
    start: u32,
    goal: u32,
    totals: &'t mut [M],
    came: &'t mut [u16],
    waiting: &'t mut [Slot<M>],
    settled: &'t mut [u16],
    way: &mut [u16],
) -> Result<Found<M>, Refusal>
    ensures { (w : List ℕ) × WholeWay result w × GoesOn M.scale (L.Layout.meaning router.now.sheet.below) (route start goal (length totals.old) (length came.old) (length waiting.old) (length settled.old) (length way.old)) (route_answer result w) router.now.sheet.sheet router.now.halls router.now.sheet.sheet router.now.halls }
{
    let mut tables = Tables {
        totals,
        came,
        waiting,
        settled,
    };
    router.route(start, goal, &mut tables, way)
}

// Carries out the order of a turn with the tables that it is lent; the answer is the reply, or why it was refused.
fn try_turn<L: Layout, M: Measure>(
    router: &mut Router<L, M>,
    turn: &Turn<M>,
    tables: &mut Tables<M>,
    way: &mut [u16],
) -> Result<Reply<M>, Refusal>
    ensures below { router.new.sheet.below ≡ router.old.sheet.below }
    ensures book { MatchResult result (AnswersCall M.scale (L.Layout.meaning router.old.sheet.below) (call_of turn.now.order (lent turn.now.places (places_of (held tables.old) way.old))) router.old.sheet.sheet router.old.halls router.new.sheet.sheet router.new.halls) (λ why. AnswersCall M.scale (L.Layout.meaning router.old.sheet.below) (call_of turn.now.order (lent turn.now.places (places_of (held tables.old) way.old))) router.old.sheet.sheet router.old.halls router.new.sheet.sheet router.new.halls (reply.Refused why)) }
    ensures places { places_of (held tables.new) way.new ≡ places_of (held tables.old) way.old }
    ensures lent { SameTables tables.old tables.new }
{
    let n = turn.places.lent(tables, way);
    match turn.order {
        Order::Shut { leg } => Ok(Reply::Lapsed(router.shut(leg)?)),
        Order::Open { leg } => Ok(Reply::Lapsed(router.open(leg)?)),
        Order::Set {
            leg,
            class,
            clearance,
        } => Ok(Reply::Lapsed(router.set(leg, class, clearance)?)),
        Order::Renew { hall } => Ok(Reply::Marked(renew_in(
            router,
            hall,
            &mut tables.totals[..n.totals],
            &mut tables.came[..n.came],
            &mut tables.waiting[..n.waiting],
            &mut tables.settled[..n.settled],
        )?)),
        Order::Route { start, goal } => Ok(Reply::Found(route_in(
            router,
            start,
            goal,
            &mut tables.totals[..n.totals],
            &mut tables.came[..n.came],
            &mut tables.waiting[..n.waiting],
            &mut tables.settled[..n.settled],
            &mut way[..n.way],
        )?)),
    }
}

// Carries out the order of a turn with the tables that it is lent.
pub(crate) fn carry_out<L: Layout, M: Measure>(
    router: &mut Router<L, M>,
    turn: &Turn<M>,
    tables: &mut Tables<M>,
    way: &mut [u16],
) -> Reply<M>
    ensures below { router.new.sheet.below ≡ router.old.sheet.below }
    ensures book { AnswersCall M.scale (L.Layout.meaning router.old.sheet.below) (call_of turn.now.order (lent turn.now.places (places_of (held tables.old) way.old))) router.old.sheet.sheet router.old.halls router.new.sheet.sheet router.new.halls result }
    ensures places { places_of (held tables.new) way.new ≡ places_of (held tables.old) way.old }
    ensures lent { SameTables tables.old tables.new }
{
    // kept: `unwrap_or_else(Reply::Refused)` gets no generated proof
    match try_turn(router, turn, tables, way) {
        Ok(said) => said,
        Err(refusal) => Reply::Refused(refusal),
    }
}
