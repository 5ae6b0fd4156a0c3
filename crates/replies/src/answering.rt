// A text is answered: its plan, and then its orders.
ghost use Rattle.std.specs.Prelude.{◌≡◌, [], length, string_bytes, OnOk};
ghost use Rattle.plan.specs.Meant.{planned};
ghost use Rattle.router.specs.Worked.{Worked};
ghost use Rattle.replies.specs.Carried.{Roomy};
ghost use Rattle.replies.specs.Replied.{plan_reply, OrderReplies, RepliesBy, Replies, Said};

use crate::board::Board;
use crate::orders::Orders;
use crate::reply::Reply;
use crate::saying::say;
use layout::asking::Layout;
use layout::refusal::Refusal;
use measure::{Headroom, Measure, Printing, Tenths, TimeTurns};
use plan::draft::Plan;
use plan_text::kind::Kind;
use plan_text::reading::read_plan;
use router::router::Router;
use search::{Slot, Tables};
use std::alloc::{AllocError, Allocator};
use tokens::next_line;

// What is said of a plan: how much it holds.
fn describe(plan: &Plan) -> Reply
    ensures { result ≡ plan_reply (planned plan.now) }
{
    Reply::Plan {
        junctions: plan.junctions(),
        legs: plan.legs(),
        halls: plan.halls(),
    }
}

impl<'t, M: Printing> Board<'t, M> {
    // Answers the lines after a plan, on a router that was just commissioned.
    fn answer_orders<A: Allocator>(
        &mut self,
        out: &mut String<A>,
        orders: Orders,
    ) -> Result<(), AllocError>
        requires room { Roomy self.old }
        requires fresh { Worked M.Measure.scale (planned self.old.router.sheet.below) [] self.old.router.sheet.sheet self.old.router.halls }
        ensures { OnOk result (Said (OrderReplies M.Measure.scale M.Printing.written (planned self.old.router.sheet.below) [] orders.entry.lines orders.entry.bytes.now) (string_bytes out.old) (string_bytes out.new)) }
    {
        let mut rest = orders.bytes;
        let mut line = orders.lines;
        while !rest.is_empty() {
            line += 1;
            let Some((bytes, after)) = next_line(rest) else {
                return say(out, Reply::Refused(Refusal::NoEnd(line)));
            };
            self.answer_line(out, bytes, line)?;
            rest = after;
        }
        Ok(())
    }
}

// Commissions the plan for a measure, and answers the lines after it. The memory for totals is lent, each table with a place for every junction.
fn answer_by<M: Printing, A: Allocator>(
    out: &mut String<A>,
    plan: Plan,
    orders: Orders,
    totals: &mut [M],
    waiting: &mut [Slot<M>],
) -> Result<(), AllocError>
    requires totals { length totals.old ≡ 256 }
    requires waiting { length waiting.old ≡ 256 }
    ensures { OnOk result (Said (OrderReplies M.Measure.scale M.Printing.written (planned plan) [] orders.entry.lines orders.entry.bytes.now) (string_bytes out.old) (string_bytes out.new)) }
{
    let mut came = [0; 256];
    let mut settled = [0; 256];
    let mut way = [0; 256];
    let tables = Tables {
        totals,
        came: &mut came,
        waiting,
        settled: &mut settled,
    };
    let mut board = Board {
        router: Router::commission(plan),
        tables,
        way: &mut way,
    };
    board.answer_orders(out, orders)
}

// Answers the lines after a plan by the measure of that kind. The memory for totals is made here, where their size is known.
// Always inlined: as a function of its own it takes another copy of the plan and of the router on the stack.
#[inline(always)]
fn answer_by_kind<A: Allocator>(
    out: &mut String<A>,
    kind: Kind,
    plan: Plan,
    orders: Orders,
) -> Result<(), AllocError>
    ensures { OnOk result (Said (RepliesBy kind (planned plan) orders.entry.lines orders.entry.bytes.now) (string_bytes out.old) (string_bytes out.new)) }
{
    // kept: a macro, since an array of a type parameter's values asks for a bound on their size, which no clause can give
    macro_rules! answer_by_total {
        ($total:ty) => {{
            let total = <$total>::unit();
            let mut totals = [total; 256];
            let mut waiting = [Slot { total, number: 0 }; 256];
            answer_by(out, plan, orders, &mut totals, &mut waiting)
        }};
    }
    match kind {
        Kind::Time => answer_by_total!(Tenths),
        Kind::Clearance => answer_by_total!(Headroom),
        Kind::TimeThenTurns => answer_by_total!(TimeTurns),
    }
}

// Writes the whole answer to a text at the end of `out`: what its plan holds, or the refusal that the plan earned, and then what its orders earn.
// Where there is no memory for it, an error; `out` is then free.
pub fn answer<A: Allocator>(out: &mut String<A>, text: &[u8]) -> Result<(), AllocError>
    ensures { OnOk result (Said (Replies text.now) (string_bytes out.old) (string_bytes out.new)) }
{
    let reading = read_plan(text);
    if let Some(refusal) = reading.refusal {
        return say(out, Reply::Refused(refusal));
    }
    let (Some(kind), Some(draft)) = (reading.kind, reading.draft) else {
        return Ok(());
    };
    let plan = draft.finish();
    say(out, describe(&plan))?;
    let rest = reading.rest;
    let orders = Orders {
        lines: reading.lines,
        bytes: &text[rest..],
    };
    answer_by_kind(out, kind, plan, orders)
}
