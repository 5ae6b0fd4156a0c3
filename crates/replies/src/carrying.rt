// Orders are carried out, and what the router answers is written.
ghost use Rattle.std.specs.Prelude.{◌≡◌, string_bytes, OnOk, IfOk, OnErr};
ghost use Rattle.layout.specs.Refused.{in_line};
ghost use Rattle.plan.specs.Meant.{planned};
ghost use Rattle.order_text.specs.declared.order.Order.TheVariants as asked;
ghost use Rattle.replies.specs.declared.reply.Reply.TheVariants as reply;
ghost use Rattle.replies.specs.Carried.{lapsed_reply, marked_reply, Roomy, Carried, LineAnswered};

use crate::board::Board;
use crate::reply::Reply;
use crate::saying::{say, say_way};
use crate::way::Way;
use layout::refusal::Refusal;
use measure::Printing;
use order_text::{Order, read_order};
use std::alloc::{AllocError, Allocator};

// The refusal of a call that the line asked for.
fn refused(refusal: Refusal, line: u32) -> Reply
    ensures { result ≡ reply.Refused (in_line line refusal) }
{
    Reply::Refused(refusal.in_line(line))
}

// What is said of an order on the day sheet that the line asked for.
// kept: this and the next name the reply that each makes; one with the reply as a closure has a contract over any closure, and says less.
fn lapsed(answer: Result<u32, Refusal>, line: u32) -> Reply
    ensures { result ≡ lapsed_reply line answer }
{
    answer.map_or_else(|refusal| refused(refusal, line), Reply::Lapsed)
}

// What is said of renewing that the line asked for.
fn marked(answer: Result<u32, Refusal>, line: u32) -> Reply
    ensures { result ≡ marked_reply line answer }
{
    answer.map_or_else(|refusal| refused(refusal, line), Reply::Marked)
}

impl<'t, M: Printing> Board<'t, M> {
    // Finds a way, and writes it or why there is none.
    fn find_way<A: Allocator>(
        &mut self,
        out: &mut String<A>,
        start: u32,
        goal: u32,
        line: u32,
    ) -> Result<(), AllocError>
        requires { Roomy self.old }
        ensures router { self.new.router ≡ self.old.router }
        ensures room { Roomy self.new }
        ensures order { OnOk result (Carried M.Measure.scale M.Printing.written (planned self.old.router.sheet.below) line (asked.Route start goal) self.old.router.sheet.sheet self.old.router.sheet.sheet self.old.router.halls self.old.router.halls (string_bytes out.old) (string_bytes out.new)) }
    {
        match self.router.route(start, goal, &mut self.tables, self.way) {
            Ok(found) => {
                let legs = found.legs as usize;
                let way = Way {
                    total: found.total,
                    settled: found.settled,
                    legs: &self.way[..legs],
                };
                say_way(out, way)
            }
            Err(refusal) => say(out, refused(refusal, line)),
        }
    }

    // Carries out the order of a line, and writes what the router answers.
    fn carry_out<A: Allocator>(
        &mut self,
        out: &mut String<A>,
        order: Order,
        line: u32,
    ) -> Result<(), AllocError>
        requires { Roomy self.old }
        ensures below { self.new.router.sheet.below ≡ self.old.router.sheet.below }
        ensures room { Roomy self.new }
        ensures order { OnOk result (Carried M.Measure.scale M.Printing.written (planned self.old.router.sheet.below) line order self.old.router.sheet.sheet self.new.router.sheet.sheet self.old.router.halls self.new.router.halls (string_bytes out.old) (string_bytes out.new)) }
    {
        match order {
            Order::Shut { leg } => say(out, lapsed(self.router.shut(leg), line)),
            Order::Open { leg } => say(out, lapsed(self.router.open(leg), line)),
            Order::Set {
                leg,
                class,
                clearance,
            } => say(out, lapsed(self.router.set(leg, class, clearance), line)),
            Order::Renew { hall } => {
                let answer = self.router.renew(hall, &mut self.tables);
                say(out, marked(answer, line))
            }
            Order::Route { start, goal } => self.find_way(out, start, goal, line),
        }
    }

    // Answers the line of that number, which comes without its end: its order is carried out, or its refusal is written.
    pub(crate) fn answer_line<A: Allocator>(
        &mut self,
        out: &mut String<A>,
        bytes: &[u8],
        line: u32,
    ) -> Result<(), AllocError>
        requires { Roomy self.old }
        ensures below { self.new.router.sheet.below ≡ self.old.router.sheet.below }
        ensures room { Roomy self.new }
        ensures line { OnOk result (LineAnswered M.Measure.scale M.Printing.written (planned self.old.router.sheet.below) bytes.now line self.old.router.sheet.sheet self.new.router.sheet.sheet self.old.router.halls self.new.router.halls (string_bytes out.old) (string_bytes out.new)) }
    {
        match read_order(bytes, line) {
            Ok(order) => self.carry_out(out, order, line),
            Err(refusal) => say(out, Reply::Refused(refusal)),
        }
    }
}
