// What the divert board writes in answer to a text.
#![tactic(auto)]

use layout::asking::Layout;
use layout::refusal::Refusal;
use plan::draft::Plan;
use plan_text::reading::read_plan;
use std::io;
use std::io::Write;
use tokens::next_line;

// A refusal, on its two lines.
// kept: writing stands in functions of its own, since a write and a return beside a reading that is taken apart are not covered.
fn write_refusal<W: Write>(out: &mut W, refusal: Refusal) -> io::Result<()> {
    writeln!(out, "{refusal}")
}

// What a plan holds: junctions, legs and halls.
fn write_plan<W: Write>(out: &mut W, plan: &Plan) -> io::Result<()> {
    let junctions = plan.junctions();
    let legs = plan.legs();
    let halls = plan.halls();
    writeln!(out, "plan={junctions},{legs},{halls}")
}

// The lines after a plan of so many lines: no order is known yet, so none of them is due.
// kept: `replies` goes through lines so too, but carries them out; what both do is the loop alone.
fn refuse_orders<W: Write>(out: &mut W, orders: &[u8], lines: u32) -> io::Result<()> {
    let mut rest = orders;
    let mut line = lines;
    while !rest.is_empty() {
        line = line.saturating_add(1);
        let Some((_, after)) = next_line(rest) else {
            return write_refusal(out, Refusal::NoEnd(line));
        };
        write_refusal(out, Refusal::NotDue(line))?;
        rest = after;
    }
    Ok(())
}

// Answers a whole text: what its plan holds, or the refusal that the plan earned, and then its orders.
pub fn answer<W: Write>(out: &mut W, text: &[u8]) -> io::Result<()> {
    let reading = read_plan(text);
    if let Some(refusal) = reading.refusal {
        return write_refusal(out, refusal);
    }
    let rest = reading.rest;
    let lines = reading.lines;
    if let Some(draft) = reading.draft {
        write_plan(out, &draft.finish())?;
    }
    refuse_orders(out, &text[rest..], lines)
}
