ghost use Rattle.std.specs.Prelude.{◌≡◌};
ghost use Rattle.plan_text.specs.Parts.{entries_heard, entries_waits, entries_asks};
ghost use Rattle.plan_text.specs.Hears.{Tells};

use crate::due::Due;
use crate::kind::Kind;
use crate::listener::Listener;
use crate::values::LineValues;
use layout::refusal::Refusal;
use plan::draft::Draft;

// The junctions and legs of a plan: the draft that they are entered into, and how many of each were announced.
#[derive(Drop)]
pub(crate) struct Entries {
    pub(crate) kind: Kind,
    pub(crate) draft: Draft,
    pub(crate) points: u32,
    pub(crate) legs: u32,
}

impl Entries {
    // kept: this and the next differ in what is read and where it is entered, which is all they do.
    // An `at` line enters a junction.
    fn hear_at(&mut self, values: LineValues) -> Result<(), Refusal>
        ensures { Tells (entries_heard self.old) Due.At values.entry result (entries_heard self.new) }
    {
        let hall = values.number()?;
        self.draft
            .junction(hall)
            .map_err(|refusal| refusal.in_line(values.at))?;
        Ok(())
    }

    // A `leg` line enters a leg.
    fn hear_leg(&mut self, values: LineValues) -> Result<(), Refusal>
        ensures { Tells (entries_heard self.old) Due.Leg values.entry result (entries_heard self.new) }
    {
        let belt = values.belt()?;
        self.draft
            .leg(belt)
            .map_err(|refusal| refusal.in_line(values.at))?;
        Ok(())
    }
}

// They listen to the lines after the head, up to the last leg.
impl Listener for Entries {
    ghost heard = { entries_heard };

    ghost waits = { entries_waits };

    ghost asks = { entries_asks };

    fn due(&self) -> Option<Due> {
        if self.draft.junctions() < self.points {
            Some(Due::At)
        } else if self.draft.legs() < self.legs {
            Some(Due::Leg)
        } else {
            None
        }
    }

    fn tell(&mut self, due: Due, values: LineValues) -> Result<(), Refusal> {
        match due {
            Due::At => self.hear_at(values),
            Due::Leg => self.hear_leg(values),
            // kept: the contract rules the other lines out; an enum of lines for each part would say each key twice
            _ => unreachable(),
        }
    }
}
