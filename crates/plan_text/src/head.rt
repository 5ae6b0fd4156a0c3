ghost use Rattle.std.specs.Prelude.{◌≡◌, None};
ghost use Rattle.plan_text.specs.Heard.{silence};
ghost use Rattle.plan_text.specs.Parts.{head_heard, head_waits, head_asks, entries_heard};
ghost use Rattle.plan_text.specs.Hears.{Tells};

use crate::due::Due;
use crate::entries::Entries;
use crate::kind::Kind;
use crate::listener::Listener;
use crate::values::LineValues;
use layout::limits::{MOST_JUNCTIONS, MOST_LEGS};
use layout::refusal::Refusal;
use plan::draft::Draft;

// The head of a plan: what its first five lines said, as far as they were accepted.
#[derive(Drop)]
pub(crate) struct Head {
    pub(crate) version: bool,
    pub(crate) kind: Option<Kind>,
    pub(crate) draft: Option<Draft>,
    pub(crate) points: Option<u32>,
    pub(crate) legs: Option<u32>,
}

impl Head {
    // Before the first line.
    pub(crate) fn begin() -> Head
        ensures { head_heard result ≡ silence }
    {
        Head {
            version: false,
            kind: None,
            draft: None,
            points: None,
            legs: None,
        }
    }

    // The plan line: the plan is of form 1.
    fn hear_version(&mut self, values: LineValues) -> Result<(), Refusal>
        ensures { Tells (head_heard self.old) Due.Version values.entry result (head_heard self.new) }
    {
        let number = values.number()?;
        if number != 1 {
            return Err(Refusal::OutOfRange(values.at));
        }
        self.version = true;
        Ok(())
    }

    // The measure line.
    fn hear_measure(&mut self, values: LineValues) -> Result<(), Refusal>
        ensures { Tells (head_heard self.old) Due.Measure values.entry result (head_heard self.new) }
    {
        let letter = values.letter()?;
        let kind = Kind::try_from(letter).map_err(|_| Refusal::OutOfRange(values.at))?;
        self.kind = Some(kind);
        Ok(())
    }

    // The halls line begins the draft.
    fn hear_halls(&mut self, values: LineValues) -> Result<(), Refusal>
        ensures { Tells (head_heard self.old) Due.Halls values.entry result (head_heard self.new) }
    {
        let halls = values.number()?;
        let draft = Draft::begin(halls).map_err(|refusal| refusal.in_line(values.at))?;
        self.draft = Some(draft);
        Ok(())
    }

    // kept: this and the next differ in a limit and a field, and are two lines each.
    // The points line announces the junctions.
    fn hear_points(&mut self, values: LineValues) -> Result<(), Refusal>
        ensures { Tells (head_heard self.old) Due.Points values.entry result (head_heard self.new) }
    {
        self.points = Some(values.number_up_to(MOST_JUNCTIONS)?);
        Ok(())
    }

    // The legs line announces the legs.
    fn hear_legs(&mut self, values: LineValues) -> Result<(), Refusal>
        ensures { Tells (head_heard self.old) Due.Legs values.entry result (head_heard self.new) }
    {
        self.legs = Some(values.number_up_to(MOST_LEGS)?);
        Ok(())
    }

    // What comes after the head, where all its lines were accepted.
    pub(crate) fn entries(self) -> Entries
        requires { head_waits self ≡ None }
        ensures { entries_heard result ≡ head_heard self }
    {
        let (Some(kind), Some(draft), Some(points), Some(legs)) = (
            self.kind,
            self.draft,
            self.points,
            self.legs,
        ) else {
            // kept: the contract rules a missing line out; an `Err` would be an answer to what cannot be
            unreachable()
        };
        Entries {
            kind,
            draft,
            points,
            legs,
        }
    }
}

// The head listens to the lines before the first junction.
impl Listener for Head {
    ghost heard = { head_heard };

    ghost waits = { head_waits };

    ghost asks = { head_asks };

    fn due(&self) -> Option<Due> {
        if !self.version {
            Some(Due::Version)
        } else if self.kind.is_none() {
            Some(Due::Measure)
        } else if self.draft.is_none() {
            Some(Due::Halls)
        } else if self.points.is_none() {
            Some(Due::Points)
        } else if self.legs.is_none() {
            Some(Due::Legs)
        } else {
            None
        }
    }

    fn tell(&mut self, due: Due, values: LineValues) -> Result<(), Refusal> {
        match due {
            Due::Version => self.hear_version(values),
            Due::Measure => self.hear_measure(values),
            Due::Halls => self.hear_halls(values),
            Due::Points => self.hear_points(values),
            Due::Legs => self.hear_legs(values),
            // kept: the contract rules the other lines out; an enum of lines for each part would say each key twice
            Due::At | Due::Leg => unreachable(),
        }
    }
}
