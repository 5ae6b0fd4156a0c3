ghost use Rattle.std.specs.Prelude.{◌≡◌};
ghost use Rattle.std.specs.Option.{option_map};
ghost use Rattle.std.specs.List.{slice_get};
ghost use Rattle.layout.specs.Plant.{leg_of};
ghost use Rattle.plan.specs.Meant.{planned};
ghost use Rattle.plan.specs.Limited.{plan_sound};

use crate::draft::Plan;
use layout::asking::Layout;
use layout::belt::Belt;

impl Plan {
    // A leg as it was entered.
    fn belt(&self, leg: u32) -> Option<Belt>
        ensures { option_map leg_of result ≡ slice_get (planned self.now).legs leg }
    {
        self.drawing.belt_at(leg)
    }
}

// A drawn plan as a layout: what was entered, every leg open.
// kept: a question for each figure, as was asked for.
impl Layout for Plan {
    ghost meaning = { planned };

    ghost sound = { plan_sound };

    fn halls(&self) -> u32 {
        self.drawing.halls
    }

    fn junctions(&self) -> u32 {
        self.drawing.points
    }

    fn legs(&self) -> u32 {
        self.drawing.count
    }

    fn hall_of(&self, junction: u32) -> Option<u32> {
        self.drawing.hall_at(junction)
    }

    fn tail(&self, leg: u32) -> Option<u32> {
        self.belt(leg).map(|belt| belt.tail)
    }

    fn head(&self, leg: u32) -> Option<u32> {
        self.belt(leg).map(|belt| belt.head)
    }

    fn metres(&self, leg: u32) -> Option<u32> {
        self.belt(leg).map(|belt| belt.metres)
    }

    fn class(&self, leg: u32) -> Option<u32> {
        self.belt(leg).map(|belt| belt.class)
    }

    fn clearance(&self, leg: u32) -> Option<u32> {
        self.belt(leg).map(|belt| belt.clearance)
    }

    fn turn(&self, leg: u32) -> Option<u32> {
        self.belt(leg).map(|belt| belt.turn)
    }

    fn is_open(&self, leg: u32) -> Option<bool> {
        self.belt(leg).map(|_| true)
    }

    fn leaving(&self, junction: u32, from: u32) -> Option<u32> {
        self.drawing.leaving.from(junction, from)
    }

    fn reaching(&self, junction: u32, from: u32) -> Option<u32> {
        self.drawing.reaching.from(junction, from)
    }
}
