ghost use Rattle.std.specs.Prelude.{◌≡◌};
ghost use Rattle.layers.specs.Day.{entered};
ghost use Rattle.layers.specs.Soundness.{entered_sound};

use crate::day::DaySheet;
use layout::asking::Layout;

// A layout with its day sheet means the layout below with the sheet entered.
// kept: `class` and `clearance` are a question for each figure, as was asked for; questions that it does not alter are handed on one by one; an impl for all that hand questions on clashes with that of a lent layout.
#[tactic(auto, using(crate::proofs::Relegging::figure_changed, crate::specs::Soundness::length_changed, crate::proofs::Entering::entered_tails, crate::proofs::Entering::entered_heads))]
impl<L: Layout> Layout for DaySheet<L> {
    ghost meaning = { λ d. entered d.sheet (L.Layout.meaning d.below) };

    ghost sound = { λ d. entered_sound d.sheet (L.Layout.meaning d.below) d.fit (L.Layout.sound d.below) };

    fn halls(&self) -> u32 {
        self.below.halls()
    }

    fn junctions(&self) -> u32 {
        self.below.junctions()
    }

    fn legs(&self) -> u32 {
        self.below.legs()
    }

    fn hall_of(&self, junction: u32) -> Option<u32> {
        self.below.hall_of(junction)
    }

    fn tail(&self, leg: u32) -> Option<u32> {
        self.below.tail(leg)
    }

    fn head(&self, leg: u32) -> Option<u32> {
        self.below.head(leg)
    }

    fn metres(&self, leg: u32) -> Option<u32> {
        self.below.metres(leg)
    }

    fn class(&self, leg: u32) -> Option<u32> {
        let own = self.below.class(leg)?;
        Some(self.sheet.replacing(leg).map_or(own, |by| by.class))
    }

    fn clearance(&self, leg: u32) -> Option<u32> {
        let own = self.below.clearance(leg)?;
        Some(self.sheet.replacing(leg).map_or(own, |by| by.clearance))
    }

    fn turn(&self, leg: u32) -> Option<u32> {
        self.below.turn(leg)
    }

    fn is_open(&self, leg: u32) -> Option<bool> {
        Some(self.below.is_open(leg)? && !self.sheet.is_shut(leg))
    }

    fn leaving(&self, junction: u32, from: u32) -> Option<u32> {
        self.below.leaving(junction, from)
    }

    fn reaching(&self, junction: u32, from: u32) -> Option<u32> {
        self.below.reaching(junction, from)
    }
}
