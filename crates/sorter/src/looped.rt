ghost use Rattle.std.specs.Prelude.{◌≡◌, ℕ, ◌<◌, Some, None, Ok, Err};
ghost use Rattle.std.specs.Option.{option_map};
ghost use Rattle.std.specs.List.{slice_get};
ghost use Rattle.layout.specs.Plant.{leg_of};
ghost use Rattle.sorter.specs.Ring.{after, ring, loop_due};
ghost use Rattle.sorter.specs.Limited.{ring_sound};

use crate::ring::SorterLoop;
use layout::asking::Layout;
use layout::belt::Belt;
use layout::limits::{MOST_JUNCTIONS, class_fits, clearance_fits, metres_fit};
use layout::refusal::Refusal;

impl SorterLoop {
    // A loop of so many junctions, with these figures for every leg.
    pub fn begin(
        junctions: u32,
        metres: u32,
        class: u32,
        clearance: u32,
    ) -> Result<SorterLoop, Refusal>
        ensures { elim result [ Ok l ↦ (loop_due junctions metres class clearance ≡ None) × (l.junctions ≡ junctions) × (l.metres ≡ metres) × (l.class ≡ class) × (l.clearance ≡ clearance) | Err e ↦ loop_due junctions metres class clearance ≡ Some e ] }
    {
        if !(2..=MOST_JUNCTIONS).contains(&junctions) {
            return Err(Refusal::OutOfRange(1));
        }
        if !metres_fit(metres) {
            return Err(Refusal::OutOfRange(2));
        }
        if !class_fits(class) {
            return Err(Refusal::OutOfRange(3));
        }
        if !clearance_fits(clearance) {
            return Err(Refusal::OutOfRange(4));
        }
        Ok(SorterLoop {
            junctions,
            metres,
            class,
            clearance,
        })
    }

    // The junction after one of the loop.
    fn next(&self, junction: u32) -> u32
        requires { junction < self.now.junctions }
        ensures { result ≡ after self.now.junctions junction }
    {
        if junction + 1 < self.junctions {
            junction + 1
        } else {
            0
        }
    }

    // The junction before one of the loop.
    fn before(&self, junction: u32) -> u32
        requires { junction < self.now.junctions }
        ensures within { result < self.now.junctions }
        ensures leads { after self.now.junctions result ≡ junction }
        ensures alone { (i : ℕ) → i < self.now.junctions → after self.now.junctions i ≡ junction → i ≡ result }
    {
        if junction == 0 {
            self.junctions - 1
        } else {
            junction - 1
        }
    }

    // A leg of the loop.
    fn belt(&self, leg: u32) -> Option<Belt>
        ensures { option_map leg_of result ≡ slice_get (ring self.now).legs leg }
    {
        (leg < self.junctions).then(|| Belt {
            tail: leg,
            head: self.next(leg),
            metres: self.metres,
            class: self.class,
            clearance: self.clearance,
            turn: 0,
        })
    }
}

// A sorter loop as a layout; every answer is computed.
// kept: a question for each figure, as was asked for.
impl Layout for SorterLoop {
    ghost meaning = { ring };

    ghost sound = { ring_sound };

    fn halls(&self) -> u32 {
        self.junctions.div_ceil(8)
    }

    fn junctions(&self) -> u32 {
        self.junctions
    }

    fn legs(&self) -> u32 {
        self.junctions
    }

    fn hall_of(&self, junction: u32) -> Option<u32> {
        (junction < self.junctions).then_some(junction / 8)
    }

    fn tail(&self, leg: u32) -> Option<u32> {
        self.belt(leg).map(|belt| belt.tail)
    }

    fn head(&self, leg: u32) -> Option<u32> {
        self.belt(leg).map(|belt| belt.head)
    }

    fn metres(&self, leg: u32) -> Option<u32> {
        self.belt(leg).map(|belt| belt.metres)
    }

    fn class(&self, leg: u32) -> Option<u32> {
        self.belt(leg).map(|belt| belt.class)
    }

    fn clearance(&self, leg: u32) -> Option<u32> {
        self.belt(leg).map(|belt| belt.clearance)
    }

    fn turn(&self, leg: u32) -> Option<u32> {
        self.belt(leg).map(|belt| belt.turn)
    }

    fn is_open(&self, leg: u32) -> Option<bool> {
        self.belt(leg).map(|_| true)
    }

    fn leaving(&self, junction: u32, from: u32) -> Option<u32> {
        (junction < self.junctions && from <= junction).then_some(junction)
    }

    fn reaching(&self, junction: u32, from: u32) -> Option<u32> {
        if junction >= self.junctions {
            return None;
        }
        let leg = self.before(junction);
        (from <= leg).then_some(leg)
    }
}
