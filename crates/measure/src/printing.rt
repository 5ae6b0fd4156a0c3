// How totals are written.
ghost use Rattle.std.specs.Prelude.{◌≡◌, ℕ, List, Some, refl};
ghost use Rattle.measure.specs.Written.{time_written, clearance_written, turns_written};

use crate::measure::Measure;
use crate::totals::{Headroom, Tenths, TimeTurns};
use std::fmt;

// A measure that also says how its total is written, by `{}`.
pub trait Printing: Measure + fmt::Display {
    // The bytes of a total's text.
    ghost written: { Self → List ℕ };

    // `{}` writes these bytes and no others.
    ghost shows: { (total : Self) → Self.Display.output total ≡ Some (written total) };
}

impl fmt::Display for Tenths {
    ghost output = { λ total. Some (time_written total) };

    fn fmt<W: fmt::Write>(&self, f: &mut fmt::Formatter<W>) -> fmt::Result {
        write!(f, "{}", self.tenths)
    }
}

impl fmt::Display for Headroom {
    ghost output = { λ total. Some (clearance_written total) };

    fn fmt<W: fmt::Write>(&self, f: &mut fmt::Formatter<W>) -> fmt::Result {
        write!(f, "{}", self.centimetres)
    }
}

impl fmt::Display for TimeTurns {
    ghost output = { λ total. Some (turns_written total) };

    fn fmt<W: fmt::Write>(&self, f: &mut fmt::Formatter<W>) -> fmt::Result {
        write!(f, "{},{}", self.time, self.turns)
    }
}

// kept: an impl for each measure, since each names the bytes of its own text.
impl Printing for Tenths {
    ghost written = { time_written };

    ghost shows = { λ total. refl };
}

impl Printing for Headroom {
    ghost written = { clearance_written };

    ghost shows = { λ total. refl };
}

impl Printing for TimeTurns {
    ghost written = { turns_written };

    ghost shows = { λ total. refl };
}
