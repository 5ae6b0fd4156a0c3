// The three measures: time, clearance, and time then turns.
ghost use Rattle.std.specs.Prelude.{◌≡◌, min};
ghost use Rattle.measure.specs.Limits.{stop};
ghost use Rattle.measure.specs.Kinds.{pace_of, leg_time, time_scale, clearance_scale, turns_scale, pair_of, BothStop};
ghost use Rattle.measure.specs.Lawfulness.{time_lawful, clearance_lawful, turns_lawful};

use crate::figures::Figures;
use crate::measure::Measure;
use crate::totals::{Headroom, Tenths, TimeTurns};

// Tenths of a second per metre, by drive class.
const PACES: [u32; 8] = [20, 16, 14, 12, 10, 8, 6, 5];

// The pace of a class; a class past the table has 0.
fn pace(class: u32) -> u32
    ensures { result ≡ pace_of class }
{
    PACES.get(class as usize).copied().unwrap_or(0)
}

// The time of a leg in tenths of a second, stopped at the largest number of 32 bits.
fn leg_time(figures: Figures) -> u32
    ensures { result ≡ min (leg_time figures) stop }
{
    figures.metres.saturating_mul(pace(figures.class))
}

// t: the shorter time is lower.
impl Measure for Tenths {
    const LETTER: u8 = b't';

    ghost LETTER = { 116 };

    ghost scale = { time_scale };

    ghost lawful = { time_lawful };

    fn unit() -> Self {
        Tenths { tenths: 0 }
    }

    fn weight(figures: Figures) -> Self {
        Tenths {
            tenths: leg_time(figures),
        }
    }

    fn join(self, other: Self) -> Self {
        Tenths {
            tenths: self.tenths.saturating_add(other.tenths),
        }
    }

    fn is_below(self, other: Self) -> bool {
        self < other // by the tenths
    }
}

// h: the larger clearance counts as lower.
impl Measure for Headroom {
    const LETTER: u8 = b'h';

    ghost LETTER = { 104 };

    ghost scale = { clearance_scale };

    ghost lawful = { clearance_lawful };

    fn unit() -> Self {
        Headroom {
            centimetres: u16::MAX,
        }
    }

    fn weight(figures: Figures) -> Self {
        Headroom {
            centimetres: u16::try_from(figures.clearance).unwrap_or(u16::MAX),
        }
    }

    fn join(self, other: Self) -> Self {
        Headroom {
            centimetres: self.centimetres.min(other.centimetres),
        }
    }

    fn is_below(self, other: Self) -> bool {
        self > other
    }
}

// The pair of a time and a number of turns; where the time has reached its stop, the turns stand at theirs too.
fn stopped(time: u32, turns: u32) -> TimeTurns
    ensures { result ≡ pair_of time turns }
{
    if time < u32::MAX {
        TimeTurns { time, turns }
    } else {
        TimeTurns {
            time: u32::MAX,
            turns: u32::MAX,
        }
    }
}

// d: the shorter time is lower, and at equal times fewer turns.
impl Measure for TimeTurns {
    const LETTER: u8 = b'd';

    ghost LETTER = { 100 };

    ghost scale = { turns_scale };

    ghost lawful = { turns_lawful };

    fn unit() -> Self {
        TimeTurns { time: 0, turns: 0 }
    }

    fn weight(figures: Figures) -> Self {
        stopped(leg_time(figures), figures.turn)
    }

    fn join(self, other: Self) -> Self {
        stopped(
            self.time.saturating_add(other.time),
            self.turns.saturating_add(other.turns),
        )
    }

    fn is_below(self, other: Self) -> bool {
        self < other // by the time, then by the turns
    }
}

// A time one short of the stop, with 5 turns, joined with 1 and no turn: both numbers stop.
pub fn both_stop() -> TimeTurns
    ensures theorem { BothStop }
    ensures computed { result ≡ pair_of stop stop }
{
    let long = TimeTurns {
        time: 4294967294,
        turns: 5,
    };
    long.join(TimeTurns { time: 1, turns: 0 })
}
