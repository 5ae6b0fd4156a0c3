// The totals of the three measures. Each type says which numbers it holds, so that the laws need no premise.
ghost use Rattle.std.specs.Prelude.{◌≡◌, ◌≤◌};
ghost use Rattle.measure.specs.Limits.{stop, highest};

// A time in tenths of a second.
#[derive(Clone, Copy, PartialEq, Eq, PartialOrd, Ord, Debug)]
pub struct Tenths {
    pub tenths: u32,
    ghost fits: { tenths ≤ stop },
}

// The lowest clearance on a way, in centimetres.
#[derive(Clone, Copy, PartialEq, Eq, PartialOrd, Ord, Debug)]
pub struct Headroom {
    pub centimetres: u16,
    ghost fits: { centimetres ≤ highest },
}

// A time in tenths of a second, and a number of turns, which stops where the time does.
#[derive(Clone, Copy, PartialEq, Eq, PartialOrd, Ord, Debug)]
pub struct TimeTurns {
    pub time: u32,
    pub turns: u32,
    ghost timefits: { time ≤ stop },
    ghost turnsfit: { turns ≤ stop },
    ghost stopped: { (time ≡ stop → turns ≡ stop) },
}
