// The limits of a layout and the ranges of a leg's figures, each in one place.
// kept: a function for each range, since callers name the figure; one function with the ends as parameters would have them name numbers.
ghost use Rattle.std.specs.Prelude.{◌≡◌};
ghost use Rattle.layout.specs.Limits.{halls_fit, metres_fit, class_fits, clearance_fits, turn_fits};

// The most halls that a layout has.
pub const MOST_HALLS: u32 = 32;

// The most junctions.
pub const MOST_JUNCTIONS: u32 = 256;

// The most legs.
pub const MOST_LEGS: u32 = 512;

// Whether a layout can have so many halls.
pub fn halls_fit(halls: u32) -> bool
    ensures { result ≡ halls_fit halls }
{
    (1..=MOST_HALLS).contains(&halls)
}

// Whether a leg can be so many metres long.
pub fn metres_fit(metres: u32) -> bool
    ensures { result ≡ metres_fit metres }
{
    (1..=1000).contains(&metres)
}

// Whether there is such a drive class.
pub fn class_fits(class: u32) -> bool
    ensures { result ≡ class_fits class }
{
    class <= 7
}

// Whether a leg can have this clearance, in centimetres.
pub fn clearance_fits(clearance: u32) -> bool
    ensures { result ≡ clearance_fits clearance }
{
    (1..=500).contains(&clearance)
}

// Whether a leg can have this turn figure.
pub fn turn_fits(turn: u32) -> bool
    ensures { result ≡ turn_fits turn }
{
    turn <= 1
}
