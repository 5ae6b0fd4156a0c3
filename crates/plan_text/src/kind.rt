ghost use Rattle.std.specs.Prelude.{◌≡◌, Some};
ghost use Rattle.plan_text.specs.Kinds.{letter_of, kind_of, Named};

use measure::{Headroom, Measure, Tenths, TimeTurns};

// The measure that a plan names.
#[derive(Clone, Copy, PartialEq, Eq, Debug)]
pub enum Kind {
    Time,
    Clearance,
    TimeThenTurns,
}

// A letter that names no measure.
#[derive(Clone, Copy, PartialEq, Eq, Debug)]
pub struct UnknownLetter(pub u8);

// The measure that a letter names.
impl TryFrom<u8> for Kind {
    type Error = UnknownLetter;

    ghost try_from_gives = { Named };

    fn try_from(letter: u8) -> Result<Kind, UnknownLetter> {
        match letter {
            b't' => Ok(Kind::Time),
            b'h' => Ok(Kind::Clearance),
            b'd' => Ok(Kind::TimeThenTurns),
            _ => Err(UnknownLetter(letter)),
        }
    }
}

// The letter that names a measure, which is the measure's own.
impl From<Kind> for u8 {
    ghost from_gives = { λ kind letter. (letter ≡ letter_of kind) × (kind_of letter ≡ Some kind) };

    fn from(kind: Kind) -> u8 {
        match kind {
            Kind::Time => Tenths::LETTER,
            Kind::Clearance => Headroom::LETTER,
            Kind::TimeThenTurns => TimeTurns::LETTER,
        }
    }
}
