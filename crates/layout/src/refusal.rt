ghost use Rattle.std.specs.Prelude.{◌≡◌, Some};
ghost use Rattle.layout.specs.Refused.{number_of, figure_of, in_line, refusal_written};

use std::fmt;

// Why a call was refused. Each case holds the figure that is shown with its number; `number` and `figure` give both.
#[derive(Clone, Copy, PartialEq, Eq, Debug)]
pub enum Refusal {
    // Not the line that is due, or none where one is due; the line.
    NotDue(u32),
    // A value of the wrong form, or the wrong count of values; the line.
    WrongForm(u32),
    // A value outside its range; its position, or the line it came from.
    OutOfRange(u32),
    // The draft has no place left; how many it has.
    Full(u32),
    // The leg's tail (1) or head (2) was not entered; which of them, or the line it came from.
    NotEntered(u32),
    // No such leg; the leg.
    NoLeg(u32),
    // No such hall; the hall.
    NoHall(u32),
    // No such start (1) or goal (2); which of them.
    NoJunction(u32),
    // No way leads to the goal; how many junctions were settled.
    NoWay(u32),
    // A table is too short; its position.
    ShortTable(u32),
    // The leg is already shut, or already open; the leg.
    Already(u32),
    // Bytes are left, but no line ends among them; the line.
    NoEnd(u32),
    // The input is too long; how long it may be.
    TooLong(u32),
}

impl Refusal {
    // The number that the board shows.
    // kept: a case with a figure has no number of its own to be cast, so this table says each.
    pub fn number(self) -> u32
        ensures { result ≡ number_of self }
    {
        match self {
            Refusal::NotDue(_) => 1,
            Refusal::WrongForm(_) => 2,
            Refusal::OutOfRange(_) => 3,
            Refusal::Full(_) => 4,
            Refusal::NotEntered(_) => 5,
            Refusal::NoLeg(_) => 6,
            Refusal::NoHall(_) => 7,
            Refusal::NoJunction(_) => 8,
            Refusal::NoWay(_) => 9,
            Refusal::ShortTable(_) => 10,
            Refusal::Already(_) => 11,
            Refusal::NoEnd(_) => 12,
            Refusal::TooLong(_) => 13,
        }
    }

    // The figure that the board shows with it.
    pub fn figure(self) -> u32
        ensures { result ≡ figure_of self }
    {
        match self {
            Refusal::NotDue(figure)
            | Refusal::WrongForm(figure)
            | Refusal::OutOfRange(figure)
            | Refusal::Full(figure)
            | Refusal::NotEntered(figure)
            | Refusal::NoLeg(figure)
            | Refusal::NoHall(figure)
            | Refusal::NoJunction(figure)
            | Refusal::NoWay(figure)
            | Refusal::ShortTable(figure)
            | Refusal::Already(figure)
            | Refusal::NoEnd(figure)
            | Refusal::TooLong(figure) => figure,
        }
    }

    // The same refusal of a call that a line of text made: a position gives way to the line's number.
    pub fn in_line(self, line: u32) -> Refusal
        ensures { result ≡ in_line line self }
    {
        match self {
            Refusal::OutOfRange(_) => Refusal::OutOfRange(line),
            Refusal::NotEntered(_) => Refusal::NotEntered(line),
            other => other,
        }
    }
}

// A refusal on two lines: its number, then its figure. The end of the second line is left to the caller.
impl fmt::Display for Refusal {
    ghost output = { λ refusal. Some (refusal_written refusal) };

    fn fmt<W: fmt::Write>(&self, f: &mut fmt::Formatter<W>) -> fmt::Result {
        write!(f, "refused={}\nfigure={}", self.number(), self.figure())
    }
}
