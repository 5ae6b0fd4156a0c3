// What the board says, and how it is written.
ghost use Rattle.std.specs.Prelude.{Some};
ghost use Rattle.replies.specs.Written.{written};

use layout::refusal::Refusal;
use std::fmt;

// One reply of the board that needs no measure, on lines of its own.
#[derive(Clone, Copy)]
pub enum Reply {
    // The plan was read: how many junctions, legs and halls it has.
    Plan {
        junctions: u32,
        legs: u32,
        halls: u32,
    },
    // An order was carried out: so many halls lapsed by it.
    Lapsed(u32),
    // A hall was renewed: so many legs are marked for it.
    Marked(u32),
    // The plan or an order was refused.
    Refused(Refusal),
}

impl fmt::Display for Reply {
    ghost output = { λ reply. Some (written reply) };

    fn fmt<W: fmt::Write>(&self, f: &mut fmt::Formatter<W>) -> fmt::Result {
        match *self {
            Reply::Plan {
                junctions,
                legs,
                halls,
            } => writeln!(f, "plan={junctions},{legs},{halls}"),
            Reply::Lapsed(halls) => writeln!(f, "lapsed={halls}"),
            Reply::Marked(legs) => writeln!(f, "marked={legs}"),
            Reply::Refused(refusal) => writeln!(f, "{refusal}"),
        }
    }
}
