// A way that was found, and how it is written.
ghost use Rattle.std.specs.Prelude.{Some};
ghost use Rattle.std.specs.Fmt.{WritesOnOk};
ghost use Rattle.replies.specs.Written.{legs_written, way_written};

use measure::Printing;
use std::fmt;

// A way with its total, how many junctions were settled to find it, and its legs, first leg first.
#[derive(Clone, Copy)]
pub struct Way<'a, M> {
    pub total: M,
    pub settled: u32,
    pub legs: &'a [u16],
}

// Writes the line of the legs.
fn write_legs<W: fmt::Write>(legs: &[u16], f: &mut fmt::Formatter<W>) -> fmt::Result
    ensures { WritesOnOk W.Write.write_str_gives f.old result (legs_written legs.now) f.new }
{
    let Some((first, rest)) = legs.split_first() else {
        return writeln!(f, "legs=");
    };
    write!(f, "legs={first}")?;
    for leg in rest {
        write!(f, ",{leg}")?;
    }
    writeln!(f)
}

impl<'a, M: Printing> fmt::Display for Way<'a, M> {
    ghost output = { λ way. Some (way_written M.Printing.written way.total way.settled way.legs.now) };

    fn fmt<W: fmt::Write>(&self, f: &mut fmt::Formatter<W>) -> fmt::Result {
        let total = self.total;
        let settled = self.settled;
        writeln!(f, "total={total}\nsettled={settled}")?;
        write_legs(self.legs, f)
    }
}
