// What a line of the input asks for.
use crate::plant::{Shape, draw};
use crate::rounds::run;
use crate::tally::Tally;
use layout::refusal::Refusal;
use measure::{Headroom, Measure, Tenths, TimeTurns};
use plan_text::kind::Kind;
use search::Slot;
use std::str::FromStr;

// So many rounds of searches over one plant by one measure.
#[derive(Clone, Copy)]
pub(crate) struct Job {
    shape: Shape,
    kind: Kind,
    rounds: u32,
}

// A text that asks for nothing known.
#[derive(Clone, Copy, Debug)]
pub(crate) struct NoJob;

// The shape of a name.
impl FromStr for Shape {
    type Err = NoJob;

    fn from_str(name: &str) -> Result<Shape, NoJob> {
        match name {
            "grid" => Ok(Shape::Grid),
            "scattered" => Ok(Shape::Scattered),
            _ => Err(NoJob),
        }
    }
}

// The measure of a letter.
fn kind_of(letter: &str) -> Result<Kind, NoJob> {
    match letter.as_bytes() {
        [letter] => Kind::try_from(*letter).map_err(|_| NoJob),
        _ => Err(NoJob),
    }
}

// The job of a line, as `grid t 8`.
impl FromStr for Job {
    type Err = NoJob;

    fn from_str(line: &str) -> Result<Job, NoJob> {
        let mut words = line.split_whitespace();
        let shape = words.next().ok_or(NoJob)?;
        let kind = words.next().ok_or(NoJob)?;
        let rounds = words.next().ok_or(NoJob)?;
        Ok(Job {
            shape: shape.parse()?,
            kind: kind_of(kind)?,
            rounds: rounds.parse().map_err(|_| NoJob)?,
        })
    }
}

impl Job {
    // What the searches of the job come to.
    pub(crate) fn run(self) -> Result<Tally, Refusal> {
        let plan = draw(self.shape)?;
        // kept: a macro, since an array of a type parameter's values asks for a bound on their size, which no clause can give
        macro_rules! tally_by {
            ($total:ty) => {{
                let total = <$total>::unit();
                let mut totals = [total; 256];
                let mut waiting = [Slot { total, number: 0 }; 256];
                run(&plan, self.rounds, &mut totals, &mut waiting)
            }};
        }
        Ok(match self.kind {
            Kind::Time => tally_by!(Tenths),
            Kind::Clearance => tally_by!(Headroom),
            Kind::TimeThenTurns => tally_by!(TimeTurns),
        })
    }
}
