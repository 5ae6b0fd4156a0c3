// The plants that are searched, each as large as a plan can be.
ghost use Rattle.std.specs.Prelude.{◌<◌};

use crate::dice::Dice;
use layout::belt::Belt;
use layout::limits::{MOST_JUNCTIONS, MOST_LEGS};
use layout::refusal::Refusal;
use plan::draft::{Draft, Plan};

// How the legs of a plant run.
#[derive(Clone, Copy)]
pub(crate) enum Shape {
    // sixteen rows and sixteen columns of belts, each one-way and closed to a ring, every other one backward
    Grid,
    // one leg from each junction and as many from any, each to any junction
    Scattered,
}

// The junctions that a leg leaves and reaches.
#[derive(Clone, Copy)]
struct Ends {
    tail: u32,
    head: u32,
}

// The place after this one on a ring of sixteen, or the one before it.
fn step(place: u32, backward: bool) -> u32
    requires { place < 16 }
    ensures { result < 16 }
{
    let by = if backward { 15 } else { 1 };
    (place + by) % 16
}

// The ends of a leg of the grid: first come the rows' legs, then the columns'.
fn grid_ends(leg: u32) -> Ends {
    let tail = leg % MOST_JUNCTIONS;
    let row = tail / 16;
    let column = tail % 16;
    let head = if leg < MOST_JUNCTIONS {
        row * 16 + step(column, row % 2 == 1)
    } else {
        step(row, column % 2 == 1) * 16 + column
    };
    Ends { tail, head }
}

// The ends of a leg that is scattered.
fn scattered_ends(leg: u32, dice: &mut Dice) -> Ends {
    let tail = if leg < MOST_JUNCTIONS {
        leg
    } else {
        dice.roll(MOST_JUNCTIONS)
    };
    let head = dice.roll(MOST_JUNCTIONS);
    Ends { tail, head }
}

// A leg between these ends, its figures anywhere in their ranges.
fn belt_between(ends: Ends, dice: &mut Dice) -> Belt {
    Belt {
        tail: ends.tail,
        head: ends.head,
        metres: 1 + dice.roll(1000),
        class: dice.roll(8),
        clearance: 1 + dice.roll(500),
        turn: dice.roll(2),
    }
}

// Enters as many junctions as a plan takes, in eight halls.
fn enter_junctions(draft: &mut Draft) -> Result<(), Refusal> {
    for junction in 0..MOST_JUNCTIONS {
        let _ = draft.junction(junction / 32)?;
    }
    Ok(())
}

// Enters as many legs as a plan takes.
fn enter_legs(draft: &mut Draft, shape: Shape) -> Result<(), Refusal> {
    let mut dice = Dice::new();
    for leg in 0..MOST_LEGS {
        let ends = match shape {
            Shape::Grid => grid_ends(leg),
            Shape::Scattered => scattered_ends(leg, &mut dice),
        };
        let _ = draft.leg(belt_between(ends, &mut dice))?;
    }
    Ok(())
}

// The plant of a shape, always the same.
pub(crate) fn draw(shape: Shape) -> Result<Plan, Refusal> {
    let mut draft = Draft::begin(8)?;
    enter_junctions(&mut draft)?;
    enter_legs(&mut draft, shape)?;
    Ok(draft.finish())
}
