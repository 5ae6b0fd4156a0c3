ghost use Rattle.std.specs.Prelude.{◌≡◌, length, Some, None, Ok, Err};
ghost use Rattle.layout.specs.Refused.{answered, unless};
ghost use Rattle.layout.specs.Plant.{leg_of};
ghost use Rattle.plan.specs.Drawn.{begun, begin_due, place_due, entry_due, junction_due, leg_due, with_junction, with_leg};
ghost use Rattle.plan.specs.Meant.{sketched, planned};

use crate::draft::{Draft, Plan};
use crate::drawing::Drawing;
use layout::belt::Belt;
use layout::limits::{
    MOST_JUNCTIONS, MOST_LEGS, class_fits, clearance_fits, halls_fit, metres_fit, turn_fits,
};
use layout::refusal::Refusal;

// Why a junction is refused, with so many halls and junctions.
fn check_junction(halls: u32, junctions: u32, hall: u32) -> Result<(), Refusal>
    ensures { result ≡ answered (place_due halls junctions hall) tt }
{
    if hall >= halls {
        return Err(Refusal::OutOfRange(1));
    }
    if junctions >= MOST_JUNCTIONS {
        return Err(Refusal::Full(MOST_JUNCTIONS));
    }
    Ok(())
}

// Why a leg is refused, with so many junctions and legs.
fn check_leg(junctions: u32, legs: u32, belt: Belt) -> Result<(), Refusal>
    ensures { result ≡ answered (entry_due junctions legs (leg_of belt)) tt }
{
    if !metres_fit(belt.metres) {
        return Err(Refusal::OutOfRange(3));
    }
    if !class_fits(belt.class) {
        return Err(Refusal::OutOfRange(4));
    }
    if !clearance_fits(belt.clearance) {
        return Err(Refusal::OutOfRange(5));
    }
    if !turn_fits(belt.turn) {
        return Err(Refusal::OutOfRange(6));
    }
    if belt.tail >= junctions {
        return Err(Refusal::NotEntered(1));
    }
    if belt.head >= junctions {
        return Err(Refusal::NotEntered(2));
    }
    if legs >= MOST_LEGS {
        return Err(Refusal::Full(MOST_LEGS));
    }
    Ok(())
}

impl Draft {
    // A draft of so many halls, with nothing entered.
    pub fn begin(halls: u32) -> Result<Draft, Refusal>
        ensures { elim result [ Ok d ↦ (begin_due halls ≡ None) × (sketched d ≡ begun halls) | Err e ↦ begin_due halls ≡ Some e ] }
    {
        if !halls_fit(halls) {
            return Err(Refusal::OutOfRange(1));
        }
        Ok(Draft {
            drawing: Drawing::blank(halls),
        })
    }

    // kept: this and the next differ in what is checked, entered and counted; one for both would take all three as closures.
    // One junction more, in a hall; the answer is its number.
    pub fn junction(&mut self, hall: u32) -> Result<u32, Refusal>
        ensures answer { result ≡ answered (junction_due (sketched self.old) hall) (length (sketched self.old).hall_of) }
        ensures after { sketched self.new ≡ unless (junction_due (sketched self.old) hall) (sketched self.old) (with_junction (sketched self.old) hall) }
    {
        check_junction(self.drawing.halls, self.drawing.points, hall)?;
        let number = self.drawing.points;
        self.drawing.put_junction(hall);
        Ok(number)
    }

    // One leg more; the answer is its number.
    pub fn leg(&mut self, belt: Belt) -> Result<u32, Refusal>
        ensures answer { result ≡ answered (leg_due (sketched self.old) (leg_of belt)) (length (sketched self.old).legs) }
        ensures after { sketched self.new ≡ unless (leg_due (sketched self.old) (leg_of belt)) (sketched self.old) (with_leg (sketched self.old) (leg_of belt)) }
    {
        check_leg(self.drawing.points, self.drawing.count, belt)?;
        let number = self.drawing.count;
        self.drawing.put_leg(belt);
        Ok(number)
    }

    // The plan, which takes no more.
    pub fn finish(self) -> Plan
        ensures { planned result ≡ sketched self }
    {
        Plan {
            drawing: self.drawing,
        }
    }

    // How many halls the draft was begun with.
    pub fn halls(&self) -> u32
        ensures { result ≡ (sketched self.now).halls }
    {
        self.drawing.halls
    }

    // How many junctions were entered.
    pub fn junctions(&self) -> u32
        ensures { result ≡ length (sketched self.now).hall_of }
    {
        self.drawing.points
    }

    // How many legs were entered.
    pub fn legs(&self) -> u32
        ensures { result ≡ length (sketched self.now).legs }
    {
        self.drawing.count
    }
}
