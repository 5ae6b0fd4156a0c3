ghost use Rattle.std.specs.Prelude.{◌≡◌, Some, Option as MaybeDue};
ghost use Rattle.plan_text.specs.declared.due.Due.{Due as PlanLine};
ghost use Rattle.plan_text.specs.Heard.{Heard, due};
ghost use Rattle.plan_text.specs.Hears.{Tells};

use crate::due::Due;
use crate::values::LineValues;
use layout::refusal::Refusal;

// Whoever listens to a part of the plan, line by line.
pub(crate) trait Listener {
    // What all lines accepted so far have said.
    ghost heard: { Self → Heard };

    // The line that is waited for; none where the part is whole.
    ghost waits: { Self → MaybeDue PlanLine };

    // The line that is waited for.
    fn due(&self) -> Option<Due>
        ensures { result ≡ waits self.now };

    // Takes the values of that line. A refused line changes nothing.
    fn tell(&mut self, due: Due, values: LineValues) -> Result<(), Refusal>
        requires { waits self.old ≡ Some due }
        ensures { Tells (heard self.old) due values.entry result (heard self.new) };

    // Such a line is the one due.
    ghost asks: { (l : Self) (d : PlanLine) → waits l ≡ Some d → due (heard l) ≡ Some d };
}
