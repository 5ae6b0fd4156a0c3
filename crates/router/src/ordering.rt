// Commissioning, and what crews order.
ghost use Rattle.std.specs.Prelude.{◌≡◌, ℕ, true, false, []};
ghost use Rattle.halls.specs.Force.{in_force};
ghost use Rattle.halls.specs.declared.force.Strikes.TheVariants as strike;
ghost use Rattle.layers.specs.Day.{blank, signed, figured, refuses_sign, refuses_set};
ghost use Rattle.marks.specs.Mark.{is_marked, possible};
ghost use Rattle.search.specs.Answered.{Answered};
ghost use Rattle.search.specs.Counted.{AllCounted};
ghost use Rattle.search.specs.Desk.{held, SameTables};
ghost use Rattle.walks.specs.Net.{hall_at};
ghost use Rattle.walks.specs.Book.{shut, reopen, set as set_order};
ghost use Rattle.router.specs.Ordered.{Lapses, Carries};
ghost use Rattle.router.specs.Renewing.{RenewsHall};
ghost use Rattle.router.specs.Routing.{seen, routing, route_answer, KeepsPromise};
ghost use Rattle.router.specs.Struck.{set_strikes};
ghost use Rattle.router.specs.Worked.{Worked, GoesOn};

use crate::router::Router;
use crate::striking::{struck_by, weigh_open};
use halls::force::{HallMarks, Strikes};
use layers::day::DaySheet;
use layout::asking::Layout;
use layout::refusal::Refusal;
use marks::marked::Marked;
use measure::Measure;
use renew::renew as renew_marks;
use search::{Found, Tables, search};
use std::marker::PhantomData;
use walks::weigh;

impl<L: Layout, M: Measure> Router<L, M> {
    // Commissions a layout for a measure: nothing is entered on its day sheet, and every hall is lapsed.
    pub fn commission(layout: L) -> Router<L, M>
        ensures below { result.sheet.below ≡ layout }
        ensures sheet { result.sheet.sheet ≡ blank }
        ensures force { (h : ℕ) → in_force result.halls.force h ≡ false }
        ensures marks { (h e : ℕ) → is_marked result.halls.marks h e ≡ possible h e }
        ensures book { Worked M.scale (L.Layout.meaning layout) [] result.sheet.sheet result.halls }
    {
        Router {
            sheet: DaySheet::over(layout),
            halls: HallMarks::lapsed(),
            measure: PhantomData,
        }
    }

    // Takes the router apart, and gives back the layout that was commissioned.
    pub fn take_apart(self) -> L
        ensures { result ≡ self.sheet.below }
    {
        let Router {
            sheet,
            halls,
            measure: _,
        } = self;
        drop(halls);
        sheet.take_off()
    }

    // The halls in force that an order strikes lapse; the answer is how many.
    fn lapse(&mut self, strikes: Strikes) -> u32
        ensures lapses { Lapses (L.Layout.meaning self.old.sheet.below) strikes self.old.halls self.new.halls result }
        ensures sheet { self.new.sheet ≡ self.old.sheet }
    {
        let halls = self.sheet.halls();
        self.halls.lapse(halls, strikes)
    }

    // Shuts a leg: every hall in force for which it is marked lapses. The answer is how many.
    pub fn shut(&mut self, leg: u32) -> Result<u32, Refusal>
        ensures below { self.new.sheet.below ≡ self.old.sheet.below }
        ensures order { Carries M.scale (L.Layout.meaning self.old.sheet.below) (shut leg) (refuses_sign (L.Layout.meaning self.old.sheet.below) self.old.sheet.sheet leg true) (strike.Marking leg) (signed self.old.sheet.sheet leg true) self.old.sheet.sheet self.new.sheet.sheet self.old.halls self.new.halls result }
    {
        self.sheet.shut(leg)?;
        Ok(self.lapse(Strikes::Marking(leg)))
    }

    // Opens a leg that was shut: every hall in force lapses. The answer is how many.
    pub fn open(&mut self, leg: u32) -> Result<u32, Refusal>
        ensures below { self.new.sheet.below ≡ self.old.sheet.below }
        ensures order { Carries M.scale (L.Layout.meaning self.old.sheet.below) (reopen leg) (refuses_sign (L.Layout.meaning self.old.sheet.below) self.old.sheet.sheet leg false) strike.Every (signed self.old.sheet.sheet leg false) self.old.sheet.sheet self.new.sheet.sheet self.old.halls self.new.halls result }
    {
        self.sheet.open(leg)?;
        Ok(self.lapse(Strikes::Every))
    }

    // Gives a leg another class and clearance. Where it is open and gets lighter every hall in force lapses, and where it gets heavier those for which it is marked.
    // The answer is how many.
    pub fn set(&mut self, leg: u32, class: u32, clearance: u32) -> Result<u32, Refusal>
        ensures below { self.new.sheet.below ≡ self.old.sheet.below }
        ensures order { Carries M.scale (L.Layout.meaning self.old.sheet.below) (set_order leg class clearance) (refuses_set (L.Layout.meaning self.old.sheet.below) leg class clearance) (set_strikes M.scale (L.Layout.meaning self.old.sheet.below) self.old.sheet.sheet leg class clearance) (figured self.old.sheet.sheet leg class clearance) self.old.sheet.sheet self.new.sheet.sheet self.old.halls self.new.halls result }
    {
        let old = weigh_open::<DaySheet<L>, M>(&self.sheet, leg);
        self.sheet.set(leg, class, clearance)?;
        let new = weigh::<DaySheet<L>, M>(&self.sheet, leg);
        Ok(self.lapse(struck_by(leg, old, new)))
    }

    // Renews a hall: its marks are those of the definition on the layout as it stands, and it is in force. The answer is how many legs are marked.
    // The tables are free below the junction count.
    pub fn renew(&mut self, hall: u32, tables: &mut Tables<M>) -> Result<u32, Refusal>
        ensures sheet { self.new.sheet ≡ self.old.sheet }
        ensures renewed { RenewsHall M.scale (L.Layout.meaning self.old.sheet.below) hall self.old.sheet.sheet self.old.halls self.new.halls (held tables.old) (held tables.new) result }
        ensures lent { SameTables tables.old tables.new }
    {
        let count = renew_marks(&self.sheet, &mut self.halls.marks, hall, tables)?;
        self.halls.force.put(hall, true);
        Ok(count)
    }

    // The hall whose marks a route to the goal goes by; past the last hall where there is no such goal.
    fn hall_towards(&self, goal: u32) -> u32
        ensures { result ≡ hall_at (L.Layout.meaning self.now.sheet.below) goal }
    {
        self.sheet.hall_of(goal).unwrap_or(self.sheet.halls())
    }

    // Finds a best way from the start to the goal over the open legs, by the marks of the goal's hall, and writes it, first leg first.
    pub fn route(
        &self,
        start: u32,
        goal: u32,
        tables: &mut Tables<M>,
        way: &mut [u16],
    ) -> Result<Found<M>, Refusal>
        ensures answer { Answered M.scale (seen (L.Layout.meaning self.now.sheet.below) self.now.sheet.sheet self.now.halls goal) start goal (held tables.old) way.old (held tables.new) way.new result }
        ensures counted { AllCounted (seen (L.Layout.meaning self.now.sheet.below) self.now.sheet.sheet self.now.halls goal) tables.new.settled.now result }
        ensures book { GoesOn M.scale (L.Layout.meaning self.now.sheet.below) (routing start goal (held tables.old) way.old) (route_answer result way.new) self.now.sheet.sheet self.now.halls self.now.sheet.sheet self.now.halls }
        ensures promise { KeepsPromise M.scale (L.Layout.meaning self.now.sheet.below) self.now.sheet.sheet self.now.halls start goal (held tables.old) way.old (held tables.new) way.new result }
        ensures lent { SameTables tables.old tables.new }
    {
        let hall = self.hall_towards(goal);
        let marked = Marked::over(&self.sheet, &self.halls.marks, hall);
        search(&marked, start, goal, tables, way)
    }
}
