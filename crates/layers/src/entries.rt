// What is entered on a day sheet.
ghost use Rattle.std.specs.Prelude.{◌≡◌, true, false, length, nat_lt};
ghost use Rattle.std.specs.Bool.{then_some};
ghost use Rattle.layers.specs.Day.{blank, entered, is_shut, Signs, Sets};

use crate::day::DaySheet;
use crate::sheet::{Replaced, Sheet};
use layout::asking::Layout;
use layout::limits::{class_fits, clearance_fits};
use layout::refusal::Refusal;

impl<L: Layout> DaySheet<L> {
    // An empty sheet over the layout: it means what the layout means.
    pub fn over(below: L) -> DaySheet<L>
        ensures below { result.below ≡ below }
        ensures sheet { result.sheet ≡ blank }
        ensures means { entered result.sheet (L.Layout.meaning below) ≡ L.Layout.meaning below }
    {
        DaySheet {
            below,
            sheet: Sheet {
                shut: [false; 512],
                replaced: [None; 512],
            },
        }
    }

    // Takes the sheet off, and gives back the layout below.
    pub fn take_off(self) -> L
        ensures { result ≡ self.below }
    {
        self.below
    }

    // Whether a leg is shut on the sheet, whatever it is below.
    pub fn is_shut(&self, leg: u32) -> Option<bool>
        ensures { result ≡ then_some (nat_lt leg (length (L.Layout.meaning self.now.below).legs)) (is_shut self.now.sheet leg) }
    {
        (leg < self.below.legs()).then_some(self.sheet.is_shut(leg))
    }

    // Puts a leg's sign on or takes it off.
    fn sign(&mut self, leg: u32, shut: bool) -> Result<(), Refusal>
        ensures order { Signs (L.Layout.meaning self.old.below) self.old.sheet leg shut result self.new.sheet }
        ensures below { self.new.below ≡ self.old.below }
    {
        if leg >= self.below.legs() {
            return Err(Refusal::NoLeg(leg));
        }
        if self.sheet.shut[leg as usize] == shut {
            return Err(Refusal::Already(leg));
        }
        self.sheet.shut[leg as usize] = shut;
        Ok(())
    }

    // Shuts a leg.
    pub fn shut(&mut self, leg: u32) -> Result<(), Refusal>
        ensures order { Signs (L.Layout.meaning self.old.below) self.old.sheet leg true result self.new.sheet }
        ensures below { self.new.below ≡ self.old.below }
    {
        self.sign(leg, true)
    }

    // Opens a leg that was shut on the sheet: it is then as it is below.
    pub fn open(&mut self, leg: u32) -> Result<(), Refusal>
        ensures order { Signs (L.Layout.meaning self.old.below) self.old.sheet leg false result self.new.sheet }
        ensures below { self.new.below ≡ self.old.below }
    {
        self.sign(leg, false)
    }

    // Replaces a leg's class and clearance.
    pub fn set(&mut self, leg: u32, class: u32, clearance: u32) -> Result<(), Refusal>
        ensures order { Sets (L.Layout.meaning self.old.below) self.old.sheet leg class clearance result self.new.sheet }
        ensures below { self.new.below ≡ self.old.below }
    {
        if leg >= self.below.legs() {
            return Err(Refusal::NoLeg(leg));
        }
        if !class_fits(class) {
            return Err(Refusal::OutOfRange(2));
        }
        if !clearance_fits(clearance) {
            return Err(Refusal::OutOfRange(3));
        }
        self.sheet.replaced[leg as usize] = Some(Replaced { class, clearance });
        Ok(())
    }
}
