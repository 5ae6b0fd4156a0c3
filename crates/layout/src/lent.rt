ghost use Rattle.std.specs.Prelude.{◌≡◌};

use crate::asking::Layout;

// A layout that is lent answers as the layout does.
// kept: each question is handed on by a line of its own; one impl for all that hand questions on clashes with this one, and a macro may write no impl.
impl<L: Layout> Layout for &L {
    ghost meaning = { λ l. L.Layout.meaning l.now };

    ghost sound = { λ l. L.Layout.sound l.now };

    fn halls(&self) -> u32 {
        Layout::halls(*self)
    }

    fn junctions(&self) -> u32 {
        Layout::junctions(*self)
    }

    fn legs(&self) -> u32 {
        Layout::legs(*self)
    }

    fn hall_of(&self, junction: u32) -> Option<u32> {
        Layout::hall_of(*self, junction)
    }

    fn tail(&self, leg: u32) -> Option<u32> {
        Layout::tail(*self, leg)
    }

    fn head(&self, leg: u32) -> Option<u32> {
        Layout::head(*self, leg)
    }

    fn metres(&self, leg: u32) -> Option<u32> {
        Layout::metres(*self, leg)
    }

    fn class(&self, leg: u32) -> Option<u32> {
        Layout::class(*self, leg)
    }

    fn clearance(&self, leg: u32) -> Option<u32> {
        Layout::clearance(*self, leg)
    }

    fn turn(&self, leg: u32) -> Option<u32> {
        Layout::turn(*self, leg)
    }

    fn is_open(&self, leg: u32) -> Option<bool> {
        Layout::is_open(*self, leg)
    }

    fn leaving(&self, junction: u32, from: u32) -> Option<u32> {
        Layout::leaving(*self, junction, from)
    }

    fn reaching(&self, junction: u32, from: u32) -> Option<u32> {
        Layout::reaching(*self, junction, from)
    }
}
