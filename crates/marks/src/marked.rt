ghost use Rattle.std.specs.Prelude.{◌≡◌, ◌≤◌, not, ◌||◌, nat_lt};
ghost use Rattle.marks.specs.Mark.{shown, is_marked};
ghost use Rattle.marks.specs.Soundness.{shown_sound};

use crate::words::Marks;
use layout::asking::Layout;

// The marked layer, for one hall: only legs that are marked for the hall are open.
// For a hall that the layout does not have it shows what is below.
#[derive(Drop)]
pub struct Marked<'m, L> {
    pub(crate) below: L,
    pub(crate) marks: &'m Marks,
    pub(crate) hall: u32,
}

impl<'m, L: Layout> Marked<'m, L> {
    // The layout as a search towards the hall sees it: as it is, where it has no such hall.
    pub fn over(below: L, marks: &'m Marks, hall: u32) -> Marked<'m, L>
        ensures below { result.below ≡ below }
        ensures marks { result.marks.now ≡ marks.now }
        ensures hall { result.hall ≡ hall }
        ensures absent { (L.Layout.meaning below).halls ≤ hall → shown marks.now hall (L.Layout.meaning below) ≡ L.Layout.meaning below }
    {
        Marked { below, marks, hall }
    }

    // Takes the layer off, and gives back the layout below.
    pub fn take_off(self) -> L
        ensures { result ≡ self.entry.below }
    {
        self.below
    }

    // Whether the layer leaves a leg as it is below, and does not hide it.
    fn shows(&self, leg: u32) -> bool
        ensures { result ≡ (not (nat_lt self.now.hall (L.Layout.meaning self.now.below).halls) || is_marked self.now.marks.now self.now.hall leg) }
    {
        self.hall >= self.below.halls() || self.marks.has(self.hall, leg)
    }
}

// The marked layer means the layout below as its hall's marks show it.
// kept: questions are handed on one by one; an impl for all that hand questions on clashes with that of a lent layout.
#[tactic(auto, using(layers::proofs::Relegging::figure_changed, layers::specs::Soundness::length_changed, crate::proofs::Lapsing::shown_tails, crate::proofs::Lapsing::shown_heads))]
impl<'m, L: Layout> Layout for Marked<'m, L> {
    ghost meaning = { λ m. shown m.marks.now m.hall (L.Layout.meaning m.below) };

    ghost sound = { λ m. shown_sound m.marks.now m.hall (L.Layout.meaning m.below) (L.Layout.sound m.below) };

    fn halls(&self) -> u32 {
        self.below.halls()
    }

    fn junctions(&self) -> u32 {
        self.below.junctions()
    }

    fn legs(&self) -> u32 {
        self.below.legs()
    }

    fn hall_of(&self, junction: u32) -> Option<u32> {
        self.below.hall_of(junction)
    }

    fn tail(&self, leg: u32) -> Option<u32> {
        self.below.tail(leg)
    }

    fn head(&self, leg: u32) -> Option<u32> {
        self.below.head(leg)
    }

    fn metres(&self, leg: u32) -> Option<u32> {
        self.below.metres(leg)
    }

    fn class(&self, leg: u32) -> Option<u32> {
        self.below.class(leg)
    }

    fn clearance(&self, leg: u32) -> Option<u32> {
        self.below.clearance(leg)
    }

    fn turn(&self, leg: u32) -> Option<u32> {
        self.below.turn(leg)
    }

    fn is_open(&self, leg: u32) -> Option<bool> {
        Some(self.below.is_open(leg)? && self.shows(leg))
    }

    fn leaving(&self, junction: u32, from: u32) -> Option<u32> {
        self.below.leaving(junction, from)
    }

    fn reaching(&self, junction: u32, from: u32) -> Option<u32> {
        self.below.reaching(junction, from)
    }
}
