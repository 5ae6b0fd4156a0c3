ghost use Rattle.std.specs.Prelude.{◌≡◌};
ghost use Rattle.layers.specs.Turn.{turned};
ghost use Rattle.layers.specs.Soundness.{turned_sound};

use layout::asking::Layout;

// The turned layer: the layout below with the tail and the head of every leg exchanged.
#[derive(Drop)]
pub struct Turned<L> {
    pub(crate) below: L,
}

impl<L: Layout> Turned<L> {
    // Turns every leg of the layout. Turned twice, it means what it meant.
    pub fn over(below: L) -> Turned<L>
        ensures below { result.below ≡ below }
        ensures twice { turned (turned (L.Layout.meaning below)) ≡ L.Layout.meaning below }
    {
        Turned { below }
    }

    // Takes the layer off, and gives back the layout below.
    pub fn take_off(self) -> L
        ensures { result ≡ self.below }
    {
        self.below
    }
}

// The turned layer means the layout below with every leg turned.
// kept: questions are handed on one by one; an impl for all that hand questions on clashes with that of a lent layout.
#[tactic(auto, using(crate::proofs::Relegging::figure_changed, crate::specs::Soundness::length_changed, crate::proofs::Turning::turned_tails, crate::proofs::Turning::turned_heads))]
impl<L: Layout> Layout for Turned<L> {
    ghost meaning = { λ t. turned (L.Layout.meaning t.below) };

    ghost sound = { λ t. turned_sound (L.Layout.meaning t.below) (L.Layout.sound t.below) };

    fn halls(&self) -> u32 {
        self.below.halls()
    }

    fn junctions(&self) -> u32 {
        self.below.junctions()
    }

    fn legs(&self) -> u32 {
        self.below.legs()
    }

    fn hall_of(&self, junction: u32) -> Option<u32> {
        self.below.hall_of(junction)
    }

    fn tail(&self, leg: u32) -> Option<u32> {
        self.below.head(leg)
    }

    fn head(&self, leg: u32) -> Option<u32> {
        self.below.tail(leg)
    }

    fn metres(&self, leg: u32) -> Option<u32> {
        self.below.metres(leg)
    }

    fn class(&self, leg: u32) -> Option<u32> {
        self.below.class(leg)
    }

    fn clearance(&self, leg: u32) -> Option<u32> {
        self.below.clearance(leg)
    }

    fn turn(&self, leg: u32) -> Option<u32> {
        self.below.turn(leg)
    }

    fn is_open(&self, leg: u32) -> Option<bool> {
        self.below.is_open(leg)
    }

    // A leg leaves a junction here where it reaches it below.
    fn leaving(&self, junction: u32, from: u32) -> Option<u32> {
        self.below.reaching(junction, from)
    }

    fn reaching(&self, junction: u32, from: u32) -> Option<u32> {
        self.below.leaving(junction, from)
    }
}
