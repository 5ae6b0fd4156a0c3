ghost use Rattle.std.specs.Prelude.{◌≡◌, true, false, length, Some, ◌≢◌};
ghost use Rattle.std.specs.List.{slice_get};
ghost use Rattle.std.specs.Option.{option_map};
ghost use Rattle.layout.specs.Plant.{Plant, Sound, tails, heads, Next};

// A layout: junctions, each in one hall, and one-way legs between them, as questions that alter nothing.
// Junctions, legs and halls are numbered from 0. A question about one past the end has no figure to give.
// kept: a question for each figure, which answers a plain number, is the form that was asked for; no question answers a whole leg.
pub trait Layout {
    // What the layout means.
    ghost meaning: { Self → Plant };

    // The limits hold of it; each impl shows this.
    ghost sound: { (l : Self) → Sound (meaning l) };

    // How many halls there are.
    fn halls(&self) -> u32
        ensures { result ≡ (meaning self.now).halls };

    // How many junctions there are.
    fn junctions(&self) -> u32
        ensures { result ≡ length (meaning self.now).hall_of };

    // How many legs there are.
    fn legs(&self) -> u32
        ensures { result ≡ length (meaning self.now).legs };

    // The hall that a junction lies in.
    fn hall_of(&self, junction: u32) -> Option<u32>
        ensures { result ≡ slice_get (meaning self.now).hall_of junction };

    // The junction that a leg leaves.
    fn tail(&self, leg: u32) -> Option<u32>
        ensures { result ≡ option_map (λ l. l.tail) (slice_get (meaning self.now).legs leg) };

    // The junction that a leg reaches.
    fn head(&self, leg: u32) -> Option<u32>
        ensures { result ≡ option_map (λ l. l.head) (slice_get (meaning self.now).legs leg) };

    // A leg's length in metres.
    fn metres(&self, leg: u32) -> Option<u32>
        ensures { result ≡ option_map (λ l. l.metres) (slice_get (meaning self.now).legs leg) };

    // A leg's drive class.
    fn class(&self, leg: u32) -> Option<u32>
        ensures { result ≡ option_map (λ l. l.class) (slice_get (meaning self.now).legs leg) };

    // A leg's clearance in centimetres.
    fn clearance(&self, leg: u32) -> Option<u32>
        ensures { result ≡ option_map (λ l. l.clearance) (slice_get (meaning self.now).legs leg) };

    // A leg's turn figure.
    fn turn(&self, leg: u32) -> Option<u32>
        ensures { result ≡ option_map (λ l. l.turn) (slice_get (meaning self.now).legs leg) };

    // Whether a leg is open.
    fn is_open(&self, leg: u32) -> Option<bool>
        ensures { result ≡ option_map (λ l. l.is_open) (slice_get (meaning self.now).legs leg) };

    // kept: the two below differ in the question they ask of a leg; a helper that takes it as a closure is longer than both bodies.
    // The least leg at or after a number that leaves the junction. This body looks at each leg; a layout that keeps an index answers at once.
    fn leaving(&self, junction: u32, from: u32) -> Option<u32>
        ensures { Next (tails (meaning self.now)) junction from result }
    {
        (from..self.legs()).find(|leg| self.tail(*leg) == Some(junction))
    }

    // The least leg at or after a number that reaches the junction.
    fn reaching(&self, junction: u32, from: u32) -> Option<u32>
        ensures { Next (heads (meaning self.now)) junction from result }
    {
        (from..self.legs()).find(|leg| self.head(*leg) == Some(junction))
    }
}
