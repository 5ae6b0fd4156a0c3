// What a measure is.
ghost use Rattle.std.specs.Prelude.{◌≡◌, ℕ};
ghost use Rattle.measure.specs.Scale.{Scale, Lawful};

use crate::figures::Figures;

// A measure of ways. The implementing type is its total: what a way comes to.
pub trait Measure: Copy {
    // The small letter that names the measure in a text.
    const LETTER: u8;

    // The same byte, for clauses.
    ghost LETTER: { ℕ };

    // What the measure means: the unit, the joining, the order and the weights.
    ghost scale: { Scale Self };

    // The total of no legs.
    fn unit() -> Self
        ensures { result ≡ scale.unit };

    // The total of one leg, whatever its figures.
    fn weight(figures: Figures) -> Self
        ensures { result ≡ scale.weighed figures };

    // The total of two ways, one after the other.
    fn join(self, other: Self) -> Self
        ensures { result ≡ scale.joined self other };

    // Whether this total is lower, and so better, than the other.
    fn is_below(self, other: Self) -> bool
        ensures { result ≡ scale.below self other };

    // Search and marks lean on these laws, and on nothing else of a measure.
    ghost lawful: { Lawful scale };
}
