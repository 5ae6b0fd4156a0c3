// What the laws of a measure give code that is written once for all measures.
ghost use Rattle.std.specs.Prelude.{◌≡◌, true};
ghost use Rattle.std.specs.Ordering.{MatchOrdering};

use crate::measure::Measure;
use std::cmp::Ordering;

// How a total stands to another: below it, the same total, or above it.
// kept: no derive gives it, since the order is the measure's own; a larger clearance is below a smaller one.
pub fn compare<M: Measure>(total: M, other: M) -> Ordering
    ensures { MatchOrdering result (M.scale.below total other ≡ true) (total ≡ other) (M.scale.below other total ≡ true) }
{
    if total.is_below(other) {
        Ordering::Less
    } else if other.is_below(total) {
        Ordering::Greater
    } else {
        Ordering::Equal
    }
}
