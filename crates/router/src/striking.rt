// Which halls new figures of a leg strike.
ghost use Rattle.std.specs.Prelude.{◌≡◌};
ghost use Rattle.walks.specs.Net.{weight_if_any};
ghost use Rattle.router.specs.Struck.{changed, open_weight};

use halls::force::Strikes;
use layout::asking::Layout;
use measure::Measure;
use measure::ranking::compare;
use std::cmp::Ordering;
use walks::weigh;

// The weight of a leg that is open.
pub(crate) fn weigh_open<L: Layout, M: Measure>(layout: &L, leg: u32) -> Option<M>
    ensures { result ≡ open_weight M.scale (L.meaning layout.now) leg }
{
    if !layout.is_open(leg)? {
        return None;
    }
    weigh::<L, M>(layout, leg)
}

// Whom it strikes that an open leg of weight `old`, if there is one, now has weight `new`.
pub(crate) fn struck_by<M: Measure>(leg: u32, old: Option<M>, new: Option<M>) -> Strikes
    ensures { result ≡ changed M.scale leg old new }
{
    let (Some(old), Some(new)) = (old, new) else {
        return Strikes::None;
    };
    match compare(new, old) {
        Ordering::Less => Strikes::Every,
        Ordering::Equal => Strikes::None,
        Ordering::Greater => Strikes::Marking(leg),
    }
}
