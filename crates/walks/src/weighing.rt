// What a leg of a layout weighs.
ghost use Rattle.std.specs.Prelude.{◌≡◌};
ghost use Rattle.walks.specs.Net.{weight_if_any};

use layout::asking::Layout;
use measure::figures::Figures;
use measure::measure::Measure;

// The weight of a leg by its number, and none past the end.
pub fn weigh<L: Layout, M: Measure>(layout: &L, leg: u32) -> Option<M>
    ensures { result ≡ weight_if_any M.scale (L.meaning layout.now) leg }
{
    let metres = layout.metres(leg)?;
    let class = layout.class(leg)?;
    let clearance = layout.clearance(leg)?;
    let turn = layout.turn(leg)?;
    Some(M::weight(Figures {
        metres,
        class,
        clearance,
        turn,
    }))
}
