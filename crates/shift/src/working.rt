// A shift is worked, turn by turn.
ghost use Rattle.std.specs.Prelude.{◌≡◌, []};
ghost use Rattle.router.specs.Worked.{Worked};
ghost use Rattle.search.specs.Desk.{held, SameTables};
ghost use Rattle.shift.specs.Turns.{places_of, calls_of, AnswersShift};

use crate::lending::carry_out;
use crate::turn::Turn;
use layout::asking::Layout;
use measure::Measure;
use router::router::Router;
use search::Tables;

// Carries out the orders of a shift on a router that was just commissioned, and writes down the reply to each.
pub(crate) fn work<L: Layout, M: Measure>(
    router: &mut Router<L, M>,
    turns: &mut [Turn<M>],
    tables: &mut Tables<M>,
    way: &mut [u16],
)
    requires { Worked M.scale (L.Layout.meaning router.old.sheet.below) [] router.old.sheet.sheet router.old.halls }
    ensures below { router.new.sheet.below ≡ router.old.sheet.below }
    ensures worked { Worked M.scale (L.Layout.meaning router.old.sheet.below) (calls_of (places_of (held tables.old) way.old) turns.old) router.new.sheet.sheet router.new.halls }
    ensures answers { AnswersShift M.scale (L.Layout.meaning router.old.sheet.below) (places_of (held tables.old) way.old) turns.old turns.new }
    ensures places { places_of (held tables.new) way.new ≡ places_of (held tables.old) way.old }
    ensures lent { SameTables tables.old tables.new }
{
    for turn in turns.iter_mut() {
        turn.reply = Some(carry_out(router, turn, tables, way));
    }
}
