// The way that a search found, over the tails of the layout's legs.
ghost use Rattle.std.specs.Prelude.{◌≡◌, ◌<◌, ◌≤◌, length, take, drop};
ghost use Rattle.walks.specs.Net.{leg_at};
ghost use Rattle.search.specs.Traces.{Tailed, Falling, TracedBack};
ghost use Rattle.search.specs.Way.{place_in};

use crate::way::trace;
use layout::asking::Layout;

// The junction that a leg leaves.
fn tail_of<L: Layout>(layout: &L, leg: u32) -> u16
    requires { leg < length (L.meaning layout.now).legs }
    ensures { result ≡ (leg_at (L.meaning layout.now) leg).tail }
{
    // kept: `as`, since a junction's number is shown to fit; a `try_from` would ask for an answer to what cannot be
    layout.tail(leg).unwrap() as u16
}

// Copies out the junction that each leg leaves.
// kept: a loop over the legs' numbers, as the customer asks of the tables.
fn copy_tails<L: Layout>(layout: &L, tails: &mut [u16])
    requires { length tails.old ≡ 512 }
    ensures { Tailed (L.meaning layout.now) tails.new }
{
    for leg in 0..layout.legs() {
        tails[leg as usize] = tail_of(layout, leg);
    }
}

// Writes the way to a goal that is among the settled junctions, first leg first, and says how many legs it has.
pub(crate) fn trace_way<L: Layout>(
    layout: &L,
    came: &[u16],
    settled: &[u16],
    goal: u32,
    way: &mut [u16],
) -> usize
    requires falling { Falling (L.meaning layout.now) came.now settled.now }
    requires there { place_in settled.now goal < length settled.now }
    requires room { length settled.now ≤ length way.old }
    requires small { goal < 65536 }
    ensures traced { TracedBack (L.meaning layout.now) came.now goal (take result way.new) }
    ensures few { result < length settled.now }
    ensures rest { drop result way.new ≡ drop result way.old }
{
    let mut tails = [0; 512];
    copy_tails(layout, &mut tails);
    trace(came, &tails, settled, goal as u16, way)
}
