// The way to a junction, traced back by the came-by table.
ghost use Rattle.std.specs.Prelude.{◌≡◌, ℕ, ◌<◌, ◌≤◌, length, take, drop};
ghost use Rattle.search.specs.Way.{Traced, came_by, tail_of, Falls, place_in};

// Stands in the came-by table for a junction that came by no leg.
// kept: a table of 16-bit leg numbers with 65,535 for none, as the customer asks.
pub(crate) const NO_LEG: u16 = 65535;

// Writes the way to a settled junction, first leg first, and says how many legs it has.
// The settled list, in settling order, is there for the proof alone: each leg leads back to a junction settled earlier, so the trace ends.
// kept: plain tables as parameters, and recursion, as the customer asks.
pub(crate) fn trace(came: &[u16], tails: &[u16], settled: &[u16], at: u16, way: &mut [u16]) -> usize
    requires falls { Falls came.now tails.now settled.now }
    requires there { place_in settled.now at < length settled.now }
    requires room { place_in settled.now at ≤ length way.old }
    ensures traced { Traced (came_by came.now) (tail_of tails.now) at (take result way.new) }
    ensures few { result ≤ place_in settled.now at }
    ensures rest { drop result way.new ≡ drop result way.old }
{
    let leg = came[at as usize];
    if leg == NO_LEG {
        return 0;
    }
    let legs = trace(came, tails, settled, tails[leg as usize], way);
    way[legs] = leg;
    legs + 1
}
