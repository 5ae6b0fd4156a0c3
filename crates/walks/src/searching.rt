// What the search rule gives.
ghost use Rattle.walks.specs.InTurn.{InTurn};
ghost use Rattle.walks.specs.Searches.{SettledBest, FoundExactly, FoundAll, TracedWalk, Determined, SearchEnds, TurnedBest, BestExists};
ghost use Rattle.walks.specs.Tables.{TabledWhole};

use measure::measure::Measure;

// Every settled junction has its best total.
pub fn settled_best<M: Measure>()
    ensures { SettledBest M.scale }
{}

// The goal is settled exactly when a walk leads there, and without a goal all that walks lead to is settled.
pub fn found_exactly<M: Measure>()
    ensures exactly { FoundExactly M.scale }
    ensures all { FoundAll M.scale }
{}

// The way that came-by gives is a walk with the total answered, and the only one.
pub fn traced_walk<M: Measure>()
    ensures { TracedWalk M.scale }
{}

// Two searches for the same leave the same.
pub fn determined<M: Measure>()
    ensures { Determined M.scale }
{}

// The rule always ends.
pub fn search_ends<M: Measure>()
    ensures { SearchEnds M.scale }
{}

// Taking legs in number order is the relaxation that the rule describes.
pub fn in_turn<M: Measure>()
    ensures { InTurn M.scale }
{}

// Tables that hold what a search left show it whole.
pub fn tabled_whole<M: Measure>()
    ensures { TabledWhole M.scale }
{}

// Best totals over the turned layer are those of the ways back.
pub fn turned_best<M: Measure>()
    ensures { TurnedBest M.scale }
{}

// Where a walk leads, there is a best one.
pub fn best_exists<M: Measure>()
    ensures { BestExists M.scale }
{}
