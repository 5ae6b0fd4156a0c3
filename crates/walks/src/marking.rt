// What marks do for searches into their hall.
ghost use Rattle.walks.specs.Marks.{FlagsFeed, FeedsServe, StillFeeds};

use measure::measure::Measure;

// Marks on every flagged leg feed their hall, and marks that feed a hall serve it.
pub fn feeds_serve<M: Measure>()
    ensures flagged { FlagsFeed M.scale }
    ensures served { FeedsServe M.scale }
{}

// Shutting or worsening unmarked legs leaves the hall fed.
pub fn still_feeds<M: Measure>()
    ensures { StillFeeds M.scale }
{}
