// The divert board, once its plan stands.
use plan::draft::Plan;
use router::router::Router;
use search::Tables;

// A router over the plan, and the memory that its orders are carried out with: the tables of a search, and a place for the way.
// kept: that each table has 256 places is asked by each function, since a ghost field beside lent slices lets none of them be lent on.
#[derive(Drop)]
pub(crate) struct Board<'t, M> {
    pub(crate) router: Router<Plan, M>,
    pub(crate) tables: Tables<'t, M>,
    pub(crate) way: &'t mut [u16],
}
