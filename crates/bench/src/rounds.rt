// Rounds of searches. A round searches from one junction to every junction.
use crate::tally::{Figure, Tally};
use layout::limits::MOST_JUNCTIONS;
use plan::draft::Plan;
use search::{Slot, Tables, search};

// One round, with the tables and the way that are lent to it.
fn search_all<M: Figure>(
    plan: &Plan,
    start: u32,
    tables: &mut Tables<M>,
    way: &mut [u16],
    tally: &mut Tally,
) {
    for goal in 0..MOST_JUNCTIONS {
        let answer = search(plan, start, goal, tables, way);
        tally.add(answer, way);
    }
}

// So many rounds, each from another junction, with memory for the totals.
pub(crate) fn run<M: Figure>(
    plan: &Plan,
    rounds: u32,
    totals: &mut [M],
    waiting: &mut [Slot<M>],
) -> Tally {
    let mut came = [0; 256];
    let mut settled = [0; 256];
    let mut way = [0; 256];
    let mut tables = Tables {
        totals,
        came: &mut came,
        waiting,
        settled: &mut settled,
    };
    let mut tally = Tally::empty();
    for round in 0..rounds {
        search_all(
            plan,
            round % MOST_JUNCTIONS,
            &mut tables,
            &mut way,
            &mut tally,
        );
    }
    tally
}
