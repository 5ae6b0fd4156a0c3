// Searches over small plants. Each table has two places more than there are junctions, or as many as a test says.
use layers::day::DaySheet;
use layout::belt::Belt;
use layout::refusal::Refusal;
use measure::{Headroom, Tenths, TimeTurns};
use plan::draft::{Draft, Plan};
use search::{Slot, Tables, explore, search};
use std::test::Fail;

// What stands in a table of came-bys where there is none.
const NONE: u16 = 65535;

// A leg by its ends, metres, class, clearance and turn.
fn belt(tail: u32, head: u32, metres: u32, class: u32, clearance: u32, turn: u32) -> Belt {
    Belt {
        tail,
        head,
        metres,
        class,
        clearance,
        turn,
    }
}

// Five junctions in two halls, with a quick way and a high way from 0 to 4.
// kept: each crate of tests draws its own plant, to be read alone.
fn two_halls() -> Result<Plan, Refusal> {
    let mut draft = Draft::begin(2)?;
    for hall in [0, 0, 0, 1, 1] {
        let _ = draft.junction(hall)?;
    }
    for leg in [
        belt(0, 1, 10, 4, 60, 0),
        belt(1, 3, 10, 4, 40, 0),
        belt(0, 2, 10, 4, 80, 1),
        belt(2, 3, 20, 4, 80, 0),
        belt(3, 4, 10, 4, 70, 0),
        belt(2, 1, 5, 7, 90, 1),
    ] {
        let _ = draft.leg(leg)?;
    }
    Ok(draft.finish())
}

// Four junctions: a leg from 0 to itself, two equal legs from 0 to 1, one from 1 to 2, and none to 3.
fn corners() -> Result<Plan, Refusal> {
    let mut draft = Draft::begin(1)?;
    for hall in [0, 0, 0, 0] {
        let _ = draft.junction(hall)?;
    }
    for leg in [
        belt(0, 0, 1, 4, 60, 0),
        belt(0, 1, 10, 4, 60, 0),
        belt(0, 1, 10, 4, 60, 0),
        belt(1, 2, 10, 4, 60, 0),
    ] {
        let _ = draft.leg(leg)?;
    }
    Ok(draft.finish())
}

#[test]
fn by_time(rt: HostRuntime) -> Result<(), Fail> {
    let plan = two_halls()?;
    let mark = Tenths { tenths: 7 };
    let mut totals = [mark; 7];
    let mut came = [7; 7];
    let mut waiting = [Slot {
        total: mark,
        number: 0,
    }; 7];
    let mut settled = [9; 7];
    let mut way = [8; 7];
    let mut tables = Tables {
        totals: &mut totals,
        came: &mut came,
        waiting: &mut waiting,
        settled: &mut settled,
    };
    let found = search(&plan, 0, 4, &mut tables, &mut way)?;
    assert_eq!(rt;
        (found.total.tenths, found.settled, found.legs),
        (300, 5, 3)
    );
    assert_eq!(rt; way, [0, 1, 4, 8, 8, 8, 8]);
    assert_eq!(rt; came, [NONE, 0, 2, 1, 4, 7, 7]);
    assert_eq!(rt; settled, [0, 1, 2, 3, 4, 9, 9]);
    assert_eq!(rt;
        (totals[2].tenths, totals[4].tenths, totals[5].tenths),
        (100, 300, 7)
    );
    Ok(())
}

#[test]
fn by_clearance(rt: HostRuntime) -> Result<(), Fail> {
    let plan = two_halls()?;
    let mark = Headroom { centimetres: 7 };
    let mut totals = [mark; 5];
    let mut came = [7; 5];
    let mut waiting = [Slot {
        total: mark,
        number: 0,
    }; 5];
    let mut settled = [9; 5];
    let mut way = [8; 5];
    let mut tables = Tables {
        totals: &mut totals,
        came: &mut came,
        waiting: &mut waiting,
        settled: &mut settled,
    };
    let found = search(&plan, 0, 4, &mut tables, &mut way)?;
    assert_eq!(rt;
        (found.total.centimetres, found.settled, found.legs),
        (70, 5, 3)
    );
    assert_eq!(rt; way, [2, 3, 4, 8, 8]);
    assert_eq!(rt; came, [NONE, 5, 2, 3, 4]);
    assert_eq!(rt; settled, [0, 2, 1, 3, 4]);
    Ok(())
}

#[test]
fn by_time_then_turns(rt: HostRuntime) -> Result<(), Fail> {
    let plan = two_halls()?;
    let mark = TimeTurns { time: 7, turns: 7 };
    let mut totals = [mark; 6];
    let mut came = [7; 6];
    let mut waiting = [Slot {
        total: mark,
        number: 0,
    }; 6];
    let mut settled = [9; 6];
    let mut way = [8; 6];
    let mut tables = Tables {
        totals: &mut totals,
        came: &mut came,
        waiting: &mut waiting,
        settled: &mut settled,
    };
    let found = search(&plan, 0, 4, &mut tables, &mut way)?;
    assert_eq!(rt;
        (found.total.time, found.total.turns, found.legs),
        (300, 0, 3)
    );
    assert_eq!(rt; way, [0, 1, 4, 8, 8, 8]);
    Ok(())
}

#[test]
fn a_tie_a_self_loop_and_no_way(rt: HostRuntime) -> Result<(), Fail> {
    let plan = corners()?;
    let mark = Tenths { tenths: 7 };
    let mut totals = [mark; 4];
    let mut came = [7; 4];
    let mut waiting = [Slot {
        total: mark,
        number: 0,
    }; 4];
    let mut settled = [9; 4];
    let mut way = [8; 4];
    let mut tables = Tables {
        totals: &mut totals,
        came: &mut came,
        waiting: &mut waiting,
        settled: &mut settled,
    };
    let here = search(&plan, 0, 0, &mut tables, &mut way)?;
    assert_eq!(rt; (here.total.tenths, here.settled, here.legs), (0, 1, 0));
    let there = search(&plan, 0, 2, &mut tables, &mut way)?;
    assert_eq!(rt;
        (there.total.tenths, there.settled, there.legs),
        (200, 3, 2)
    );
    assert_eq!(rt; way, [1, 3, 8, 8]);
    let none = search(&plan, 0, 3, &mut tables, &mut way);
    assert_eq!(rt; none.err(), Some(Refusal::NoWay(3)));
    assert_eq!(rt; way, [1, 3, 8, 8]);
    assert_eq!(rt; came, [NONE, 1, 3, NONE]);
    let mut tables = Tables {
        totals: &mut totals,
        came: &mut came,
        waiting: &mut waiting,
        settled: &mut settled,
    };
    let all = explore(&plan, 1, &mut tables)?;
    assert_eq!(rt; (all, settled), (2, [1, 2, 2, 9]));
    Ok(())
}

#[test]
fn a_shut_leg(rt: HostRuntime) -> Result<(), Fail> {
    let mut sheet = DaySheet::over(two_halls()?);
    sheet.shut(1)?;
    let mark = Tenths { tenths: 7 };
    let mut totals = [mark; 5];
    let mut came = [7; 5];
    let mut waiting = [Slot {
        total: mark,
        number: 0,
    }; 5];
    let mut settled = [9; 5];
    let mut way = [8; 5];
    let mut tables = Tables {
        totals: &mut totals,
        came: &mut came,
        waiting: &mut waiting,
        settled: &mut settled,
    };
    let found = search(&sheet, 0, 4, &mut tables, &mut way)?;
    assert_eq!(rt;
        (found.total.tenths, found.settled, found.legs),
        (400, 5, 3)
    );
    assert_eq!(rt; way, [2, 3, 4, 8, 8]);
    Ok(())
}

#[test]
fn refused(rt: HostRuntime) -> Result<(), Fail> {
    let plan = corners()?;
    let mark = Tenths { tenths: 7 };
    let mut totals = [mark; 4];
    let mut came = [7; 3];
    let mut waiting = [Slot {
        total: mark,
        number: 0,
    }; 4];
    let mut settled = [9; 4];
    let mut way = [8; 3];
    let mut tables = Tables {
        totals: &mut totals,
        came: &mut came,
        waiting: &mut waiting,
        settled: &mut settled,
    };
    let no_goal = search(&plan, 0, 4, &mut tables, &mut way);
    assert_eq!(rt; no_goal.err(), Some(Refusal::NoJunction(2)));
    let short = search(&plan, 0, 3, &mut tables, &mut way);
    assert_eq!(rt; short.err(), Some(Refusal::ShortTable(2)));
    assert_eq!(rt; (came, settled), ([7, 7, 7], [9, 9, 9, 9]));
    let mut tables = Tables {
        totals: &mut totals,
        came: &mut came,
        waiting: &mut waiting,
        settled: &mut settled,
    };
    let no_start = explore(&plan, 4, &mut tables);
    assert_eq!(rt; no_start.err(), Some(Refusal::NoJunction(1)));
    Ok(())
}
