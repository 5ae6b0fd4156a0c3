// Plans, loops and piles of layers over them, asked by example.
use layers::day::DaySheet;
use layers::turned::Turned;
use layout::asking::Layout;
use layout::belt::Belt;
use layout::refusal::Refusal;
use marks::marked::Marked;
use marks::words::Marks;
use plan::draft::{Draft, Plan};
use sorter::ring::SorterLoop;
use std::test::Fail;

// A leg of ten metres.
fn belt(tail: u32, head: u32, class: u32, clearance: u32) -> Belt {
    Belt {
        tail,
        head,
        metres: 10,
        class,
        clearance,
        turn: 0,
    }
}

// Three junctions in two halls, and legs 0 to 1, 1 to 2, 0 to 2 and 0 to 1 again.
fn small() -> Result<Plan, Refusal> {
    let mut draft = Draft::begin(2)?;
    for hall in [0, 0, 1] {
        let _ = draft.junction(hall)?;
    }
    for belt in [
        belt(0, 1, 4, 60),
        belt(1, 2, 4, 40),
        belt(0, 2, 7, 80),
        belt(0, 1, 5, 90),
    ] {
        let _ = draft.leg(belt)?;
    }
    Ok(draft.finish())
}

// The legs that leave a junction, one after the other: the first three, and none where there are fewer.
fn leaving<L: Layout>(layout: &L, junction: u32) -> [Option<u32>; 3] {
    let mut found = [None; 3];
    let mut from = 0;
    for place in found.iter_mut() {
        let Some(leg) = layout.leaving(junction, from) else {
            break;
        };
        *place = Some(leg);
        from = leg.saturating_add(1);
    }
    found
}

#[test]
fn a_drawn_plan(rt: HostRuntime) -> Result<(), Fail> {
    let plan = small()?;
    assert_eq!(rt; (plan.halls(), plan.junctions(), plan.legs()), (2, 3, 4));
    assert_eq!(rt; (plan.hall_of(2), plan.hall_of(3)), (Some(1), None));
    assert_eq!(rt;
        (plan.tail(3), plan.head(3), plan.tail(4)),
        (Some(0), Some(1), None)
    );
    assert_eq!(rt;
        (plan.class(2), plan.clearance(2), plan.is_open(2)),
        (Some(7), Some(80), Some(true))
    );
    assert_eq!(rt; leaving(&plan, 0), [Some(0), Some(2), Some(3)]);
    assert_eq!(rt; leaving(&plan, 2), [None, None, None]);
    assert_eq!(rt;
        (plan.leaving(0, 1), plan.leaving(0, 4), plan.leaving(9, 0)),
        (Some(2), None, None)
    );
    assert_eq!(rt;
        (
            plan.reaching(2, 0),
            plan.reaching(2, 2),
            plan.reaching(0, 0),
        ),
        (Some(1), Some(2), None)
    );
    Ok(())
}

#[test]
fn a_full_draft(rt: HostRuntime) -> Result<(), Fail> {
    let mut draft = Draft::begin(1)?;
    assert_eq!(rt; draft.leg(belt(0, 0, 4, 60)), Err(Refusal::NotEntered(1)));
    for _ in 0..256u32 {
        let _ = draft.junction(0)?;
    }
    assert_eq!(rt; draft.junction(1), Err(Refusal::OutOfRange(1)));
    assert_eq!(rt; draft.junction(0), Err(Refusal::Full(256)));
    for _ in 0..512u32 {
        let _ = draft.leg(belt(0, 255, 4, 60))?;
    }
    assert_eq!(rt; draft.leg(belt(0, 255, 8, 60)), Err(Refusal::OutOfRange(4)));
    assert_eq!(rt; draft.leg(belt(0, 256, 4, 60)), Err(Refusal::NotEntered(2)));
    assert_eq!(rt; draft.leg(belt(0, 255, 4, 60)), Err(Refusal::Full(512)));
    assert_eq!(rt; draft.finish().leaving(0, 511), Some(511));
    Ok(())
}

#[test]
fn a_sorter_loop(rt: HostRuntime) -> Result<(), Fail> {
    let ring = SorterLoop::begin(9, 10, 4, 60)?;
    assert_eq!(rt; (ring.halls(), ring.junctions(), ring.legs()), (2, 9, 9));
    assert_eq!(rt;
        (ring.hall_of(7), ring.hall_of(8), ring.hall_of(9)),
        (Some(0), Some(1), None)
    );
    assert_eq!(rt;
        (ring.head(7), ring.head(8), ring.head(9)),
        (Some(8), Some(0), None)
    );
    assert_eq!(rt; (ring.leaving(3, 3), ring.leaving(3, 4)), (Some(3), None));
    assert_eq!(rt;
        (
            ring.reaching(0, 8),
            ring.reaching(0, 9),
            ring.reaching(4, 0),
        ),
        (Some(8), None, Some(3))
    );
    assert_eq!(rt; SorterLoop::begin(1, 0, 8, 0).is_err(), true);
    assert_eq!(rt; SorterLoop::begin(256, 10, 8, 0).is_err(), true);
    Ok(())
}

#[test]
fn a_turned_layout(rt: HostRuntime) -> Result<(), Fail> {
    let turned = Turned::over(small()?);
    assert_eq!(rt; (turned.tail(1), turned.head(1)), (Some(2), Some(1)));
    assert_eq!(rt; leaving(&turned, 2), [Some(1), Some(2), None]);
    assert_eq!(rt; turned.take_off().tail(1), Some(1));
    Ok(())
}

#[test]
fn a_day_sheet(rt: HostRuntime) -> Result<(), Fail> {
    let mut day = DaySheet::over(small()?);
    assert_eq!(rt; day.open(1), Err(Refusal::Already(1)));
    assert_eq!(rt; day.shut(4), Err(Refusal::NoLeg(4)));
    day.shut(1)?;
    assert_eq!(rt; day.shut(1), Err(Refusal::Already(1)));
    assert_eq!(rt;
        (day.is_open(1), day.is_open(0), day.is_open(4)),
        (Some(false), Some(true), None)
    );
    assert_eq!(rt; day.set(4, 8, 0), Err(Refusal::NoLeg(4)));
    assert_eq!(rt; day.set(0, 8, 0), Err(Refusal::OutOfRange(2)));
    assert_eq!(rt; day.set(0, 7, 501), Err(Refusal::OutOfRange(3)));
    day.set(0, 7, 20)?;
    assert_eq!(rt;
        (day.class(0), day.clearance(0), day.metres(0)),
        (Some(7), Some(20), Some(10))
    );
    day.open(1)?;
    assert_eq!(rt; day.is_open(1), Some(true));
    assert_eq!(rt; day.take_off().class(0), Some(4));
    Ok(())
}

// A leg that is shut below can be shut and opened on a sheet above, and stays shut.
#[test]
fn a_sheet_over_a_sheet(rt: HostRuntime) -> Result<(), Fail> {
    let mut below = DaySheet::over(small()?);
    below.shut(0)?;
    let mut above = DaySheet::over(below);
    assert_eq!(rt;
        (above.is_shut(0), above.is_open(0)),
        (Some(false), Some(false))
    );
    above.shut(0)?;
    above.open(0)?;
    assert_eq!(rt; above.is_open(0), Some(false));
    Ok(())
}

#[test]
fn a_marked_layout(rt: HostRuntime) -> Result<(), Fail> {
    let plan = small()?;
    let mut marks = Marks::lapsed();
    marks.put(1, 2, false);
    marks.put(32, 2, false);
    assert_eq!(rt;
        (marks.has(1, 2), marks.has(0, 2), marks.has(1, 1)),
        (false, true, true)
    );
    assert_eq!(rt; (marks.has(32, 0), marks.has(0, 512)), (false, false));
    let shown = Marked::over(Turned::over(&plan), &marks, 1);
    assert_eq!(rt;
        (shown.is_open(2), shown.is_open(1), shown.is_open(4)),
        (Some(false), Some(true), None)
    );
    assert_eq!(rt; shown.leaving(2, 0), Some(1));
    assert_eq!(rt; Marked::over(&plan, &marks, 0).is_open(2), Some(true));
    assert_eq!(rt; Marked::over(&plan, &marks, 2).is_open(2), Some(true));
    Ok(())
}
