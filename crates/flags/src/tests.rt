// Renewing over a small plant, by two measures, and lapsing after it.
use halls::force::{HallMarks, Strikes};
use layers::day::DaySheet;
use layout::asking::Layout;
use layout::belt::Belt;
use layout::refusal::Refusal;
use marks::words::Marks;
use measure::{Headroom, Tenths};
use plan::draft::{Draft, Plan};
use renew::renew;
use search::{Slot, Tables};
use std::test::Fail;

// A leg by its ends, metres, class, clearance and turn.
fn belt(tail: u32, head: u32, metres: u32, class: u32, clearance: u32, turn: u32) -> Belt {
    Belt {
        tail,
        head,
        metres,
        class,
        clearance,
        turn,
    }
}

// Five junctions in two halls, with a quick way and a high way from 0 to 4.
// kept: each crate of tests draws its own plant, to be read alone.
fn two_halls() -> Result<Plan, Refusal> {
    let mut draft = Draft::begin(2)?;
    for hall in [0, 0, 0, 1, 1] {
        let _ = draft.junction(hall)?;
    }
    for leg in [
        belt(0, 1, 10, 4, 60, 0),
        belt(1, 3, 10, 4, 40, 0),
        belt(0, 2, 10, 4, 80, 1),
        belt(2, 3, 20, 4, 80, 0),
        belt(3, 4, 10, 4, 70, 0),
        belt(2, 1, 5, 7, 90, 1),
    ] {
        let _ = draft.leg(leg)?;
    }
    Ok(draft.finish())
}

// Which of the six legs are marked for a hall.
fn marked(marks: &Marks, hall: u32) -> [bool; 6] {
    [
        marks.has(hall, 0),
        marks.has(hall, 1),
        marks.has(hall, 2),
        marks.has(hall, 3),
        marks.has(hall, 4),
        marks.has(hall, 5),
    ]
}

// Renews a hall by time, with tables of so many places; the last has as many as it says.
fn renew_by_time<L: Layout>(
    layout: &L,
    marks: &mut Marks,
    hall: u32,
    last: usize,
) -> Result<u32, Refusal> {
    let total = Tenths { tenths: 7 };
    let slot = Slot { total, number: 0 };
    let mut settled = [9; 7];
    let places = last.min(7);
    let mut tables = Tables {
        totals: &mut [total; 7],
        came: &mut [7; 7],
        waiting: &mut [slot; 7],
        settled: &mut settled[..places],
    };
    renew(layout, marks, hall, &mut tables)
}

#[test]
fn by_time(rt: HostRuntime) -> Result<(), Fail> {
    let plan = two_halls()?;
    let mut marks = Marks::lapsed();
    assert_eq!(rt; renew_by_time(&plan, &mut marks, 1, 5), Ok(4));
    assert_eq!(rt; marked(&marks, 1), [true, true, false, false, true, true]);
    assert_eq!(rt; marked(&marks, 0), [true; 6]);
    // hall 0 has no entry: only the legs inside it are marked
    assert_eq!(rt; renew_by_time(&plan, &mut marks, 0, 5), Ok(3));
    assert_eq!(rt; marked(&marks, 0), [true, false, true, false, false, true]);
    Ok(())
}

#[test]
fn by_clearance(rt: HostRuntime) -> Result<(), Fail> {
    let plan = two_halls()?;
    let total = Headroom { centimetres: 7 };
    let slot = Slot { total, number: 0 };
    let mut marks = Marks::lapsed();
    let mut tables = Tables {
        totals: &mut [total; 5],
        came: &mut [7; 5],
        waiting: &mut [slot; 5],
        settled: &mut [9; 5],
    };
    let count = renew(&plan, &mut marks, 1, &mut tables);
    assert_eq!(rt; count, Ok(4));
    assert_eq!(rt; marked(&marks, 1), [false, true, true, true, true, false]);
    Ok(())
}

#[test]
fn over_a_sheet(rt: HostRuntime) -> Result<(), Fail> {
    let mut sheet = DaySheet::over(two_halls()?);
    sheet.shut(1)?;
    let mut marks = Marks::lapsed();
    assert_eq!(rt; renew_by_time(&sheet, &mut marks, 1, 5), Ok(3));
    assert_eq!(rt; marked(&marks, 1), [false, false, true, true, true, false]);
    Ok(())
}

#[test]
fn refused(rt: HostRuntime) -> Result<(), Fail> {
    let plan = two_halls()?;
    let mut marks = Marks::lapsed();
    assert_eq!(rt;
        renew_by_time(&plan, &mut marks, 2, 4),
        Err(Refusal::NoHall(2))
    );
    assert_eq!(rt;
        renew_by_time(&plan, &mut marks, 1, 4),
        Err(Refusal::ShortTable(4))
    );
    assert_eq!(rt; marked(&marks, 1), [true; 6]);
    Ok(())
}

#[test]
fn lapsing(rt: HostRuntime) -> Result<(), Fail> {
    let plan = two_halls()?;
    let mut halls = HallMarks::lapsed();
    assert_eq!(rt; halls.lapse(2, Strikes::Every), 0);
    assert_eq!(rt; renew_by_time(&plan, &mut halls.marks, 1, 5), Ok(4));
    halls.force.put(1, true);
    assert_eq!(rt; halls.lapse(2, Strikes::None), 0);
    assert_eq!(rt; halls.lapse(2, Strikes::Marking(3)), 0);
    assert_eq!(rt; halls.force.has(1), true);
    assert_eq!(rt; halls.lapse(2, Strikes::Marking(1)), 1);
    assert_eq!(rt; halls.force.has(1), false);
    assert_eq!(rt; marked(&halls.marks, 1), [true; 6]);
    Ok(())
}
