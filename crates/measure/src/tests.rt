// The three measures on examples.
use crate::figures::Figures;
use crate::kinds::both_stop;
use crate::measure::Measure;
use crate::ranking::compare;
use crate::totals::{Headroom, Tenths, TimeTurns};
use std::test::Fail;

// A leg of ten metres that turns the tote.
fn leg(class: u32) -> Figures {
    Figures {
        metres: 10,
        class,
        clearance: 60,
        turn: 1,
    }
}

#[test]
fn paces_by_class(rt: HostRuntime) {
    let times = [200, 160, 140, 120, 100, 80, 60, 50, 0];
    for (class, &tenths) in times.iter().enumerate() {
        assert_eq!(rt;
            <Tenths as Measure>::weight(leg(class as u32)),
            Tenths { tenths }
        );
    }
}

#[test]
fn weights(rt: HostRuntime) {
    assert_eq!(rt;
        <Headroom as Measure>::weight(leg(4)),
        Headroom { centimetres: 60 }
    );
    assert_eq!(rt;
        <TimeTurns as Measure>::weight(leg(4)),
        TimeTurns {
            time: 100,
            turns: 1,
        }
    );
    let endless = Figures {
        metres: u32::MAX,
        class: 0,
        clearance: 70000,
        turn: 1,
    };
    assert_eq!(rt;
        <Tenths as Measure>::weight(endless),
        Tenths { tenths: u32::MAX }
    );
    assert_eq!(rt;
        <Headroom as Measure>::weight(endless),
        <Headroom as Measure>::unit()
    );
    assert_eq!(rt;
        <TimeTurns as Measure>::weight(endless),
        TimeTurns {
            time: u32::MAX,
            turns: u32::MAX,
        }
    );
}

#[test]
fn joins_at_the_stops(rt: HostRuntime) {
    let long = Tenths { tenths: 4294967290 };
    assert_eq!(rt;
        long.join(Tenths { tenths: 6 }),
        Tenths { tenths: u32::MAX }
    );
    let turning = TimeTurns {
        time: 7,
        turns: u32::MAX,
    };
    assert_eq!(rt;
        turning.join(TimeTurns { time: 1, turns: 1 }),
        TimeTurns {
            time: 8,
            turns: u32::MAX,
        }
    );
    assert_eq!(rt;
        both_stop(),
        TimeTurns {
            time: u32::MAX,
            turns: u32::MAX,
        }
    );
}

#[test]
fn order_of_clearance(rt: HostRuntime) {
    let low = Headroom { centimetres: 60 };
    let high = Headroom { centimetres: 90 };
    assert!(rt; high.is_below(low));
    assert!(rt; compare(low, high).is_gt());
    assert!(rt; <Headroom as Measure>::unit().is_below(high));
    assert_eq!(rt; low.join(high), low);
}

#[test]
fn printing(rt: HostRuntime) -> Result<(), Fail> {
    let time = Tenths { tenths: 300 };
    assert_eq!(rt; time.to_string(rt.alloc())?.as_str(), "300");
    let clearance = Headroom { centimetres: 70 };
    assert_eq!(rt; clearance.to_string(rt.alloc())?.as_str(), "70");
    let pair = TimeTurns {
        time: 300,
        turns: 0,
    };
    assert_eq!(rt; pair.to_string(rt.alloc())?.as_str(), "300,0");
    Ok(())
}
