// Sessions: a plan, and the orders of a shift, with the exact answer.
use replies::answer;
use std::alloc::Global;
use std::process::Abort;
use std::test::Fail;

// Orders, and what the board answers to them.
#[derive(Clone, Copy)]
struct Session {
    orders: &'static [u8],
    answer: &'static [u8],
}

// What stands before and after the measure's letter in a plan of five junctions in two halls.
const BEFORE: &[u8] = b"plan=1\nmeasure=";

const AFTER: &[u8] =
    b"\nhalls=2\npoints=5\nlegs=6\nat=0\nat=0\nat=0\nat=1\nat=1\nleg=0,1,10,4,60,0\nleg=1,3,10,4,40,0\nleg=0,2,10,4,80,1\nleg=2,3,20,4,80,0\nleg=3,4,10,4,70,0\nleg=2,1,5,7,90,1\n";

// Answers the plan by a measure with the orders of each session, and compares.
fn run(rt: &impl Abort, heap: Global, letter: u8, sessions: &[Session]) -> Result<(), Fail> {
    for session in sessions {
        let mut text = Vec::new(heap);
        text.extend_from_slice(BEFORE)?;
        text.push(letter)?;
        text.extend_from_slice(AFTER)?;
        text.extend_from_slice(session.orders)?;
        let mut out = String::new(heap);
        answer(&mut out, &text)?;
        assert_eq!(rt; out.as_bytes(), session.answer);
    }
    Ok(())
}

// By time: the quick way, and what the crews do to it.
#[test]
fn by_time(rt: HostRuntime) -> Result<(), Fail> {
    run(
        &rt,
        rt.alloc(),
        b't',
        &[
            Session {
                orders: b"route=0,4\nrenew=1\nroute=0,4\nset=3,0,80\nshut=1\nroute=0,4\nroute=4,0\n",
                answer: b"plan=5,6,2\ntotal=300\nsettled=5\nlegs=0,1,4\nmarked=4\ntotal=300\nsettled=4\nlegs=0,1,4\nlapsed=0\nlapsed=1\ntotal=600\nsettled=5\nlegs=2,3,4\nrefused=9\nfigure=1\n",
            },
            Session {
                orders: b"renew=1\nroute=0,4\nshut=0\nroute=0,4\nopen=0\n",
                answer: b"plan=5,6,2\nmarked=4\ntotal=300\nsettled=4\nlegs=0,1,4\nlapsed=1\ntotal=325\nsettled=5\nlegs=2,5,1,4\nlapsed=0\n",
            },
            Session {
                orders: b"renew=0\nrenew=1\nset=1,0,60\nset=1,7,90\nroute=0,4\n",
                answer: b"plan=5,6,2\nmarked=3\nmarked=4\nlapsed=1\nlapsed=1\ntotal=250\nsettled=5\nlegs=0,1,4\n",
            },
            Session {
                orders: b"route=0,0\nroute=4,4\n",
                answer: b"plan=5,6,2\ntotal=0\nsettled=1\nlegs=\ntotal=0\nsettled=1\nlegs=\n",
            },
        ],
    )
}

// By clearance: the high way. A leg that gets higher is better.
#[test]
fn by_clearance(rt: HostRuntime) -> Result<(), Fail> {
    run(
        &rt,
        rt.alloc(),
        b'h',
        &[
            Session {
                orders: b"route=0,4\nroute=0,0\n",
                answer: b"plan=5,6,2\ntotal=70\nsettled=5\nlegs=2,3,4\ntotal=65535\nsettled=1\nlegs=\n",
            },
            Session {
                orders: b"renew=1\nroute=0,4\nshut=0\nroute=0,4\nopen=0\n",
                answer: b"plan=5,6,2\nmarked=4\ntotal=70\nsettled=4\nlegs=2,3,4\nlapsed=0\ntotal=70\nsettled=4\nlegs=2,3,4\nlapsed=1\n",
            },
            Session {
                orders: b"renew=0\nrenew=1\nset=1,0,60\nset=1,7,90\nroute=0,4\n",
                answer: b"plan=5,6,2\nmarked=3\nmarked=4\nlapsed=2\nlapsed=0\ntotal=70\nsettled=5\nlegs=2,3,4\n",
            },
        ],
    )
}

// By time and then turns: a total has two numbers.
#[test]
fn by_time_then_turns(rt: HostRuntime) -> Result<(), Fail> {
    run(
        &rt,
        rt.alloc(),
        b'd',
        &[
            Session {
                orders: b"route=0,4\nroute=0,0\n",
                answer: b"plan=5,6,2\ntotal=300,0\nsettled=5\nlegs=0,1,4\ntotal=0,0\nsettled=1\nlegs=\n",
            },
            Session {
                orders: b"renew=1\nroute=0,4\nshut=0\nroute=0,4\nopen=0\n",
                answer: b"plan=5,6,2\nmarked=4\ntotal=300,0\nsettled=4\nlegs=0,1,4\nlapsed=1\ntotal=325,2\nsettled=5\nlegs=2,5,1,4\nlapsed=0\n",
            },
            Session {
                orders: b"renew=0\nrenew=1\nset=1,0,60\nset=1,7,90\nroute=0,4\n",
                answer: b"plan=5,6,2\nmarked=3\nmarked=4\nlapsed=1\nlapsed=1\ntotal=250,0\nsettled=5\nlegs=0,1,4\n",
            },
        ],
    )
}

// Lines that are no orders: 1, 2 and 12, with the number of the line. The next line is read all the same, unless the line has no end.
#[test]
fn refused_lines(rt: HostRuntime) -> Result<(), Fail> {
    run(
        &rt,
        rt.alloc(),
        b't',
        &[
            Session {
                orders: b"route=1\nSHUT=1\nshut 1\nset=1,2\nrenew=01\nroute=0,1\n",
                answer: b"plan=5,6,2\nrefused=2\nfigure=17\nrefused=1\nfigure=18\nrefused=1\nfigure=19\nrefused=2\nfigure=20\nrefused=2\nfigure=21\ntotal=100\nsettled=2\nlegs=0\n",
            },
            Session {
                orders: b"halls=2\nleg=0,1,10,4,60,0\n\n",
                answer: b"plan=5,6,2\nrefused=1\nfigure=17\nrefused=1\nfigure=18\nrefused=1\nfigure=19\n",
            },
            Session {
                orders: b"shut=0\nshut=1",
                answer: b"plan=5,6,2\nlapsed=0\nrefused=12\nfigure=18\n",
            },
        ],
    )
}

// Orders that the router refuses: 3 with the number of the line, and 6, 7, 8, 9 and 11 with their own figures. They change nothing.
#[test]
fn refused_orders(rt: HostRuntime) -> Result<(), Fail> {
    run(
        &rt,
        rt.alloc(),
        b't',
        &[
            Session {
                orders: b"set=0,8,60\nset=0,4,0\nset=0,4,501\nset=0,7,500\n",
                answer: b"plan=5,6,2\nrefused=3\nfigure=17\nrefused=3\nfigure=18\nrefused=3\nfigure=19\nlapsed=0\n",
            },
            Session {
                orders: b"shut=6\nopen=6\nset=6,8,0\nshut=99999\n",
                answer: b"plan=5,6,2\nrefused=6\nfigure=6\nrefused=6\nfigure=6\nrefused=6\nfigure=6\nrefused=6\nfigure=99999\n",
            },
            Session {
                orders: b"renew=2\nroute=5,0\nroute=0,5\nroute=5,5\n",
                answer: b"plan=5,6,2\nrefused=7\nfigure=2\nrefused=8\nfigure=1\nrefused=8\nfigure=2\nrefused=8\nfigure=1\n",
            },
            Session {
                orders: b"shut=1\nshut=1\nopen=1\nopen=1\nopen=0\n",
                answer: b"plan=5,6,2\nlapsed=0\nrefused=11\nfigure=1\nlapsed=0\nrefused=11\nfigure=1\nrefused=11\nfigure=0\n",
            },
            Session {
                orders: b"route=4,0\nshut=4\nroute=0,4\nroute=3,4\n",
                answer: b"plan=5,6,2\nrefused=9\nfigure=1\nlapsed=0\nrefused=9\nfigure=4\nrefused=9\nfigure=1\n",
            },
        ],
    )
}
