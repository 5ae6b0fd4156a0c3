// Texts, good and damaged, with the exact answer to each.
use board::answer;
use std::alloc::Global;
use std::process::Abort;
use std::test::Fail;

// A text and what the board answers.
#[derive(Clone, Copy)]
struct Case {
    text: &'static [u8],
    answer: &'static [u8],
}

// Answers each text of a table, and compares.
fn run(rt: &impl Abort, heap: Global, cases: &[Case]) -> Result<(), Fail> {
    for case in cases {
        let mut out = Vec::new(heap);
        answer(&mut out, case.text)?;
        assert_eq!(rt; out.as_slice(), case.answer);
    }
    Ok(())
}

// Plans that are whole.
#[test]
fn whole(rt: HostRuntime) -> Result<(), Fail> {
    run(
        &rt,
        rt.alloc(),
        &[
            Case {
                text: b"plan=1\nmeasure=t\nhalls=2\npoints=5\nlegs=6\nat=0\nat=0\nat=0\nat=1\nat=1\nleg=0,1,10,4,60,0\nleg=1,3,10,4,40,0\nleg=0,2,10,4,80,1\nleg=2,3,20,4,80,0\nleg=3,4,10,4,70,0\nleg=2,1,5,7,90,1\n",
                answer: b"plan=5,6,2\n",
            },
            Case {
                text: b"plan=1\nmeasure=h\nhalls=1\npoints=0\nlegs=0\n",
                answer: b"plan=0,0,1\n",
            },
            Case {
                text: b"plan=1\nmeasure=d\nhalls=32\npoints=1\nlegs=1\nat=31\nleg=0,0,1000,7,500,1\n",
                answer: b"plan=1,1,32\n",
            },
            Case {
                text: b"plan=1\nmeasure=t\nhalls=1\npoints=1\nlegs=1\nat=0\nleg=0,0,1,0,1,0\n",
                answer: b"plan=1,1,1\n",
            },
        ],
    )
}

// The first line: its end, its key, and the forms and range of its value.
#[test]
fn first_line(rt: HostRuntime) -> Result<(), Fail> {
    run(
        &rt,
        rt.alloc(),
        &[
            Case {
                text: b"",
                answer: b"refused=1\nfigure=1\n",
            },
            Case {
                text: b"\n",
                answer: b"refused=1\nfigure=1\n",
            },
            Case {
                text: b"plan=1",
                answer: b"refused=12\nfigure=1\n",
            },
            Case {
                text: b"plan=2\n",
                answer: b"refused=3\nfigure=1\n",
            },
            Case {
                text: b"plan=0\n",
                answer: b"refused=3\nfigure=1\n",
            },
            Case {
                text: b"plan=99999\n",
                answer: b"refused=3\nfigure=1\n",
            },
            Case {
                text: b"plan=\n",
                answer: b"refused=2\nfigure=1\n",
            },
            Case {
                text: b"plan=01\n",
                answer: b"refused=2\nfigure=1\n",
            },
            Case {
                text: b"plan=1,1\n",
                answer: b"refused=2\nfigure=1\n",
            },
            Case {
                text: b"plan=123456\n",
                answer: b"refused=2\nfigure=1\n",
            },
            Case {
                text: b"plan=x\n",
                answer: b"refused=2\nfigure=1\n",
            },
            Case {
                text: b"plan=1 \n",
                answer: b"refused=2\nfigure=1\n",
            },
            Case {
                text: b"PLAN=1\n",
                answer: b"refused=1\nfigure=1\n",
            },
            Case {
                text: b"plan =1\n",
                answer: b"refused=1\nfigure=1\n",
            },
            Case {
                text: b"=1\n",
                answer: b"refused=1\nfigure=1\n",
            },
            Case {
                text: b"plan\n",
                answer: b"refused=1\nfigure=1\n",
            },
            Case {
                text: b"measure=t\n",
                answer: b"refused=1\nfigure=1\n",
            },
            Case {
                text: b"plan=\0\n",
                answer: b"refused=2\nfigure=1\n",
            },
            Case {
                text: b"pl\0an=1\n",
                answer: b"refused=1\nfigure=1\n",
            },
            Case {
                text: b"plan=\xff\n",
                answer: b"refused=2\nfigure=1\n",
            },
            Case {
                text: b"\xffplan=1\n",
                answer: b"refused=1\nfigure=1\n",
            },
            Case {
                text: b"plan=1\r\n",
                answer: b"refused=2\nfigure=1\n",
            },
            Case {
                text: b"plan=11111111111111111111111111111111111\n",
                answer: b"refused=2\nfigure=1\n",
            },
            Case {
                text: b"plan=111111111111111111111111111111111111\n",
                answer: b"refused=12\nfigure=1\n",
            },
            Case {
                text: b"xxxxxxxxxxxxxxxxxxxxxxxxxxxxxxxxxxxxxxxx\n",
                answer: b"refused=1\nfigure=1\n",
            },
            Case {
                text: b"xxxxxxxxxxxxxxxxxxxxxxxxxxxxxxxxxxxxxxxxx\n",
                answer: b"refused=12\nfigure=1\n",
            },
        ],
    )
}

// The lines before the first junction.
#[test]
fn head(rt: HostRuntime) -> Result<(), Fail> {
    run(
        &rt,
        rt.alloc(),
        &[
            Case {
                text: b"plan=1\n",
                answer: b"refused=1\nfigure=2\n",
            },
            Case {
                text: b"plan=1\nmeasure=T\n",
                answer: b"refused=2\nfigure=2\n",
            },
            Case {
                text: b"plan=1\nmeasure=x\n",
                answer: b"refused=3\nfigure=2\n",
            },
            Case {
                text: b"plan=1\nmeasure=th\n",
                answer: b"refused=2\nfigure=2\n",
            },
            Case {
                text: b"plan=1\nmeasure=\n",
                answer: b"refused=2\nfigure=2\n",
            },
            Case {
                text: b"plan=1\nmeasure=7\n",
                answer: b"refused=2\nfigure=2\n",
            },
            Case {
                text: b"plan=1\nmeasure=t,h\n",
                answer: b"refused=2\nfigure=2\n",
            },
            Case {
                text: b"plan=1\nmeasure=t",
                answer: b"refused=12\nfigure=2\n",
            },
            Case {
                text: b"plan=1\nplan=1\n",
                answer: b"refused=1\nfigure=2\n",
            },
            Case {
                text: b"plan=1\nmeasure=t\n",
                answer: b"refused=1\nfigure=3\n",
            },
            Case {
                text: b"plan=1\nmeasure=t\nhalls=0\n",
                answer: b"refused=3\nfigure=3\n",
            },
            Case {
                text: b"plan=1\nmeasure=t\nhalls=33\n",
                answer: b"refused=3\nfigure=3\n",
            },
            Case {
                text: b"plan=1\nmeasure=t\nhalls=\n",
                answer: b"refused=2\nfigure=3\n",
            },
            Case {
                text: b"plan=1\nmeasure=t\nhalls=1,\n",
                answer: b"refused=2\nfigure=3\n",
            },
            Case {
                text: b"plan=1\nmeasure=t\npoints=1\n",
                answer: b"refused=1\nfigure=3\n",
            },
            Case {
                text: b"plan=1\nmeasure=t\nhalls=2\n",
                answer: b"refused=1\nfigure=4\n",
            },
            Case {
                text: b"plan=1\nmeasure=t\nhalls=2\npoints=257\n",
                answer: b"refused=3\nfigure=4\n",
            },
            Case {
                text: b"plan=1\nmeasure=t\nhalls=2\npoints=00\n",
                answer: b"refused=2\nfigure=4\n",
            },
            Case {
                text: b"plan=1\nmeasure=t\nhalls=2\npoints=256\n",
                answer: b"refused=1\nfigure=5\n",
            },
            Case {
                text: b"plan=1\nmeasure=t\nhalls=2\npoints=0\nlegs=513\n",
                answer: b"refused=3\nfigure=5\n",
            },
            Case {
                text: b"plan=1\nmeasure=t\nhalls=2\npoints=0\nlegs=512\n",
                answer: b"refused=1\nfigure=6\n",
            },
            Case {
                text: b"plan=1\nmeasure=t\nhalls=2\npoints=0\nlegs=1e3\n",
                answer: b"refused=2\nfigure=5\n",
            },
            Case {
                text: b"plan=1\nmeasure=t\nhalls=2\npoints=0\nat=0\n",
                answer: b"refused=1\nfigure=5\n",
            },
        ],
    )
}

// The junctions, the first and the last of them.
#[test]
fn junctions(rt: HostRuntime) -> Result<(), Fail> {
    run(
        &rt,
        rt.alloc(),
        &[
            Case {
                text: b"plan=1\nmeasure=t\nhalls=2\npoints=2\nlegs=0\n",
                answer: b"refused=1\nfigure=6\n",
            },
            Case {
                text: b"plan=1\nmeasure=t\nhalls=2\npoints=2\nlegs=0\nat=2\n",
                answer: b"refused=3\nfigure=6\n",
            },
            Case {
                text: b"plan=1\nmeasure=t\nhalls=2\npoints=2\nlegs=0\nat=0,0\n",
                answer: b"refused=2\nfigure=6\n",
            },
            Case {
                text: b"plan=1\nmeasure=t\nhalls=2\npoints=2\nlegs=0\nleg=0,0,1,0,1,0\n",
                answer: b"refused=1\nfigure=6\n",
            },
            Case {
                text: b"plan=1\nmeasure=t\nhalls=2\npoints=2\nlegs=0\nat=\n",
                answer: b"refused=2\nfigure=6\n",
            },
            Case {
                text: b"plan=1\nmeasure=t\nhalls=2\npoints=2\nlegs=0\nat=1",
                answer: b"refused=12\nfigure=6\n",
            },
            Case {
                text: b"plan=1\nmeasure=t\nhalls=2\npoints=2\nlegs=0\nat=1\n",
                answer: b"refused=1\nfigure=7\n",
            },
            Case {
                text: b"plan=1\nmeasure=t\nhalls=2\npoints=2\nlegs=0\nat=1\nat=2\n",
                answer: b"refused=3\nfigure=7\n",
            },
            Case {
                text: b"plan=1\nmeasure=t\nhalls=2\npoints=2\nlegs=0\nat=1\nat=a\n",
                answer: b"refused=2\nfigure=7\n",
            },
            Case {
                text: b"plan=1\nmeasure=t\nhalls=2\npoints=2\nlegs=0\nat=1\nAT=1\n",
                answer: b"refused=1\nfigure=7\n",
            },
            Case {
                text: b"plan=1\nmeasure=t\nhalls=2\npoints=2\nlegs=0\nat=1\nat=0\n",
                answer: b"plan=2,0,2\n",
            },
        ],
    )
}

// The first leg: its ranges, its ends, and their order.
#[test]
fn legs(rt: HostRuntime) -> Result<(), Fail> {
    run(
        &rt,
        rt.alloc(),
        &[
            Case {
                text: b"plan=1\nmeasure=t\nhalls=2\npoints=2\nlegs=2\nat=0\nat=1\n",
                answer: b"refused=1\nfigure=8\n",
            },
            Case {
                text: b"plan=1\nmeasure=t\nhalls=2\npoints=2\nlegs=2\nat=0\nat=1\nleg=0,1,0,4,60,0\n",
                answer: b"refused=3\nfigure=8\n",
            },
            Case {
                text: b"plan=1\nmeasure=t\nhalls=2\npoints=2\nlegs=2\nat=0\nat=1\nleg=0,1,1001,4,60,0\n",
                answer: b"refused=3\nfigure=8\n",
            },
            Case {
                text: b"plan=1\nmeasure=t\nhalls=2\npoints=2\nlegs=2\nat=0\nat=1\nleg=0,1,10,8,60,0\n",
                answer: b"refused=3\nfigure=8\n",
            },
            Case {
                text: b"plan=1\nmeasure=t\nhalls=2\npoints=2\nlegs=2\nat=0\nat=1\nleg=0,1,10,4,0,0\n",
                answer: b"refused=3\nfigure=8\n",
            },
            Case {
                text: b"plan=1\nmeasure=t\nhalls=2\npoints=2\nlegs=2\nat=0\nat=1\nleg=0,1,10,4,501,0\n",
                answer: b"refused=3\nfigure=8\n",
            },
            Case {
                text: b"plan=1\nmeasure=t\nhalls=2\npoints=2\nlegs=2\nat=0\nat=1\nleg=0,1,10,4,60,2\n",
                answer: b"refused=3\nfigure=8\n",
            },
            Case {
                text: b"plan=1\nmeasure=t\nhalls=2\npoints=2\nlegs=2\nat=0\nat=1\nleg=2,1,10,4,60,0\n",
                answer: b"refused=5\nfigure=8\n",
            },
            Case {
                text: b"plan=1\nmeasure=t\nhalls=2\npoints=2\nlegs=2\nat=0\nat=1\nleg=0,2,10,4,60,0\n",
                answer: b"refused=5\nfigure=8\n",
            },
            Case {
                text: b"plan=1\nmeasure=t\nhalls=2\npoints=2\nlegs=2\nat=0\nat=1\nleg=2,2,10,4,60,2\n",
                answer: b"refused=3\nfigure=8\n",
            },
            Case {
                text: b"plan=1\nmeasure=t\nhalls=2\npoints=2\nlegs=2\nat=0\nat=1\nleg=0,1,10,4,60\n",
                answer: b"refused=2\nfigure=8\n",
            },
            Case {
                text: b"plan=1\nmeasure=t\nhalls=2\npoints=2\nlegs=2\nat=0\nat=1\nleg=0,1,10,4,60,0,0\n",
                answer: b"refused=2\nfigure=8\n",
            },
            Case {
                text: b"plan=1\nmeasure=t\nhalls=2\npoints=2\nlegs=2\nat=0\nat=1\nleg=0,,10,4,60,0\n",
                answer: b"refused=2\nfigure=8\n",
            },
            Case {
                text: b"plan=1\nmeasure=t\nhalls=2\npoints=2\nlegs=2\nat=0\nat=1\nleg=0,1,10,4,060,0\n",
                answer: b"refused=2\nfigure=8\n",
            },
            Case {
                text: b"plan=1\nmeasure=t\nhalls=2\npoints=2\nlegs=2\nat=0\nat=1\nleg=0,1,10,4,60,\n",
                answer: b"refused=2\nfigure=8\n",
            },
        ],
    )
}

// The last line of a plan.
#[test]
fn last_leg(rt: HostRuntime) -> Result<(), Fail> {
    run(
        &rt,
        rt.alloc(),
        &[
            Case {
                text: b"plan=1\nmeasure=t\nhalls=2\npoints=2\nlegs=2\nat=0\nat=1\nleg=0,1,10,4,60,0\n",
                answer: b"refused=1\nfigure=9\n",
            },
            Case {
                text: b"plan=1\nmeasure=t\nhalls=2\npoints=2\nlegs=2\nat=0\nat=1\nleg=0,1,10,4,60,0\nat=0\n",
                answer: b"refused=1\nfigure=9\n",
            },
            Case {
                text: b"plan=1\nmeasure=t\nhalls=2\npoints=2\nlegs=2\nat=0\nat=1\nleg=0,1,10,4,60,0\nleg=0,1,10,4,60,x\n",
                answer: b"refused=2\nfigure=9\n",
            },
            Case {
                text: b"plan=1\nmeasure=t\nhalls=2\npoints=2\nlegs=2\nat=0\nat=1\nleg=0,1,10,4,60,0\nleg=0,1,10,4,60,2\n",
                answer: b"refused=3\nfigure=9\n",
            },
            Case {
                text: b"plan=1\nmeasure=t\nhalls=2\npoints=2\nlegs=2\nat=0\nat=1\nleg=0,1,10,4,60,0\nleg=99999,1,10,4,60,0\n",
                answer: b"refused=5\nfigure=9\n",
            },
            Case {
                text: b"plan=1\nmeasure=t\nhalls=2\npoints=2\nlegs=2\nat=0\nat=1\nleg=0,1,10,4,60,0\nleg=0,99999,10,4,60,0\n",
                answer: b"refused=5\nfigure=9\n",
            },
            Case {
                text: b"plan=1\nmeasure=t\nhalls=2\npoints=2\nlegs=2\nat=0\nat=1\nleg=0,1,10,4,60,0\nleg=0,1,10,4,60,0",
                answer: b"refused=12\nfigure=9\n",
            },
            Case {
                text: b"plan=1\nmeasure=t\nhalls=2\npoints=2\nlegs=2\nat=0\nat=1\nleg=0,1,10,4,60,0\nleg=0,1,10,4,60,0\n",
                answer: b"plan=2,2,2\n",
            },
        ],
    )
}

// The lines after a plan, of which none is known.
#[test]
fn orders(rt: HostRuntime) -> Result<(), Fail> {
    run(
        &rt,
        rt.alloc(),
        &[
            Case {
                text: b"plan=1\nmeasure=h\nhalls=1\npoints=0\nlegs=0\n\n",
                answer: b"plan=0,0,1\nrefused=1\nfigure=6\n",
            },
            Case {
                text: b"plan=1\nmeasure=h\nhalls=1\npoints=0\nlegs=0\nplan=1\n",
                answer: b"plan=0,0,1\nrefused=1\nfigure=6\n",
            },
            Case {
                text: b"plan=1\nmeasure=h\nhalls=1\npoints=0\nlegs=0\nshut=1\nroute=0,4\n",
                answer: b"plan=0,0,1\nrefused=1\nfigure=6\nrefused=1\nfigure=7\n",
            },
            Case {
                text: b"plan=1\nmeasure=h\nhalls=1\npoints=0\nlegs=0\nshut=1",
                answer: b"plan=0,0,1\nrefused=12\nfigure=6\n",
            },
            Case {
                text: b"plan=1\nmeasure=h\nhalls=1\npoints=0\nlegs=0\nx\ny",
                answer: b"plan=0,0,1\nrefused=1\nfigure=6\nrefused=12\nfigure=7\n",
            },
            Case {
                text: b"plan=1\nmeasure=h\nhalls=1\npoints=0\nlegs=0\nxxxxxxxxxxxxxxxxxxxxxxxxxxxxxxxxxxxxxxxxx\nplan=1\n",
                answer: b"plan=0,0,1\nrefused=12\nfigure=6\n",
            },
            Case {
                text: b"plan=1\nmeasure=h\nhalls=1\npoints=0\nlegs=0\n\xff\n",
                answer: b"plan=0,0,1\nrefused=1\nfigure=6\n",
            },
        ],
    )
}

// A text of so many bytes: a plan, and then one line without its end.
fn padded(heap: Global, size: usize) -> Result<Vec<u8>, Fail> {
    let mut text = vec![in heap; b'x'; size]?;
    let plan = b"plan=1\nmeasure=h\nhalls=1\npoints=0\nlegs=0\n";
    for (place, byte) in plan.iter().enumerate() {
        if place < text.len() {
            text[place] = *byte;
        }
    }
    Ok(text)
}

// The longest text that is read, and one byte more.
#[test]
fn longest(rt: HostRuntime) -> Result<(), Fail> {
    let mut out = Vec::new(rt.alloc());
    answer(&mut out, &padded(rt.alloc(), 65536)?)?;
    assert_eq!(rt;
        out.as_slice(),
        b"plan=0,0,1\nrefused=12\nfigure=6\n".as_slice()
    );
    let mut out = Vec::new(rt.alloc());
    answer(&mut out, &padded(rt.alloc(), 65537)?)?;
    assert_eq!(rt; out.as_slice(), b"refused=13\nfigure=65536\n".as_slice());
    Ok(())
}
