// Lines after a plan that holds nothing, and the longest text, with the exact answer to each.
use replies::answer;
use std::alloc::Global;
use std::process::Abort;
use std::test::Fail;

// A text and what the board answers.
#[derive(Clone, Copy)]
struct Case {
    text: &'static [u8],
    answer: &'static [u8],
}

// Answers each text of a table, and compares.
// kept: the tests of plan texts have their own, for another answer; a shared crate would export a helper of tests.
fn run(rt: &impl Abort, heap: Global, cases: &[Case]) -> Result<(), Fail> {
    for case in cases {
        let mut out = String::new(heap);
        answer(&mut out, case.text)?;
        assert_eq!(rt; out.as_bytes(), case.answer);
    }
    Ok(())
}

// The lines after a plan that holds nothing.
#[test]
fn orders(rt: HostRuntime) -> Result<(), Fail> {
    run(
        &rt,
        rt.alloc(),
        &[
            Case {
                text: b"plan=1\nmeasure=h\nhalls=1\npoints=0\nlegs=0\n\n",
                answer: b"plan=0,0,1\nrefused=1\nfigure=6\n",
            },
            Case {
                text: b"plan=1\nmeasure=h\nhalls=1\npoints=0\nlegs=0\nplan=1\n",
                answer: b"plan=0,0,1\nrefused=1\nfigure=6\n",
            },
            Case {
                text: b"plan=1\nmeasure=h\nhalls=1\npoints=0\nlegs=0\nshut=1\nroute=0,4\n",
                answer: b"plan=0,0,1\nrefused=6\nfigure=1\nrefused=8\nfigure=1\n",
            },
            Case {
                text: b"plan=1\nmeasure=h\nhalls=1\npoints=0\nlegs=0\nshut=1",
                answer: b"plan=0,0,1\nrefused=12\nfigure=6\n",
            },
            Case {
                text: b"plan=1\nmeasure=h\nhalls=1\npoints=0\nlegs=0\nx\ny",
                answer: b"plan=0,0,1\nrefused=1\nfigure=6\nrefused=12\nfigure=7\n",
            },
            Case {
                text: b"plan=1\nmeasure=h\nhalls=1\npoints=0\nlegs=0\nxxxxxxxxxxxxxxxxxxxxxxxxxxxxxxxxxxxxxxxxx\nplan=1\n",
                answer: b"plan=0,0,1\nrefused=12\nfigure=6\n",
            },
            Case {
                text: b"plan=1\nmeasure=h\nhalls=1\npoints=0\nlegs=0\n\xff\n",
                answer: b"plan=0,0,1\nrefused=1\nfigure=6\n",
            },
        ],
    )
}

// A text of so many bytes: a plan, and then one line without its end.
fn padded(heap: Global, size: usize) -> Result<Vec<u8>, Fail> {
    let mut text = vec![in heap; b'x'; size]?;
    let plan = b"plan=1\nmeasure=h\nhalls=1\npoints=0\nlegs=0\n";
    for (place, byte) in plan.iter().enumerate() {
        if place < text.len() {
            text[place] = *byte;
        }
    }
    Ok(text)
}

// The longest text that is read, and one byte more.
#[test]
fn longest(rt: HostRuntime) -> Result<(), Fail> {
    let mut out = String::new(rt.alloc());
    answer(&mut out, &padded(rt.alloc(), 65536)?)?;
    assert_eq!(rt;
        out.as_bytes(),
        b"plan=0,0,1\nrefused=12\nfigure=6\n".as_slice()
    );
    let mut out = String::new(rt.alloc());
    answer(&mut out, &padded(rt.alloc(), 65537)?)?;
    assert_eq!(rt; out.as_bytes(), b"refused=13\nfigure=65536\n".as_slice());
    Ok(())
}
