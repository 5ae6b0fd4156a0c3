// Reads a text from standard input and writes what the board answers.
#![tactic(auto)]

use plan_text::reading::MOST_BYTES;
use replies::answer;
use std::io;
use std::io::{Read, Write};

fn main(rt: HostRuntime) -> io::Result<()> {
    let mut text = Vec::new(rt.alloc());
    // one byte more than a text may have, to know that it is too long
    let most = MOST_BYTES as u64 + 1;
    let _ = rt.stdin().take(most).read_to_end(&mut text)?;
    let mut out = String::new(rt.alloc());
    answer(&mut out, &text)?;
    rt.stdout().write_all(out.as_bytes())
}
