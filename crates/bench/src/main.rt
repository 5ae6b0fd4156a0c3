// Searches over full plants, to be timed: each line of the input is a job, as `grid t 8`, and each is answered by what its searches come to.
#![tactic(auto)]

mod dice;
mod job;
mod plant;
mod rounds;
mod tally;

use job::Job;
use std::io;

// Does the job of a line, and writes what it came to.
fn answer(rt: &HostRuntime, line: &str) -> io::Result<()> {
    let tally = line.parse::<Job>().ok().and_then(|job| job.run().ok());
    match tally {
        Some(tally) => println!(rt; "{line}: {tally}"),
        None => println!(rt; "{line}: no job"),
    }
}

fn main(rt: HostRuntime) -> io::Result<()> {
    for line in rt.lines(rt.alloc()) {
        answer(&rt, &line?)?;
    }
    Ok(())
}
