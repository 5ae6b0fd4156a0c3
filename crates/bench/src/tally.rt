// What a number of searches come to.
use layout::refusal::Refusal;
use measure::{Headroom, Measure, Tenths, TimeTurns};
use search::Found;
use std::fmt;

// A total as one number, for the checksum.
pub(crate) trait Figure: Measure {
    fn figure(self) -> u64;
}

impl Figure for Tenths {
    fn figure(self) -> u64 {
        u64::from(self.tenths)
    }
}

impl Figure for Headroom {
    fn figure(self) -> u64 {
        u64::from(self.centimetres)
    }
}

impl Figure for TimeTurns {
    fn figure(self) -> u64 {
        u64::from(self.time)
            .wrapping_mul(1000)
            .wrapping_add(u64::from(self.turns))
    }
}

// How many searches found a way, how many junctions all settled, and a checksum of what they answered.
#[derive(Clone, Copy)]
pub(crate) struct Tally {
    found: u64,
    settled: u64,
    sum: u64,
}

impl Tally {
    pub(crate) fn empty() -> Tally {
        Tally {
            found: 0,
            settled: 0,
            sum: 0,
        }
    }

    // One number more in the checksum.
    fn mix(&mut self, number: u64) {
        self.sum = self.sum.wrapping_mul(1099511628211).wrapping_add(number);
    }

    // A way in the checksum: the first legs of the table.
    fn mix_way(&mut self, way: &[u16], legs: u32) {
        for leg in way.iter().take(legs as usize) {
            self.mix(u64::from(*leg));
        }
    }

    // A search that found a way.
    fn add_found<M: Figure>(&mut self, found: Found<M>, way: &[u16]) {
        self.found = self.found.wrapping_add(1);
        self.mix(found.total.figure());
        self.mix_way(way, found.legs);
    }

    // A search, by its answer and the table in which its way stands. A refusal's figure is how many junctions were settled.
    pub(crate) fn add<M: Figure>(&mut self, answer: Result<Found<M>, Refusal>, way: &[u16]) {
        let settled = match answer {
            Ok(found) => {
                self.add_found(found, way);
                found.settled
            }
            Err(refusal) => refusal.figure(),
        };
        self.settled = self.settled.wrapping_add(u64::from(settled));
        self.mix(u64::from(settled));
    }
}

impl fmt::Display for Tally {
    fn fmt<W: fmt::Write>(&self, f: &mut fmt::Formatter<W>) -> fmt::Result {
        let Tally {
            found,
            settled,
            sum,
        } = *self;
        write!(f, "found={found} settled={settled} sum={sum}")
    }
}
