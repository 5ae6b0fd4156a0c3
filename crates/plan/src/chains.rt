ghost use Rattle.std.specs.Prelude.{◌≡◌, ◌<◌, [], ◌∷◌, ◌++◌, length};
ghost use Rattle.layout.specs.Plant.{Next};

use crate::tables::Links;
use std::marker::Model;

// The junctions at one end of the legs, in leg order, and for each junction the chain of its legs in number order.
// kept: a count beside the tables, for the same reason as they.
#[derive(Drop)]
pub struct Chains {
    count: u32,
    links: Links,
}

// Chains are seen as the list of the junctions.
impl Model for Chains {
    ghost use Rattle.std.specs.Prelude.{ℕ, List};

    ghost Value = { List ℕ };

    ghost use Rattle.plan.specs.Chained.{ends_of, Chained};

    ghost view = { ends_of };

    ghost invariant = { Chained };
}

impl Chains {
    // No leg at any junction.
    pub(crate) fn empty() -> Chains
        ensures { result ≡ [] }
    {
        Chains {
            count: 0,
            links: Links {
                ends: [0; 512],
                first: [None; 256],
                last: [None; 256],
                next: [None; 512],
            },
        }
    }

    // One leg more, of the next number, at a junction.
    pub(crate) fn push(&mut self, junction: u32)
        requires { (junction < 256) × (length self.old < 512) }
        ensures { self.new ≡ self.old ++ (junction ∷ []) }
    {
        let leg = self.count;
        match self.links.last[junction as usize] {
            Some(before) => self.links.next[before as usize] = Some(leg),
            None => self.links.first[junction as usize] = Some(leg),
        }
        self.links.last[junction as usize] = Some(leg);
        self.links.next[leg as usize] = None;
        self.links.ends[leg as usize] = junction;
        self.count = leg + 1;
    }

    // The least leg of a junction that is not below a number: at once where the leg before is of the same chain.
    pub(crate) fn from(&self, junction: u32, from: u32) -> Option<u32>
        ensures { Next self.now junction from result }
    {
        if 0 < from && from <= self.count && self.links.ends[from as usize - 1] == junction {
            return self.links.next[from as usize - 1];
        }
        self.seek(junction, from)
    }

    // The same, along the junction's chain from its first leg.
    // kept: `successors(..).find(..)` would hide that the chain ends, which is what the loop's measure shows.
    fn seek(&self, junction: u32, from: u32) -> Option<u32>
        ensures { Next self.now junction from result }
    {
        let mut at = self.links.first.get(junction as usize).copied().flatten();
        while let Some(leg) = at {
            if leg >= from {
                return at;
            }
            at = self.links.next[leg as usize];
        }
        None
    }
}
