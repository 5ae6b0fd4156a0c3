// The tables of a draft.
use layout::belt::Belt;

// The hall of each junction and each leg as they were entered. Places past the counts are not in use.
// kept: a plain struct of tables of a fixed size, as the customer asks; the library allocates nothing.
#[derive(Drop)]
pub struct DraftTables {
    pub(crate) places: [u32; 256],
    pub(crate) belts: [Belt; 512],
}

// The junction at one end of each leg, and the chain of legs at each junction: the first leg, the last one, and after each leg the next.
// kept: links are leg numbers in tables of a fixed size, for the same reason.
#[derive(Drop)]
pub struct Links {
    pub(crate) ends: [u32; 512],
    pub(crate) first: [Option<u32>; 256],
    pub(crate) last: [Option<u32>; 256],
    pub(crate) next: [Option<u32>; 512],
}
