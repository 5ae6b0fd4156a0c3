// The figures that stand on a day sheet in place of a leg's own.
#[derive(Clone, Copy)]
pub struct Replaced {
    pub class: u32,
    pub clearance: u32,
}

// What a day sheet has of each leg: the sign that it is shut, and the figures that replace its own.
// kept: a plain struct of two tables of a fixed size, as was asked for; the library allocates nothing.
#[derive(Drop)]
pub struct Sheet {
    pub(crate) shut: [bool; 512],
    pub(crate) replaced: [Option<Replaced>; 512],
}
