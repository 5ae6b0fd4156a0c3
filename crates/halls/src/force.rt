ghost use Rattle.std.specs.Prelude.{◌≡◌, length};
ghost use Rattle.layout.specs.Limits.{most_halls};

use marks::words::Marks;

// Which halls are in force: a sign for each. A hall that is not in force is lapsed.
#[derive(Drop)]
pub struct Force {
    pub(crate) on: [bool; 32],
    ghost all: { length on ≡ most_halls },
}

// The marks of all halls, and which halls are in force.
#[derive(Drop)]
pub struct HallMarks {
    pub marks: Marks,
    pub force: Force,
}

// Which halls an order strikes; those of them that are in force lapse.
#[derive(Clone, Copy, PartialEq, Eq, Debug)]
pub enum Strikes {
    // no hall
    None,
    // the halls for which this leg is marked
    Marking(u32),
    // every hall
    Every,
}
