// The figures of a leg, a one-way belt, that a measure may weigh. Any numbers can stand here, also those of no leg.
#[derive(Clone, Copy, PartialEq, Eq, Debug)]
pub struct Figures {
    // The belt's length.
    pub metres: u32,
    // The drive class, which fixes the pace; a leg has 0 to 7.
    pub class: u32,
    // How high a tote may be, in centimetres.
    pub clearance: u32,
    // 1 where the belt turns the tote, else 0.
    pub turn: u32,
}
