// A leg's ends and figures, as they are entered: the junctions that it leaves and reaches, its length in metres, its drive class,
// its clearance in centimetres and its turn figure.
#[derive(Clone, Copy, Default, PartialEq, Eq, Debug)]
pub struct Belt {
    pub tail: u32,
    pub head: u32,
    pub metres: u32,
    pub class: u32,
    pub clearance: u32,
    pub turn: u32,
}
