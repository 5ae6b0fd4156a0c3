ghost use Rattle.std.specs.Prelude.{◌≡◌, true};
ghost use Rattle.layout.specs.Limits.{within, most_junctions, metres_fit, class_fits, clearance_fits};

// A sorter loop: its junctions one after the other in a ring, and the same metres, class and clearance for every leg.
#[derive(Clone, Copy)]
pub struct SorterLoop {
    pub(crate) junctions: u32,
    pub(crate) metres: u32,
    pub(crate) class: u32,
    pub(crate) clearance: u32,
    ghost size: { within 2 most_junctions junctions ≡ true },
    ghost span: { metres_fit metres ≡ true },
    ghost drive: { class_fits class ≡ true },
    ghost height: { clearance_fits clearance ≡ true },
}
