ghost use Rattle.layers.specs.Day.{Wide, Fit};

use crate::sheet::Sheet;

// The day sheet over a layout: legs are shut and opened on it, and their class and clearance replaced, while the layout below stays as it is.
#[derive(Drop)]
pub struct DaySheet<L> {
    pub(crate) below: L,
    pub(crate) sheet: Sheet,
    ghost wide: { Wide sheet },
    ghost fit: { Fit sheet },
}
