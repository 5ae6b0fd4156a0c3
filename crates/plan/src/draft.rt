use crate::drawing::Drawing;

// A plan that is being drawn: it takes junctions and legs, one at a time, and is no layout yet.
#[derive(Drop)]
pub struct Draft {
    pub(crate) drawing: Drawing,
}

// A drawn plan: a layout that means what was entered, and takes no more.
#[derive(Drop)]
pub struct Plan {
    pub(crate) drawing: Drawing,
}
