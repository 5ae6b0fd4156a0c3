use halls::force::HallMarks;
use layers::day::DaySheet;
use std::marker::PhantomData;

// A router: a layout that was commissioned for a measure, with the day sheet over it and the marks of its halls.
#[derive(Drop)]
pub struct Router<L, M> {
    pub(crate) sheet: DaySheet<L>,
    pub(crate) halls: HallMarks,
    pub(crate) measure: PhantomData<M>,
}
