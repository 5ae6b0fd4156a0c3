// A place of a queue's memory: a number, and the total with which it waits.
#[derive(Clone, Copy)]
pub struct Slot<M> {
    pub total: M,
    pub number: u16,
}
