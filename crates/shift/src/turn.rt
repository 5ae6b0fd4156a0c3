use layout::refusal::Refusal;
use order_text::Order;
use search::Found;

// How many places of each table an order is lent; never more than the table has.
#[derive(Clone, Copy)]
pub struct Places {
    pub totals: usize,
    pub came: usize,
    pub waiting: usize,
    pub settled: usize,
    pub way: usize,
}

// What an order was answered.
#[derive(Clone, Copy)]
pub enum Reply<M> {
    // how many halls lapsed
    Lapsed(u32),
    // how many legs renewing marked
    Marked(u32),
    // what a route found
    Found(Found<M>),
    // why it was refused
    Refused(Refusal),
}

// One turn of a shift: what is ordered, with which tables, and once it was carried out the reply.
#[derive(Clone, Copy)]
pub struct Turn<M> {
    pub order: Order,
    pub places: Places,
    pub reply: Option<Reply<M>>,
}
