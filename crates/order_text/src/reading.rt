// One order line is read: its key first, and then the values that the key asks for.
ghost use Rattle.std.specs.Prelude.{◌≡◌, ℕ, List, MatchOption};
ghost use Rattle.tokens.specs.Cuts.{Keyed};
ghost use Rattle.tokens.specs.Taken.{left};
ghost use Rattle.order_text.specs.declared.key.OrderKey.{OrderKey as Word};
ghost use Rattle.order_text.specs.declared.order.Order.{Order as Asked};
ghost use Rattle.order_text.specs.Orders.{spelt, Says, ReadsOrder};

use crate::key::OrderKey;
use crate::order::Order;
use layout::refusal::Refusal;
use tokens::{Values, split_key};

// The order that a line's key names, and the line's values.
fn take_key(line: &[u8]) -> Option<(OrderKey, Values)>
    ensures { MatchOption result ((k : Word) (value : List ℕ) → Keyed line.now (spelt k) value → ⊥) (λ found. Keyed line.now (spelt found.0) (left found.1.line)) }
{
    let (word, values) = split_key(line)?;
    Some((OrderKey::named(word)?, values))
}

// The order with that key that the values write.
fn take_values(key: OrderKey, values: Values) -> Option<Order>
    ensures { MatchOption result ((o : Asked) → Says key (left values.entry.line) o → ⊥) (λ o. Says key (left values.entry.line) o) }
{
    // kept: with `map` each of these would be a closure with a contract of its own
    match key {
        OrderKey::Shut => {
            let [leg] = values.numbers::<1>()?;
            Some(Order::Shut { leg })
        }
        OrderKey::Open => {
            let [leg] = values.numbers::<1>()?;
            Some(Order::Open { leg })
        }
        OrderKey::Set => {
            let [leg, class, clearance] = values.numbers::<3>()?;
            Some(Order::Set {
                leg,
                class,
                clearance,
            })
        }
        OrderKey::Renew => {
            let [hall] = values.numbers::<1>()?;
            Some(Order::Renew { hall })
        }
        OrderKey::Route => {
            let [start, goal] = values.numbers::<2>()?;
            Some(Order::Route { start, goal })
        }
    }
}

// The order that a line writes, or why it is refused. The line comes without its end, and `at` is its number.
pub fn read_order(line: &[u8], at: u32) -> Result<Order, Refusal>
    ensures { ReadsOrder line.now at result }
{
    let (key, values) = take_key(line).ok_or(Refusal::NotDue(at))?;
    take_values(key, values).ok_or(Refusal::WrongForm(at))
}
