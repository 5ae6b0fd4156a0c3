// The keys of order lines.
ghost use Rattle.std.specs.Prelude.{◌≡◌, MatchOption, ◌≢◌};
ghost use Rattle.order_text.specs.declared.key.OrderKey.{OrderKey as Word};
ghost use Rattle.order_text.specs.Orders.{spelt};

// The orders, by their keys.
#[derive(Clone, Copy)]
pub(crate) enum OrderKey {
    Shut,
    Open,
    Set,
    Renew,
    Route,
}

impl OrderKey {
    // The order that a key names.
    // kept: for a key that only this crate asks for, found or not is all there is to say; a `TryFrom` would add an error type that says no more
    pub(crate) fn named(key: &[u8]) -> Option<OrderKey>
        ensures { MatchOption result ((k : Word) → key.now ≢ spelt k) (λ k. key.now ≡ spelt k) }
    {
        match key {
            b"shut" => Some(OrderKey::Shut),
            b"open" => Some(OrderKey::Open),
            b"set" => Some(OrderKey::Set),
            b"renew" => Some(OrderKey::Renew),
            b"route" => Some(OrderKey::Route),
            _ => None,
        }
    }
}
