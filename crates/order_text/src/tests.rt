// Order lines with their answers.
use crate::order::Order;
use crate::reading::read_order;
use layout::refusal::Refusal;

// Lines with the key of an order, and values of the wrong form or count.
const MISSHAPEN: [&[u8]; 15] = [
    b"shut=",
    b"shut=07",
    b"shut=100000",
    b"shut=a",
    b"shut=1a",
    b"shut=1,2",
    b"shut=1=2",
    b"open=-1",
    b"set=3,4",
    b"set=3,,60",
    b"set=3,4,60,0",
    b"renew= 1",
    b"route=0",
    b"route=0,",
    b"route=0,1,2",
];

// Lines without the key of an order.
const NO_ORDERS: [&[u8]; 9] = [
    b"", b"=", b"=1", b"shut", b"Shut=1", b"shut =1", b"shutt=1", b"sh=1", b"plan=1",
];

#[test]
fn orders(rt: HostRuntime) {
    assert_eq!(rt; read_order(b"shut=0", 8), Ok(Order::Shut { leg: 0 }));
    assert_eq!(rt;
        read_order(b"open=99999", 8),
        Ok(Order::Open { leg: 99_999 })
    );
    assert_eq!(rt; read_order(b"renew=2", 8), Ok(Order::Renew { hall: 2 }));
    assert_eq!(rt;
        read_order(b"route=4,1", 8),
        Ok(Order::Route { start: 4, goal: 1 })
    );
    let set = Order::Set {
        leg: 3,
        class: 2,
        clearance: 60,
    };
    assert_eq!(rt; read_order(b"set=3,2,60", 8), Ok(set));
}

#[test]
fn misshapen(rt: HostRuntime) {
    for line in MISSHAPEN {
        assert_eq!(rt; read_order(line, 9), Err(Refusal::WrongForm(9)));
    }
}

#[test]
fn no_orders(rt: HostRuntime) {
    for line in NO_ORDERS {
        assert_eq!(rt; read_order(line, 9), Err(Refusal::NotDue(9)));
    }
}
