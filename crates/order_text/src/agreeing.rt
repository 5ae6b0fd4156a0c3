// What the contract of `read_order` fixes.
ghost use Rattle.order_text.specs.Orders.{OrdersAgree, AnswersAgree};

// A line writes one order at most, and has one answer: its bytes and its number decide what `read_order` answers.
pub fn orders_agree()
    ensures orders { OrdersAgree }
    ensures answers { AnswersAgree }
{}
