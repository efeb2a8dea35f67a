// The laws of this order, stated in specs/Laws.antt. A function here does nothing: its promise is the law.
ghost use Rattle.scaled_order.specs.Laws.{Order, Distance};

pub fn order()
    ensures { Order }
{}

pub fn distance()
    ensures { Distance }
{}
