// The laws of a delivery, stated in specs/Laws.antt. A function here does nothing: its promise is the law.
ghost use Rattle.delivery.specs.Laws.{TextEnd, Answers};

pub fn text_end()
    ensures { TextEnd }
{}

pub fn answers()
    ensures { Answers }
{}
