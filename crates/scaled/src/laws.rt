// The laws of these numbers, stated in specs/Laws.antt. A function here does nothing: its promise is the law.
ghost use Rattle.scaled.specs.Laws.{Exact, Steps};

pub fn exact()
    ensures { Exact }
{}

pub fn steps()
    ensures { Steps }
{}
