// The law of scaling, stated in specs/Laws.antt. The function does nothing: its promise is the law.
ghost use Rattle.scaling.specs.Laws.{Scaling};

pub fn scaling()
    ensures { Scaling }
{}
