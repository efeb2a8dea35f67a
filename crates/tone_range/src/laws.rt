// The law of the range check, stated in specs/Laws.antt. The function does nothing: its promise is the law.
ghost use Rattle.tone_range.specs.Laws.{Stops};

pub fn stops()
    ensures { Stops }
{}
