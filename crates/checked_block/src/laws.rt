// The law of checked blocks, stated in specs/Laws.antt. The function does nothing: its promise is the law.
ghost use Rattle.checked_block.specs.Laws.{InRange};

pub fn in_range()
    ensures { InRange }
{}
