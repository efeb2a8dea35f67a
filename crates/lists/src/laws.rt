// The law of the vocabulary, stated in specs/Laws.antt. The function does nothing: its promise is the law.
ghost use Rattle.lists.specs.Laws.{FirstPlace};

pub fn first_place()
    ensures { FirstPlace }
{}
