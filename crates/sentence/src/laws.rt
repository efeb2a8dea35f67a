// The condition on the list of sentences, computed. The function does nothing: its promise is the condition.
ghost use Rattle.std.specs.Prelude.{◌≡◌, true};
ghost use Rattle.sentence.specs.Sentences.{sentences};
ghost use Rattle.sentence.specs.Condition.{are_sound};

pub fn sound()
    ensures { are_sound sentences ≡ true }
{}
