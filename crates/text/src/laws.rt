// The laws of text, stated in specs/Laws.antt. A function here does nothing: its promise is the law.
ghost use Rattle.text.specs.Laws.{Numbers, SignedNumbers};

pub fn numbers()
    ensures { Numbers }
{}

pub fn signed_numbers()
    ensures { SignedNumbers }
{}
