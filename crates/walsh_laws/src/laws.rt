// The laws of the Walsh words, stated in specs/Laws.antt. A function here does nothing: its promise is the law.
ghost use Rattle.walsh_laws.specs.Laws.{Orthogonality, Reference, Range};

pub fn orthogonality()
    ensures { Orthogonality }
{}

pub fn reference()
    ensures { Reference }
{}

pub fn range()
    ensures { Range }
{}
