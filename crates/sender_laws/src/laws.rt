// The laws of a sender, stated in specs/Laws.antt. A function here does nothing: its promise is the law.
ghost use Rattle.sender_laws.specs.Laws.{Conserved, Room, Fair, Reserved, Own, InOrder, NoneOnly, Unchanged, SentWhole};

pub fn conserved()
    ensures { Conserved }
{}

pub fn room()
    ensures { Room }
{}

pub fn fair()
    ensures { Fair }
{}

pub fn reserved()
    ensures { Reserved }
{}

pub fn own()
    ensures { Own }
{}

pub fn in_order()
    ensures { InOrder }
{}

pub fn none_only()
    ensures { NoneOnly }
{}

pub fn unchanged()
    ensures { Unchanged }
{}

pub fn sent_whole()
    ensures { SentWhole }
{}
