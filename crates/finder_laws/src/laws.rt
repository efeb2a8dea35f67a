// The laws of finding a block, stated in specs/Laws.antt. A function here does nothing: its promise is the law.
ghost use Rattle.finder_laws.specs.Laws.{FirstBlock, SentBlock, RaisedLead};

pub fn first_block()
    ensures { FirstBlock }
{}

pub fn sent_block()
    ensures { SentBlock }
{}

pub fn raised_lead()
    ensures { RaisedLead }
{}
