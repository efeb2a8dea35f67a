// The laws of a block, stated in specs/Laws.antt and specs/Demand.antt. A function here does nothing: its promise is the law.
ghost use Rattle.demands.specs.Laws.{NoMark, RoundTrip, Range, Clean, Clear, OddLeads};
ghost use Rattle.demands.specs.Demand.{Demand3};

pub fn no_mark()
    ensures { NoMark }
{}

pub fn round_trip()
    ensures { RoundTrip }
{}

pub fn range()
    ensures { Range }
{}

pub fn clean()
    ensures { Clean }
{}

pub fn clear()
    ensures { Clear }
{}

pub fn odd_leads()
    ensures { OddLeads }
{}

pub fn demand3()
    ensures { Demand3 }
{}
