// The laws of a message, stated in specs/Laws.antt. A function here does nothing: its promise is the law.
ghost use Rattle.message_demands.specs.Laws.{BlockTones, NoMark, RoundTrip, Clean, BlocksHeard, Clear, OddLeads, RaisedLead};

pub fn block_tones()
    ensures { BlockTones }
{}

pub fn no_mark()
    ensures { NoMark }
{}

pub fn round_trip()
    ensures { RoundTrip }
{}

pub fn clean()
    ensures { Clean }
{}

pub fn blocks_heard()
    ensures { BlocksHeard }
{}

pub fn clear()
    ensures { Clear }
{}

pub fn odd_leads()
    ensures { OddLeads }
{}

pub fn raised_lead()
    ensures { RaisedLead }
{}
