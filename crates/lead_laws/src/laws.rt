// The law of raising the set lead, stated in specs/Laws.antt. The function does nothing: its promise is the law.
ghost use Rattle.lead_laws.specs.Laws.{RaisedLead};

pub fn raised_lead()
    ensures { RaisedLead }
{}
