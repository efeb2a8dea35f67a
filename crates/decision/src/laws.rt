// The laws of the decision, stated in specs/Laws.antt. A function here does nothing: its promise is the law.
ghost use Rattle.decision.specs.Laws.{Decision, Parity};

pub fn decision()
    ensures { Decision }
{}

pub fn parity()
    ensures { Parity }
{}
