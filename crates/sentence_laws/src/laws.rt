// The laws of sentences, stated in specs/Laws.antt. A function here does nothing: its promise is the law.
ghost use Rattle.sentence_laws.specs.Laws.{Distinct, Reading, ReadBack, RoundTrip, Form};

pub fn distinct()
    ensures { Distinct }
{}

pub fn reading()
    ensures { Reading }
{}

pub fn read_back()
    ensures { ReadBack }
{}

pub fn round_trip()
    ensures { RoundTrip }
{}

pub fn form()
    ensures { Form }
{}
