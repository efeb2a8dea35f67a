// The laws of the listing. Each function does nothing: its promise is the law.
ghost use Rattle.listing_laws.specs.Laws.{Whole, Live, Stops, Example};

// A listing printed piece by piece is what is defined of the whole input.
pub fn whole()
    ensures { Whole }
{}

// A live feed is listed line by line, as its lines come.
pub fn live()
    ensures { Live }
{}

// A listing stops at the input's end, and says nothing after it has stopped.
pub fn stops()
    ensures { Stops }
{}

// The definitions give document 01's example.
pub fn example()
    ensures { Example }
{}
