// The laws of hearing with weights, stated in specs/Laws.antt and specs/Demand.antt. A function here does nothing: its promise is the law.
ghost use Rattle.weighted_demands.specs.Laws.{PlainCase, Silence, WeightedRange, WeightedClear};
ghost use Rattle.weighted_demands.specs.Demand.{WeightedDemand3};

pub fn plain_case()
    ensures { PlainCase }
{}

pub fn silence()
    ensures { Silence }
{}

pub fn weighted_range()
    ensures { WeightedRange }
{}

pub fn weighted_clear()
    ensures { WeightedClear }
{}

pub fn weighted_demand3()
    ensures { WeightedDemand3 }
{}
