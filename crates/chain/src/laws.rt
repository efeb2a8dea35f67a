// The laws of the chain, stated in specs/Laws.antt. A function here does nothing: its promise is the law.
ghost use Rattle.chain.specs.Laws.{GrayCode, Interleaver};

pub fn gray_code()
    ensures { GrayCode }
{}

pub fn interleaver()
    ensures { Interleaver }
{}
