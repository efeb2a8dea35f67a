// The laws of a band, stated in specs/Laws.antt. A function here does nothing: its promise is the law.
ghost use Rattle.band.specs.Laws.{Fractions, Tuning};

pub fn fractions()
    ensures { Fractions }
{}

pub fn tuning()
    ensures { Tuning }
{}
