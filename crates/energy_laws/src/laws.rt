// The laws of a block's energies, stated in specs/Laws.antt. A function here does nothing: its promise is the law.
ghost use Rattle.energy_laws.specs.Laws.{Energy, Majority};

pub fn energy()
    ensures { Energy }
{}

pub fn majority()
    ensures { Majority }
{}
