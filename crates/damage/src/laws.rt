// The law of damage, stated in specs/Laws.antt. The function does nothing: its promise is the law.
ghost use Rattle.damage.specs.Laws.{Damage};

pub fn damage()
    ensures { Damage }
{}
