// The law of reading, stated in specs/Laws.antt. The function does nothing: its promise is the law.
ghost use Rattle.reader_laws.specs.Laws.{Reading};

pub fn reading()
    ensures { Reading }
{}
