// Document 01's bench sheet: its starred cases as one statement about the definitions, specs/Sheet.antt.
#![tactic(auto)]

ghost use Rattle.bench_sheet.specs.Sheet.{Starred};

// Does nothing: its promise is that every row holds.
pub fn starred()
    ensures { Starred }
{}
