// What a line is that `reader` reads byte by byte, said of the whole line: a law, and no code.
#![tactic(auto)]

pub mod laws;
