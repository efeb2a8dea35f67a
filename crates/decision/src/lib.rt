// What the decision on one character is: document 01, "Hearing a block", and order 5. Its rules are in specs/Decision.antt.
#![tactic(auto)]

pub mod laws;

// A decided character: its 7-bit code, and document 01's lead, the decision's margin over its nearest rival; then why, the word that won
// and the word that came next, each with its signed correlation.
#[derive(Clone, Copy)]
pub struct Character {
    pub code: u8,
    pub lead: u32,
    pub word: u32,
    pub correlation: i32,
    pub next: u32,
    pub next_correlation: i32,
}

// What stands where no character is decided: an answer has eight characters, as C gets them, and no count of them beside it.
pub const NONE: Character = Character {
    code: 0,
    lead: 0,
    word: 0,
    correlation: 0,
    next: 0,
    next_correlation: 0,
};
