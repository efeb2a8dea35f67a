// What a listing is, of the whole input: document 01, "The listing program". Laws over the states of `listing`.
#![tactic(auto)]

pub mod laws;
