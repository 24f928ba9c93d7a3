// What a gate does, over lists of bytes, and what is promised of it: heads of requests, answers, the promise of the whole.
#![tactic(auto)]

pub mod answers;
pub mod heads;
pub mod laws;
