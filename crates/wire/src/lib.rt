// The bytes that come to a gate: faults, events, and how events are read.
#![tactic(auto)]

pub mod events;
pub mod faults;
pub mod laws;
pub mod numbers;
pub mod places;
pub mod reading;
