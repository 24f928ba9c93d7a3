// Deliveries: bytes that hold events one after the other, or a request; one taken whole, or many.
#![tactic(auto)]

pub mod receiving;
