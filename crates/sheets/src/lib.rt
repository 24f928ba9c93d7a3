// Sheets: the way by which a right came, written down line by line, and the check of one.
#![tactic(auto)]

pub mod checking;
pub(crate) mod judging;
pub mod laws;
pub mod line;
pub mod memory;
pub mod reading;
pub(crate) mod steps;
