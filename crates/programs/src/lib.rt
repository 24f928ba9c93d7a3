// What the programs share, and what each of them does.
// The runtime goes to each function that reads or prints, beside the name it tells: of a program, or of one file after the other.
#![tactic(auto)]

pub mod arguments;
pub mod ending;
pub mod files;
pub mod find_program;
pub mod gate_program;
mod places;
mod requests;
mod taking;
mod telling;
pub mod until_program;
