// Finding a sheet: rounds of certificates' turns, and of the lines those that are needed.
#![tactic(auto)]

pub mod growing;
pub(crate) mod kept_lines;
pub(crate) mod lasting;
pub mod laws;
pub(crate) mod refusals;
pub(crate) mod searching;
pub mod sheets_found;
pub(crate) mod wanted;
pub(crate) mod writing;
