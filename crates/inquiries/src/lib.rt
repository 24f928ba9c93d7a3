// What a house is told that asks at a gate without a sheet: its sheet, or the days on which it may.
#![tactic(auto)]

mod changes;
pub mod days;
pub mod sheet;
pub mod spans;
