// The rows of the tables, by the file: where the instruments and a sample's data stand, and the row of one sample after the other.
#![tactic(auto)]

pub mod accepted;
pub mod place;
pub mod sample;
