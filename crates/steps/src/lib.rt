// The steps of the walk over a file: header, pattern and instrument, each either a value with the next place or a refusal.
#![tactic(auto)]

pub mod header;
pub mod instrument;
pub mod kind;
pub mod pattern;
