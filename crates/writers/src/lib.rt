// The parts of a file that is written, each at the front of what remains of the output: its header, a pattern.
#![tactic(auto)]

pub mod header;
pub mod pattern;
