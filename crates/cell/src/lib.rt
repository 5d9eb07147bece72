// One cell, read from its stored form and written in its shortest one; and the numbers of a pattern of cells.
#![tactic(auto)]

pub mod pattern;
pub mod read;
pub mod write;
