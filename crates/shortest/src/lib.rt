// Stored cells in their shortest form: pressed again.
#![tactic(auto)]

pub mod stored;
