// Numbers and bytes in lent slices: read where they stand, and written at the front of a lent part.
#![tactic(auto)]

pub mod number;
pub mod read;
pub mod write;

pub use number::Number;
