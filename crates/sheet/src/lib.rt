// The sheet's shape: the refusals 9, 10 and 11, over the reader's table. The definitions stand in specs/, the laws in proofs/.
#![tactic(auto)]

pub mod outcome;
pub mod rule;
pub mod shape;
pub mod sheet;
pub mod written;
