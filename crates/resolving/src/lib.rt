// Operands resolved without copies: expressions looked up, written arrays and objects part by part.
#![tactic(auto)]

pub mod layer;
pub mod reach;
pub mod resolve;
