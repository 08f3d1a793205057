// Evaluation of conditions over the reader's table. The definitions stand in specs/, the laws in proofs/.
#![tactic(auto)]

pub mod condition;
pub mod evaluate;
