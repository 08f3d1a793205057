// Operands of conditions over the reader's table: binders, paths, equality and the pair forms. The definitions stand in specs/, the laws in proofs/.
#![tactic(auto)]

mod equal;
pub mod holds;
