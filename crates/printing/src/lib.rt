// What the program prints: for a call on a sheet, and for the lines of an input. The definitions stand in specs/, the laws in proofs/.
#![tactic(auto)]

pub mod call;
pub mod lines;
