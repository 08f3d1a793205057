// `exists` and the pair forms of two resolved operands.
#![tactic(auto)]

pub mod comparison;
