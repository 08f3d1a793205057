// The bracketed form of each answer and refusal.
#![tactic(auto)]

pub mod form;
