// The shape of conditions: the refusals 10 and 11.
#![tactic(auto)]

pub mod condition;
