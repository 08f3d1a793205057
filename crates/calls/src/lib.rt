// The calls on an accepted sheet: the first eligible outcome, and what each call answers.
#![tactic(auto)]

pub mod call;
pub mod select;
