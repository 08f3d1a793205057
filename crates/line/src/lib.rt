// The line of an answer or a refusal: measured, and then written where it fits. What a call answers is an enum.
#![tactic(auto)]

pub mod emit;
pub mod reply;
