// Rules by place: each condition evaluated over cleared marks, up to the first that is not True.
#![tactic(auto)]

pub mod alone;
pub mod marks;
pub mod placed;
pub mod rules;
