// Outcomes by place: which are eligible, where they start from, and whether the state admits one.
#![tactic(auto)]

pub mod admit;
pub mod eligible;
pub mod outcomes;
pub mod sources;
pub mod texts;
