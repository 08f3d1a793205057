// The answers, and the output that their lines are put into: bytes, digits, quoted texts and lists, or only counted where there is no room.
#![tactic(auto)]

pub mod answer;
pub mod lay;
pub mod names;
pub mod quote;
pub mod sources;
