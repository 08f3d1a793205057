// Values without parts, brackets, and the names of members: each gets its row; a repeated name is refused.
#![tactic(auto)]

pub mod bracket;
pub mod leaf;
pub mod names;
