// UTF-8, escapes, and texts of the sheet decoded as they are read; the rows of the node table.
#![tactic(auto)]

pub mod answer;
pub mod escape;
pub mod rows;
pub mod text;
pub mod utf8;
