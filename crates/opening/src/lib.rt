// A work table made ready: the sheet read, its shape checked and its members put in order; and the table zeroed again.
#![tactic(auto)]

pub mod open;
pub mod work;
