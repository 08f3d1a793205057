// Members of an object by name, and the kinds of values that a sheet asks for; the definitions of the sheet, its rules, outcomes and conditions.
#![tactic(auto)]

pub mod kinds;
pub mod member;
pub mod told;
pub mod word;
