// White space, words, strings and numbers: where each ends, and the refusal that it shows.
#![tactic(auto)]

pub mod numeral;
pub mod scan;
