// The members of every object by ascending name, found once for a sheet: links behind the rows of its table. The definitions stand in json_text/specs (Links), the laws in proofs/.
#![tactic(auto)]

mod links;
pub mod order;
pub mod sort;
