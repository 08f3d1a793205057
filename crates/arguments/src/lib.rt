// What the program's arguments ask. The first one says it; the second is the place of `admit`; of the others only their number counts.
#![tactic(auto)]

pub mod asked;
mod place;
mod word;
