// The six calls on any bytes. The definitions stand in specs/, the laws in proofs/, the third demand of any two calls of Decide in proofs/Twofold.antt.
#![tactic(auto)]

pub mod call;
