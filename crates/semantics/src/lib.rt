// Truth. What conditions mean stands in specs/, its laws in proofs/.
#![tactic(auto)]

pub mod truth;
