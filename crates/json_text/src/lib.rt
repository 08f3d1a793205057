// What JSON is (RFC 8259), how a text becomes a tree within the limits, and which refusal it shows first: definitions and their theorems, no code.
#![tactic(auto)]
