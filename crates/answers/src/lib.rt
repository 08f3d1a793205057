// What each call answers, from the bytes of a sheet to the line: definitions, and the theorems of the three demands. No code.
#![tactic(auto)]
