// The calls on a sheet.
#![tactic(auto)]

// Which of the six a call is; admission is of the outcome at a place.
#[derive(Clone, Copy, PartialEq, Eq)]
pub enum Call {
    Evaluate,
    Preconditions,
    Invariants,
    Select,
    Admit(usize),
    Decide,
}
