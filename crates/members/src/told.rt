// Types that say what a condition is: its operator by cases, and what can be wrong with it. They stand here because the check of a sheet's shape
// and the evaluation both use them.

// How the truths of several conditions become one: every one of them has to hold (`all`, `for_all`), or any one (`any`, `for_any`).
#[derive(Clone, Copy, PartialEq, Eq)]
pub enum Mode {
    Every,
    Any,
}

// The operators that compare two operands, each by its name in a sheet.
#[derive(Clone, Copy, PartialEq, Eq)]
pub enum Form {
    Eq,
    Ne,
    Gt,
    Gte,
    Lt,
    Lte,
    In,
    Contains,
    StartsWith,
    EndsWith,
}

// What a condition does, which the name of its one member says. Names that differ in mode or form alone share a case, and those that are known
// but not evaluated here share `NotCarried`. A name that is none of these has no operator.
#[derive(Clone, Copy, PartialEq, Eq)]
pub enum Operator {
    Junction(Mode),
    Negation,
    Exists,
    Pair(Form),
    Quantified(Mode),
    NotCarried,
}

// What is wrong with a condition: it is not written as one (refusal 10), or its operator is known but not evaluated here (refusal 11).
#[derive(Clone, Copy, PartialEq, Eq)]
pub enum Fault {
    Shape,
    NotCarried,
}
