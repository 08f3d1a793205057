// What a call answers, a case for each number, with the length of the line where there is one.
ghost use Rattle.std.specs.Prelude.{◌≡◌, ◌≤◌};
ghost use Rattle.line.specs.Replies.{length_of, number_of};

// No Result: refusals have a line too, 13 to 22, and 1 to 12 and 23 have none.
#[derive(Clone, Copy, PartialEq, Eq)]
pub enum Reply {
    Line(usize),
    WorkTooSmall,
    TooLong,
    NotUtf8,
    NotJson,
    TooDeep,
    NumberTooLong,
    TooManyNodes,
    RepeatedName,
    WrongSheet,
    WrongShape,
    NotCarried,
    NoInput,
    UnknownExpression(usize),
    NoId(usize),
    PreconditionFalse(usize),
    PreconditionUnknown(usize),
    InvariantFalse(usize),
    InvariantUnknown(usize),
    NoOutcome(usize),
    GuardUnknown(usize),
    WrongState(usize),
    NotASource(usize),
    LineTooLong,
}

impl Reply {
    // The paper's number, 0 where nothing is refused.
    #[tactic(auto, unfolding(crate::specs::Replies::number_of))]
    pub fn number(self) -> usize
        ensures value { result ≡ number_of self }
        ensures upper_bound { result ≤ 23 }
    {
        match self {
            Reply::Line(_) => 0,
            Reply::WorkTooSmall => 1,
            Reply::TooLong => 2,
            Reply::NotUtf8 => 3,
            Reply::NotJson => 4,
            Reply::TooDeep => 5,
            Reply::NumberTooLong => 6,
            Reply::TooManyNodes => 7,
            Reply::RepeatedName => 8,
            Reply::WrongSheet => 9,
            Reply::WrongShape => 10,
            Reply::NotCarried => 11,
            Reply::NoInput => 12,
            Reply::UnknownExpression(_) => 13,
            Reply::NoId(_) => 14,
            Reply::PreconditionFalse(_) => 15,
            Reply::PreconditionUnknown(_) => 16,
            Reply::InvariantFalse(_) => 17,
            Reply::InvariantUnknown(_) => 18,
            Reply::NoOutcome(_) => 19,
            Reply::GuardUnknown(_) => 20,
            Reply::WrongState(_) => 21,
            Reply::NotASource(_) => 22,
            Reply::LineTooLong => 23,
        }
    }

    // The bytes of the line, with its LF, where there is one.
    #[tactic(auto, unfolding(crate::specs::Replies::length_of))]
    pub fn size(self) -> Option<usize>
        ensures { result ≡ length_of self }
    {
        match self {
            Reply::Line(size)
            | Reply::UnknownExpression(size)
            | Reply::NoId(size)
            | Reply::PreconditionFalse(size)
            | Reply::PreconditionUnknown(size)
            | Reply::InvariantFalse(size)
            | Reply::InvariantUnknown(size)
            | Reply::NoOutcome(size)
            | Reply::GuardUnknown(size)
            | Reply::WrongState(size)
            | Reply::NotASource(size) => Some(size),
            _ => None,
        }
    }
}
