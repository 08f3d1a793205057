// The answers and refusals of the calls on a sheet that was read, with their texts by place and node.
ghost use Rattle.std.specs.Prelude.{◌≡◌};
ghost use Rattle.answers.specs.Line.{false_number, unknown_number};
ghost use Rattle.writer.specs.Meaning.{rules_of};

#[derive(Clone, Copy)]
pub enum Rules {
    Preconditions,
    Invariants,
}

impl Rules {
    // The number of a rule of these that is False.
    pub fn false_number(self) -> usize
        ensures { result ≡ false_number (rules_of self) }
    {
        match self {
            Rules::Preconditions => 15,
            Rules::Invariants => 17,
        }
    }

    // The number of one that is Unknown.
    pub fn unknown_number(self) -> usize
        ensures { result ≡ unknown_number (rules_of self) }
    {
        self.false_number() + 1
    }
}

#[derive(Clone, Copy)]
pub struct Rule {
    pub rules: Rules,
    pub place: usize,
    pub name: Option<usize>,
    pub message: Option<usize>,
}

#[derive(Clone, Copy)]
pub struct Outcome {
    pub place: usize,
    pub name: usize,
}

// A move that does not start from the state: `from` is the node of its sources.
#[derive(Clone, Copy)]
pub struct Move {
    pub outcome: Outcome,
    pub state: usize,
    pub from: usize,
}

// The names of a truth, a rule or a guard are the marked nodes of the table.
// No Result: a line is made of a refusal as of a verdict.
#[derive(Clone, Copy)]
pub enum Answer {
    True,
    False,
    Unknown,
    Passed,
    Selected(Outcome),
    Admitted(Outcome),
    NoInput,
    UnknownExpression(usize),
    NoId,
    RuleFalse(Rule),
    RuleUnknown(Rule),
    NoOutcome,
    GuardUnknown(Outcome),
    WrongState(usize),
    NotASource(Move),
}
