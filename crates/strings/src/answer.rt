// What reading answers.
ghost use Rattle.std.specs.Prelude.{◌≡◌};
ghost use Rattle.strings.specs.Answers.{number_of};

// The refusals of reading, each with its number.
#[derive(Clone, Copy, PartialEq, Eq)]
pub enum Refusal {
    WorkTooSmall = 1,
    TooLong,
    NotUtf8,
    NotJson,
    TooDeep,
    NumberTooLong,
    TooManyNodes,
    RepeatedName,
}

impl Refusal {
    // Its number, 1 to 8.
    pub fn number(self) -> usize
        ensures { result ≡ number_of self }
    {
        self as usize
    }
}

// The place behind a value that was read, and the nodes in use then.
#[derive(Clone, Copy)]
pub struct Place {
    pub at: usize,
    pub node: usize,
}
