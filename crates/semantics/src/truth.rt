// Truth values with Kleene's strong connectives.
ghost use Rattle.std.specs.Prelude.{◌≡◌};
ghost use Rattle.semantics.specs.Truth.{and, negate, of_bool, or};
ghost use Rattle.semantics.specs.Told.{truth_of};

#[derive(Clone, Copy, PartialEq, Eq)]
pub enum Truth {
    True,
    False,
    Unknown,
}

impl Truth {
    pub fn and(self, other: Truth) -> Truth
        ensures { truth_of result ≡ and (truth_of self) (truth_of other) }
    {
        match (self, other) {
            (Truth::False, _) | (_, Truth::False) => Truth::False,
            (Truth::True, Truth::True) => Truth::True,
            _ => Truth::Unknown,
        }
    }

    pub fn or(self, other: Truth) -> Truth
        ensures { truth_of result ≡ or (truth_of self) (truth_of other) }
    {
        match (self, other) {
            (Truth::True, _) | (_, Truth::True) => Truth::True,
            (Truth::False, Truth::False) => Truth::False,
            _ => Truth::Unknown,
        }
    }

    pub fn not(self) -> Truth
        ensures { truth_of result ≡ negate (truth_of self) }
    {
        match self {
            Truth::True => Truth::False,
            Truth::False => Truth::True,
            Truth::Unknown => Truth::Unknown,
        }
    }
}

// A truth that is known.
impl From<bool> for Truth {
    fn from(holds: bool) -> Truth
        ensures { truth_of result ≡ of_bool holds }
    {
        if holds { Truth::True } else { Truth::False }
    }
}
