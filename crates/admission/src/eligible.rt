// Which outcomes are eligible in a state.
ghost use Rattle.std.specs.Prelude.{Bool, Option, ◌≡◌};
ghost use Rattle.json_text.specs.Bytes.{Bytes};
ghost use Rattle.sheet.specs.Accepted.{Known, MayGive, OutcomeGives};
ghost use Rattle.members.specs.Condition.{Condition};
ghost use Rattle.members.specs.Kinds.{a_bool, a_text};
ghost use Rattle.members.specs.Outcome.{Outcome, or_false};
ghost use Rattle.answers.specs.Outcomes.{eligible, fits};

use sheet::outcome::OutcomeMembers;
use strings::rows::{Kind, kind_at, start_at};
use strings::text::same;

// Whether a member that may be missing is there and true.
pub fn is_true(work: &[u32], found: Option<usize>) -> bool
    requires { Known (λ (s : Bytes). Known (MayGive a_bool s work.now found)) }
    ensures { (s : Bytes) (b : Option Bool) → MayGive a_bool s work.now found b → result ≡ or_false b }
{
    found.is_some_and(|n| kind_at(work, n) == Kind::True)
}

// Whether an outcome's own state, if it has one, is the state in hand, if there is one.
pub fn fits(s: &[u8], work: &[u32], own: Option<usize>, state: Option<usize>) -> bool
    requires { Known (MayGive a_text s.now work.now own) × Known (MayGive a_text s.now work.now state) }
    ensures { (i t : Option Bytes) → MayGive a_text s.now work.now own i → MayGive a_text s.now work.now state t → result ≡ fits i t }
{
    match (own, state) {
        (Some(m), Some(n)) => same(s, start_at(work, m), start_at(work, n)),
        _ => true,
    }
}

// Whether an outcome is eligible: it is not for the wrong state, and its own state fits the one in hand.
pub fn eligible(s: &[u8], work: &[u32], m: OutcomeMembers, state: Option<usize>) -> bool
    requires { Known (OutcomeGives s.now work.now m) × Known (MayGive a_text s.now work.now state) }
    ensures { (o : Outcome Condition) (t : Option Bytes) → OutcomeGives s.now work.now m o → MayGive a_text s.now work.now state t → result ≡ eligible t o }
{
    !is_true(work, m.wrong_state) && fits(s, work, m.in_state, state)
}
