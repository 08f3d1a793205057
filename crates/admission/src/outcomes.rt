// Outcomes by their places.
ghost use Rattle.std.specs.Prelude.{List};
ghost use Rattle.json_text.specs.Bytes.{Bytes};
ghost use Rattle.sheet.specs.Accepted.{EachGives, Gives, Known, OutcomeGives};
ghost use Rattle.members.specs.Condition.{Condition, condition};
ghost use Rattle.members.specs.Outcome.{Outcome, an_outcome};
ghost use Rattle.answers.specs.Outcomes.{at, first_from};
ghost use Rattle.admission.specs.Places.{PlacedAt};

use crate::eligible::is_true;
use rules::placed::Placed;
use sheet::outcome::{OutcomeMembers, members};
use strings::rows::{Elements, after_at};

// The members of the outcome at a node.
pub fn members_at(s: &[u8], work: &[u32], node: usize) -> OutcomeMembers
    requires { Known (Gives (an_outcome condition) s.now work.now node) }
    ensures { (o : Outcome Condition) → Gives (an_outcome condition) s.now work.now node o → OutcomeGives s.now work.now result o }
{
    let end = after_at(work, node);
    members(s, work, node + 1, end)
}

// The outcome at a place, of those from `from` up to `end`.
pub fn outcome_at(work: &[u32], from: usize, end: usize, place: usize) -> Option<Placed>
    requires { Known (λ (s : Bytes). Known (EachGives (an_outcome condition) s work.now from end)) }
    ensures { (s : Bytes) (os : List (Outcome Condition)) → EachGives (an_outcome condition) s work.now from end os → PlacedAt s work.now (at 0 place os) result }
{
    let node = Elements::new(work, from, end).nth(place)?;
    Some(Placed { place, node })
}

// The first outcome for the wrong state, of those from `from` up to `end`. Not one walk with `is_source` and `is_among`, to which a test is passed: its
// contract would have to say of any test what each of the walks says of its own.
pub fn first_wrong(s: &[u8], work: &[u32], from: usize, end: usize) -> Option<Placed>
    requires { Known (EachGives (an_outcome condition) s.now work.now from end) }
    ensures { (os : List (Outcome Condition)) → EachGives (an_outcome condition) s.now work.now from end os → PlacedAt s.now work.now (first_from (λ o. o.wrong_state) 0 os) result }
{
    for (place, node) in Elements::new(work, from, end).enumerate() {
        if is_true(work, members_at(s, work, node).wrong_state) {
            return Some(Placed { place, node });
        }
    }
    None
}
