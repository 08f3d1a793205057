// The states that outcomes start from.
ghost use Rattle.std.specs.Prelude.{List, Option, ◌≡◌};
ghost use Rattle.json_text.specs.Bytes.{is_one_of};
ghost use Rattle.json_text.specs.Cursor.{OnText};
ghost use Rattle.json_text.specs.Spans.{text_at};
ghost use Rattle.sheet.specs.Accepted.{EachGives, Gives, Known, MayGive};
ghost use Rattle.members.specs.Condition.{Condition, condition};
ghost use Rattle.members.specs.Outcome.{Effect, Outcome, a_move, an_effect, an_outcome, or_stays};
ghost use Rattle.answers.specs.Admission.{is_source, sources};
ghost use Rattle.rules.specs.Given.{SourcesAt};

use crate::outcomes::members_at;
use crate::texts::is_one_of;
use members::member::named;
use sheet::outcome::move_members;
use strings::rows::{Elements, Kind, after_at, kind_at};

// The node of the texts that a move starts from.
fn of_move(s: &[u8], work: &[u32], node: usize) -> Option<usize>
    requires { Known (Gives a_move s.now work.now node) }
    ensures { (f : Effect) → Gives a_move s.now work.now node f → SourcesAt s.now work.now f result }
{
    let end = after_at(work, node);
    move_members(s, work, node + 1, end).from
}

// The node of the texts that an effect starts from, if it moves.
pub fn of_effect(s: &[u8], work: &[u32], effect: Option<usize>) -> Option<usize>
    requires { Known (MayGive an_effect s.now work.now effect) }
    ensures { (f : Option Effect) → MayGive an_effect s.now work.now effect f → SourcesAt s.now work.now (or_stays f) result }
{
    let n = effect?;
    if kind_at(work, n) == Kind::Text {
        return None;
    }
    let end = after_at(work, n);
    let moves = named(s, work, n + 1, end, b"moves")?;
    of_move(s, work, moves)
}

// Whether an effect starts from the text at a place.
pub fn starts_from(s: &[u8], work: &[u32], effect: Option<usize>, text: usize) -> bool
    requires { Known (MayGive an_effect s.now work.now effect) × OnText s.now text 0 }
    ensures { (f : Option Effect) → MayGive an_effect s.now work.now effect f → result ≡ is_one_of (text_at s.now text) (sources (or_stays f)) }
{
    of_effect(s, work, effect).is_some_and(|n| is_one_of(s, work, n, text))
}

// Whether an outcome from `from` up to `end` starts from the text at a place.
pub fn is_source(s: &[u8], work: &[u32], from: usize, end: usize, text: usize) -> bool
    requires { Known (EachGives (an_outcome condition) s.now work.now from end) × OnText s.now text 0 }
    ensures { (os : List (Outcome Condition)) → EachGives (an_outcome condition) s.now work.now from end os → result ≡ is_source (text_at s.now text) os }
{
    for k in Elements::new(work, from, end) {
        if starts_from(s, work, members_at(s, work, k).effect, text) {
            return true;
        }
    }
    false
}
