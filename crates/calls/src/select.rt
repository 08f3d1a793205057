// The outcome that is selected: the first eligible one with no guard or a True one.
ghost use Rattle.std.specs.Prelude.{Option, ◌≤◌, length};
ghost use Rattle.json_text.specs.Refusal.{Result};
ghost use Rattle.semantics.specs.Evaluate as evaluated;
ghost use Rattle.sheet.specs.Accepted.{Accepted, Gives, Known, MayGive};
ghost use Rattle.members.specs.Condition.{Condition, condition};
ghost use Rattle.members.specs.Outcome as all;
ghost use Rattle.members.specs.Outcome.{an_outcome};
ghost use Rattle.members.specs.Sheet.{Sheet};
ghost use Rattle.rules.specs.Alone.{Judged};
ghost use Rattle.answers.specs.Outcomes.{guard, select};
ghost use Rattle.calls.specs.Trying.{Selects, TriedAs, Tries, by_guard, taken};

use admission::admit::entry;
use admission::eligible::eligible;
use admission::outcomes::members_at;
use rules::alone::evaluate_alone;
use rules::placed::Placed;
use semantics::truth::Truth;
use sheet::shape::Members;
use strings::rows::after_at;
use writer::answer::Answer;

// What a guard's truth says of its outcome. The names of an Unknown one are those that are marked.
fn by_truth(s: &[u8], work: &[u32], t: Truth, p: Placed) -> Result<bool, Answer>
    requires { Known (Gives (an_outcome condition) s.now work.now p.node) }
    ensures { (o : all.Outcome Condition) (x : Result evaluated.Answer) → Gives (an_outcome condition) s.now work.now p.node o → Judged s.now work.now x t → TriedAs s.now work.now (by_guard p.place o.name x) result }
{
    match t {
        Truth::True => Ok(true),
        Truth::False => Ok(false),
        Truth::Unknown => Err(Answer::GuardUnknown(entry(s, work, p))),
    }
}

// What a guard says of its outcome; a missing one takes it.
fn try_guard(
    s: &[u8],
    work: &mut [u32],
    m: Members,
    when: Option<usize>,
    p: Placed,
) -> Result<bool, Answer>
    requires { (16384 ≤ length work.old) × Known (Accepted s.now work.old m) × Known (MayGive condition s.now work.old when) × Known (Gives (an_outcome condition) s.now work.old p.node) }
    ensures { (sheet : Sheet Condition) (c : Option Condition) (o : all.Outcome Condition) → Accepted s.now work.old m sheet → MayGive condition s.now work.old when c → Gives (an_outcome condition) s.now work.old p.node o → Tries s.now work.old work.new (by_guard p.place o.name (guard sheet c)) result }
{
    let Some(node) = when else {
        return Ok(true);
    };
    let t = evaluate_alone(s, work, m, node)?;
    by_truth(s, work, t, p)
}

// Whether the outcome at a place is taken.
fn try_outcome(s: &[u8], work: &mut [u32], m: Members, p: Placed) -> Result<bool, Answer>
    requires { (16384 ≤ length work.old) × Known (Accepted s.now work.old m) × Known (Gives (an_outcome condition) s.now work.old p.node) }
    ensures { (sheet : Sheet Condition) (o : all.Outcome Condition) → Accepted s.now work.old m sheet → Gives (an_outcome condition) s.now work.old p.node o → Tries s.now work.old work.new (taken sheet p.place o) result }
{
    let o = members_at(s, work, p.node);
    Ok(eligible(s, work, o, m.state) && try_guard(s, work, m, o.when, p)?)
}

// The outcomes by place, up to the first that is taken.
pub fn select(s: &[u8], work: &mut [u32], m: Members) -> Result<Placed, Answer>
    requires { (16384 ≤ length work.old) × Known (Accepted s.now work.old m) }
    ensures { (sheet : Sheet Condition) → Accepted s.now work.old m sheet → Selects s.now work.old work.new (select sheet 0 sheet.outcomes) result }
{
    let end = after_at(work, m.outcomes);
    // No iterator: `try_outcome` changes the table that the outcomes stand in.
    let mut here = Placed {
        place: 0,
        node: m.outcomes + 1,
    };
    while here.node < end {
        match try_outcome(s, work, m, here) {
            Ok(true) => return Ok(here),
            Ok(false) => {}
            Err(a) => return Err(a),
        }
        here = here.next(work);
    }
    Err(Answer::NoOutcome)
}
