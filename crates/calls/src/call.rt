// The calls on an accepted sheet.
// Sheet, table and members stand side by side: the first two are lent by the caller as two slices, and the table is marked while the members stay as they are.
ghost use Rattle.std.specs.Prelude.{◌≡◌, ◌≤◌, length};
ghost use Rattle.json_text.specs.Cursor.{OnText};
ghost use Rattle.json_text.specs.Spans.{text_at};
ghost use Rattle.sheet.specs.Accepted.{Accepted, Known};
ghost use Rattle.members.specs.Condition.{Condition};
ghost use Rattle.members.specs.Sheet.{Sheet};
ghost use Rattle.answers.specs.Decide.{admit_call, decide_call, evaluate_call, select_call};
ghost use Rattle.rules.specs.Told.{Answered, Told, answer_of};
ghost use Rattle.calls.specs.Rules.{rules_call};
ghost use Rattle.calls.specs.Trying.{admit_selected};

use crate::select::select;
use admission::admit::{admit, entry};
use admission::outcomes::outcome_at;
use rules::alone::evaluate_alone;
use rules::rules::check;
use semantics::truth::Truth;
use sheet::shape::Members;
use strings::rows::{after_at, start_at};
use writer::answer::{Answer, Rules};

// A truth as an answer. No From: both types are other crates'.
fn of_truth(t: Truth) -> Answer
    ensures { result ≡ answer_of t }
{
    match t {
        Truth::True => Answer::True,
        Truth::False => Answer::False,
        Truth::Unknown => Answer::Unknown,
    }
}

// The truth of the sheet's condition.
pub fn evaluate_call(s: &[u8], work: &mut [u32], m: Members) -> Answer
    requires { (16384 ≤ length work.old) × Known (Accepted s.now work.old m) }
    ensures { (sheet : Sheet Condition) → Accepted s.now work.old m sheet → Answered s.now work.old work.new (evaluate_call sheet) result }
{
    let Some(node) = m.condition else {
        return Answer::NoInput;
    };
    // here and below: an Answer has what holds and what is refused, so the two arms come together again
    match evaluate_alone(s, work, m, node) {
        Ok(t) => of_truth(t),
        Err(a) => a,
    }
}

// The preconditions or the invariants.
pub fn rules_call(s: &[u8], work: &mut [u32], m: Members, rules: Rules) -> Answer
    requires { (16384 ≤ length work.old) × Known (Accepted s.now work.old m) }
    ensures { (sheet : Sheet Condition) → Accepted s.now work.old m sheet → Answered s.now work.old work.new (rules_call rules sheet) result }
{
    let node = match rules {
        Rules::Preconditions => m.preconditions,
        Rules::Invariants => m.invariants,
    };
    match check(s, work, m, rules, node) {
        Ok(()) => Answer::Passed,
        Err(a) => a,
    }
}

// Admission of the outcome at a place.
pub fn admit_call(s: &[u8], work: &[u32], m: Members, place: usize) -> Answer
    requires { Known (Accepted s.now work.now m) }
    ensures { (sheet : Sheet Condition) → Accepted s.now work.now m sheet → Told s.now work.now (admit_call sheet place) result }
{
    let end = after_at(work, m.outcomes);
    let (Some(p), Some(n)) = (outcome_at(work, m.outcomes + 1, end, place), m.state) else {
        return Answer::NoInput;
    };
    admit(s, work, m.states, m.outcomes, start_at(work, n), p)
}

// Selection.
pub fn select_call(s: &[u8], work: &mut [u32], m: Members) -> Answer
    requires { (16384 ≤ length work.old) × Known (Accepted s.now work.old m) }
    ensures { (sheet : Sheet Condition) → Accepted s.now work.old m sheet → Answered s.now work.old work.new (select_call sheet) result }
{
    match select(s, work, m) {
        Ok(p) => Answer::Selected(entry(s, work, p)),
        Err(a) => a,
    }
}

// Admission of the outcome selected, in the state whose text stands at a place.
fn admit_selected(s: &[u8], work: &mut [u32], m: Members, state: usize) -> Answer
    requires { (16384 ≤ length work.old) × Known (Accepted s.now work.old m) × OnText s.now state 0 }
    ensures { (sheet : Sheet Condition) → Accepted s.now work.old m sheet → Answered s.now work.old work.new (admit_selected sheet (text_at s.now state)) result }
{
    match select(s, work, m) {
        Ok(p) => admit(s, work, m.states, m.outcomes, state, p),
        Err(a) => a,
    }
}

// The whole decision: preconditions, selection, admission.
pub fn decide_call(s: &[u8], work: &mut [u32], m: Members) -> Answer
    requires { (16384 ≤ length work.old) × Known (Accepted s.now work.old m) }
    ensures { (sheet : Sheet Condition) → Accepted s.now work.old m sheet → Answered s.now work.old work.new (decide_call sheet) result }
{
    let Some(n) = m.state else {
        return Answer::NoInput;
    };
    let state = start_at(work, n);
    if let Err(a) = check(s, work, m, Rules::Preconditions, m.preconditions) {
        return a;
    }
    admit_selected(s, work, m, state)
}
