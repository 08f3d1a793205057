// Whether an outcome is kept in the state in hand.
ghost use Rattle.std.specs.Prelude.{List, ◌≡◌};
ghost use Rattle.json_text.specs.Bytes.{Bytes};
ghost use Rattle.json_text.specs.Cursor.{OnText};
ghost use Rattle.json_text.specs.Refusal.{or_else, wrong_state};
ghost use Rattle.json_text.specs.Spans.{text_at};
ghost use Rattle.sheet.specs.Accepted.{EachGives, Gives, Known};
ghost use Rattle.members.specs.Condition.{Condition, condition};
ghost use Rattle.members.specs.Kinds.{a_text, an_array_of};
ghost use Rattle.members.specs.Outcome as all;
ghost use Rattle.members.specs.Outcome.{an_outcome};
ghost use Rattle.answers.specs.Admission.{admit, is_wrong};
ghost use Rattle.answers.specs.Outcomes.{first_from};
ghost use Rattle.rules.specs.Told.{Entered, Told, admission};

use crate::outcomes::{first_wrong, members_at};
use crate::sources::{is_source, of_effect};
use crate::texts::is_one_of;
use rules::placed::Placed;
use sheet::shape::node_of;
use strings::rows::{after_at, start_at};
use writer::answer::{Answer, Move, Outcome};

// An outcome as an answer names it.
pub fn entry(s: &[u8], work: &[u32], p: Placed) -> Outcome
    requires { Known (Gives (an_outcome condition) s.now work.now p.node) }
    ensures { (o : all.Outcome Condition) → Gives (an_outcome condition) s.now work.now p.node o → Entered s.now p.place o.name result }
{
    let m = members_at(s, work, p.node);
    Outcome {
        place: p.place,
        name: start_at(work, node_of(m.name)),
    }
}

// Whether the text at a place is a declared state that no outcome from `from` up to `end` starts from.
pub fn is_wrong(
    s: &[u8],
    work: &[u32],
    states: usize,
    from: usize,
    end: usize,
    state: usize,
) -> bool
    requires { Known (Gives (an_array_of a_text) s.now work.now states) × Known (EachGives (an_outcome condition) s.now work.now from end) × OnText s.now state 0 }
    ensures { (ts : List Bytes) (os : List (all.Outcome Condition)) → Gives (an_array_of a_text) s.now work.now states ts → EachGives (an_outcome condition) s.now work.now from end os → result ≡ is_wrong ts os (text_at s.now state) }
{
    is_one_of(s, work, states, state) && !is_source(s, work, from, end, state)
}

// The answer in the wrong state: the first outcome for it, of those from `from` up to `end`.
pub fn for_wrong_state(s: &[u8], work: &[u32], from: usize, end: usize, state: usize) -> Answer
    requires { Known (EachGives (an_outcome condition) s.now work.now from end) × OnText s.now state 0 }
    ensures { (os : List (all.Outcome Condition)) → EachGives (an_outcome condition) s.now work.now from end os → Told s.now work.now (admission (or_else (first_from (λ o. o.wrong_state) 0 os) (wrong_state (text_at s.now state)))) result }
{
    match first_wrong(s, work, from, end) {
        None => Answer::WrongState(state),
        Some(p) => Answer::Admitted(entry(s, work, p)),
    }
}

// The answer for an outcome in a state: it is kept, the first for the wrong state is, or it is refused.
// Nodes and no `Members`: what is answered holds of any states and outcomes, in a sheet or not.
pub fn admit(
    s: &[u8],
    work: &[u32],
    states: usize,
    outcomes: usize,
    state: usize,
    p: Placed,
) -> Answer
    requires { Known (Gives (an_array_of a_text) s.now work.now states) × Known (Gives (an_array_of (an_outcome condition)) s.now work.now outcomes) × OnText s.now state 0 × Known (Gives (an_outcome condition) s.now work.now p.node) }
    ensures { (ts : List Bytes) (os : List (all.Outcome Condition)) (o : all.Outcome Condition) → Gives (an_array_of a_text) s.now work.now states ts → Gives (an_array_of (an_outcome condition)) s.now work.now outcomes os → Gives (an_outcome condition) s.now work.now p.node o → Told s.now work.now (admission (admit ts os (text_at s.now state) (record { place = p.place; outcome = o }))) result }
{
    let outcome = entry(s, work, p);
    let effect = members_at(s, work, p.node).effect;
    let sources = match of_effect(s, work, effect) {
        Some(n) if !is_one_of(s, work, n, state) => n,
        _ => return Answer::Admitted(outcome),
    };
    let end = after_at(work, outcomes);
    if is_wrong(s, work, states, outcomes + 1, end, state) {
        return for_wrong_state(s, work, outcomes + 1, end, state);
    }
    Answer::NotASource(Move {
        outcome,
        state,
        from: sources,
    })
}
