// An outcome and its effect.
ghost use Rattle.std.specs.Prelude.{◌≡◌};
ghost use Rattle.json_text.specs.Held.{AreMembers, IsNode};
ghost use Rattle.json_text.specs.Table.{members_at, value_at};
ghost use Rattle.members.specs.Kinds.{an_array_of, not_null};
ghost use Rattle.sheet.specs.Named.{MoveNamed, OutcomeNamed};
ghost use Rattle.members.specs.Outcome.{a_move, an_effect, an_outcome};
ghost use Rattle.members.specs.Verdicts.{is_ok};

use members::kinds::{allows, is_array_of, is_bool, is_present, is_text, is_text_or_texts, needs};
use members::member::{named, only};
use members::word::is_one_of;
use strings::rows::{Kind, after_at, kind_at, start_at};

// The nodes of an outcome's members, and of a move's.
#[derive(Clone, Copy)]
pub struct OutcomeMembers {
    pub name: Option<usize>,
    pub when: Option<usize>,
    pub in_state: Option<usize>,
    pub wrong_state: Option<usize>,
    pub effect: Option<usize>,
}

#[derive(Clone, Copy)]
pub struct MoveMembers {
    pub to: Option<usize>,
    pub from: Option<usize>,
}

// An outcome's members by name; they stand from `from` up to `end`.
pub fn members(s: &[u8], work: &[u32], from: usize, end: usize) -> OutcomeMembers
    requires { AreMembers s.now work.now 64 from end }
    ensures { OutcomeNamed s.now work.now (members_at s.now work.now from end) result }
{
    OutcomeMembers {
        name: named(s, work, from, end, b"name"),
        when: named(s, work, from, end, b"when"),
        in_state: named(s, work, from, end, b"in_state"),
        wrong_state: named(s, work, from, end, b"wrong_state"),
        effect: named(s, work, from, end, b"effect"),
    }
}

// A move's members by name; they stand from `from` up to `end`.
pub fn move_members(s: &[u8], work: &[u32], from: usize, end: usize) -> MoveMembers
    requires { AreMembers s.now work.now 64 from end }
    ensures { MoveNamed s.now work.now (members_at s.now work.now from end) result }
{
    MoveMembers {
        to: named(s, work, from, end, b"to"),
        from: named(s, work, from, end, b"from"),
    }
}

// Whether a node says where a move goes and where it may come from.
pub fn is_move(s: &[u8], work: &[u32], node: usize) -> bool
    requires { IsNode s.now work.now 64 node }
    ensures { result ≡ is_ok (a_move (value_at s.now work.now node)) }
{
    // a return of its own: with `&&` all that follows would stand in a block
    if kind_at(work, node) != Kind::Object {
        return false;
    }
    let from = node + 1;
    let end = after_at(work, node);
    let m = move_members(s, work, from, end);
    // `&` and no `&&`, here and where a rule and an outcome are told: as plain, and no test is a branch of the others
    only(s, work, from, end, &[b"to", b"from"])
        & needs(s, work, m.to, is_text)
        & needs(s, work, m.from, is_text_or_texts)
}

// Whether a node is an effect.
pub fn is_effect(s: &[u8], work: &[u32], node: usize) -> bool
    requires { IsNode s.now work.now 64 node }
    ensures { result ≡ is_ok (an_effect (value_at s.now work.now node)) }
{
    match kind_at(work, node) {
        Kind::Text => is_one_of(s, start_at(work, node), &[b"none", b"creates", b"updates"]),
        Kind::Object => {
            let from = node + 1;
            let end = after_at(work, node);
            only(s, work, from, end, &[b"moves"])
                & needs(s, work, named(s, work, from, end, b"moves"), is_move)
        }
        _ => false,
    }
}

// Whether a node is an outcome.
pub fn is_outcome(s: &[u8], work: &[u32], node: usize) -> bool
    requires { IsNode s.now work.now 64 node }
    ensures { result ≡ is_ok (an_outcome not_null (value_at s.now work.now node)) }
{
    // a return of its own: with `&&` all that follows would stand in a block
    if kind_at(work, node) != Kind::Object {
        return false;
    }
    let from = node + 1;
    let end = after_at(work, node);
    let m = members(s, work, from, end);
    only(
        s,
        work,
        from,
        end,
        &[b"name", b"when", b"in_state", b"wrong_state", b"effect"],
    ) & needs(s, work, m.name, is_text)
        & allows(s, work, m.when, is_present)
        & allows(s, work, m.in_state, is_text)
        & allows(s, work, m.wrong_state, is_bool)
        & allows(s, work, m.effect, is_effect)
}

// Whether a node is an array of outcomes.
pub fn are_outcomes(s: &[u8], work: &[u32], node: usize) -> bool
    requires { IsNode s.now work.now 64 node }
    ensures { result ≡ is_ok (an_array_of (an_outcome not_null) (value_at s.now work.now node)) }
{
    is_array_of(s, work, node, is_outcome)
}
