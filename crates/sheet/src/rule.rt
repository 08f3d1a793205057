// A rule: `assert`, and the texts `name` and `message`, which may be missing.
ghost use Rattle.std.specs.Prelude.{◌≡◌};
ghost use Rattle.json_text.specs.Held.{AreMembers, IsNode};
ghost use Rattle.json_text.specs.Table.{members_at, value_at};
ghost use Rattle.members.specs.Kinds.{an_array_of, not_null};
ghost use Rattle.sheet.specs.Named.{RuleNamed};
ghost use Rattle.members.specs.Rule.{a_rule};
ghost use Rattle.members.specs.Verdicts.{is_ok};

use members::kinds::{allows, is_array_of, is_present, is_text, needs};
use members::member::{named, only};
use strings::rows::{Kind, after_at, kind_at};

// The nodes of a rule's members.
#[derive(Clone, Copy)]
pub struct RuleMembers {
    pub assert: Option<usize>,
    pub name: Option<usize>,
    pub message: Option<usize>,
}

// A rule's members by name; they stand from `from` up to `end`.
pub fn members(s: &[u8], work: &[u32], from: usize, end: usize) -> RuleMembers
    requires { AreMembers s.now work.now 64 from end }
    ensures { RuleNamed s.now work.now (members_at s.now work.now from end) result }
{
    RuleMembers {
        assert: named(s, work, from, end, b"assert"),
        name: named(s, work, from, end, b"name"),
        message: named(s, work, from, end, b"message"),
    }
}

// Whether a node is a rule.
// `is_move` and `is_outcome` go the same three steps: names, members and tests all differ, so one function would be passed all of them.
pub fn is_rule(s: &[u8], work: &[u32], node: usize) -> bool
    requires { IsNode s.now work.now 64 node }
    ensures { result ≡ is_ok (a_rule not_null (value_at s.now work.now node)) }
{
    // a return of its own: with `&&` all that follows would stand in a block
    if kind_at(work, node) != Kind::Object {
        return false;
    }
    let from = node + 1;
    let end = after_at(work, node);
    let m = members(s, work, from, end);
    only(s, work, from, end, &[b"assert", b"name", b"message"])
        & needs(s, work, m.assert, is_present)
        & allows(s, work, m.name, is_text)
        & allows(s, work, m.message, is_text)
}

// Whether a node is an array of rules.
pub fn are_rules(s: &[u8], work: &[u32], node: usize) -> bool
    requires { IsNode s.now work.now 64 node }
    ensures { result ≡ is_ok (an_array_of (a_rule not_null) (value_at s.now work.now node)) }
{
    is_array_of(s, work, node, is_rule)
}
