// The sheet's members, and the refusal 9.
ghost use Rattle.std.specs.Prelude.{◌≡◌};
ghost use Rattle.json_text.specs.Held.{AreMembers};
ghost use Rattle.json_text.specs.Json.{object};
ghost use Rattle.json_text.specs.Table.{members_at};
ghost use Rattle.members.specs.Kinds.{not_null};
ghost use Rattle.sheet.specs.Named.{SheetNamed};
ghost use Rattle.members.specs.Sheet.{a_sheet};
ghost use Rattle.members.specs.Verdicts.{is_ok};

use crate::outcome::are_outcomes;
use crate::rule::are_rules;
use members::kinds::{allows, are_texts, is_object, is_present, is_text, is_version, needs};
use members::member::{named, only};

// The names of a sheet's members.
const NAMES: [&[u8]; 14] = [
    b"entity",
    b"to_state",
    b"version",
    b"args",
    b"fields",
    b"old_fields",
    b"states",
    b"preconditions",
    b"invariants",
    b"outcomes",
    b"id",
    b"from_state",
    b"state",
    b"condition",
];

// The nodes of the sheet's members.
#[derive(Clone, Copy)]
pub struct SheetMembers {
    pub id: Option<usize>,
    pub entity: Option<usize>,
    pub version: Option<usize>,
    pub args: Option<usize>,
    pub fields: Option<usize>,
    pub old_fields: Option<usize>,
    pub from_state: Option<usize>,
    pub to_state: Option<usize>,
    pub state: Option<usize>,
    pub states: Option<usize>,
    pub condition: Option<usize>,
    pub preconditions: Option<usize>,
    pub invariants: Option<usize>,
    pub outcomes: Option<usize>,
}

// The sheet's members by name; they stand from `from` up to `end`.
pub fn members(s: &[u8], work: &[u32], from: usize, end: usize) -> SheetMembers
    requires { AreMembers s.now work.now 64 from end }
    ensures { SheetNamed s.now work.now (members_at s.now work.now from end) result }
{
    SheetMembers {
        id: named(s, work, from, end, b"id"),
        entity: named(s, work, from, end, b"entity"),
        version: named(s, work, from, end, b"version"),
        args: named(s, work, from, end, b"args"),
        fields: named(s, work, from, end, b"fields"),
        old_fields: named(s, work, from, end, b"old_fields"),
        from_state: named(s, work, from, end, b"from_state"),
        to_state: named(s, work, from, end, b"to_state"),
        state: named(s, work, from, end, b"state"),
        states: named(s, work, from, end, b"states"),
        condition: named(s, work, from, end, b"condition"),
        preconditions: named(s, work, from, end, b"preconditions"),
        invariants: named(s, work, from, end, b"invariants"),
        outcomes: named(s, work, from, end, b"outcomes"),
    }
}

// Whether the members of an object, which stand from `from` up to `end`, are a sheet's.
pub fn are_sheet(s: &[u8], work: &[u32], from: usize, end: usize, m: SheetMembers) -> bool
    requires { AreMembers s.now work.now 64 from end × SheetNamed s.now work.now (members_at s.now work.now from end) m }
    ensures { result ≡ is_ok (a_sheet not_null (object (members_at s.now work.now from end))) }
{
    only(s, work, from, end, &NAMES)
        & allows(s, work, m.id, is_text)
        & needs(s, work, m.entity, is_text)
        & needs(s, work, m.version, is_version)
        & needs(s, work, m.args, is_object)
        & needs(s, work, m.fields, is_object)
        & needs(s, work, m.old_fields, is_object)
        & allows(s, work, m.from_state, is_text)
        & needs(s, work, m.to_state, is_text)
        & allows(s, work, m.state, is_text)
        & needs(s, work, m.states, are_texts)
        & allows(s, work, m.condition, is_present)
        & needs(s, work, m.preconditions, are_rules)
        & needs(s, work, m.invariants, are_rules)
        & needs(s, work, m.outcomes, are_outcomes)
}
