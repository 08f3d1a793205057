// The sheet's conditions in the order in which they begin, and the first fault among them.
ghost use Rattle.std.specs.Prelude.{◌≡◌, ◌+◌};
ghost use Rattle.json_text.specs.Bytes.{find};
ghost use Rattle.json_text.specs.Held.{AreMembers, IsNode};
ghost use Rattle.json_text.specs.Json.{entries};
ghost use Rattle.json_text.specs.Cursor.{OnText};
ghost use Rattle.json_text.specs.Spans.{text_at};
ghost use Rattle.json_text.specs.Table.{members_at, value_at};
ghost use Rattle.members.specs.Answers.{fault_is};
ghost use Rattle.members.specs.Sheet.{held_by, holders, in_array, member_of, sound, written};
ghost use Rattle.members.specs.Verdicts.{fault_of};

use members::member::named;
use members::told::Fault;
use members::word::is_word;
use strings::rows::{Elements, Keys, Kind, after_at, kind_at, start_at};
use syntax::condition::condition;

// The fault of the condition that an element has under a name.
pub fn under(s: &[u8], work: &[u32], node: usize, word: &[u8]) -> Result<(), Fault>
    requires { IsNode s.now work.now 64 node }
    ensures { fault_of (sound (member_of word.now (value_at s.now work.now node))) ≡ fault_is result }
{
    if kind_at(work, node) == Kind::Object
        && let Some(n) = named(s, work, node + 1, after_at(work, node), word)
    {
        condition(s, work, n, 64)
    } else {
        Ok(())
    }
}

// The first fault of the conditions that the elements of an array have under a name.
pub fn under_each(s: &[u8], work: &[u32], node: usize, word: &[u8]) -> Result<(), Fault>
    requires { IsNode s.now work.now 64 node }
    ensures { fault_of (sound (in_array word.now (value_at s.now work.now node))) ≡ fault_is result }
{
    if kind_at(work, node) != Kind::Array {
        return Ok(());
    }
    let end = after_at(work, node);
    for k in Elements::new(work, node + 1, end) {
        under(s, work, k, word)?;
    }
    Ok(())
}

// The first fault of the conditions that a member of the sheet holds, by the place of its name.
pub fn held(s: &[u8], work: &[u32], name: usize, node: usize) -> Result<(), Fault>
    requires { OnText s.now name 0 × IsNode s.now work.now 64 node }
    ensures { fault_of (sound (held_by (find (text_at s.now name) holders) (value_at s.now work.now node))) ≡ fault_is result }
{
    if is_word(s, name, b"condition") {
        return condition(s, work, node, 64);
    }
    if is_word(s, name, b"preconditions") || is_word(s, name, b"invariants") {
        return under_each(s, work, node, b"assert");
    }
    if is_word(s, name, b"outcomes") {
        return under_each(s, work, node, b"when");
    }
    Ok(())
}

// The first fault of the conditions that the sheet's members from `from` up to `end` hold.
pub fn first_fault(s: &[u8], work: &[u32], from: usize, end: usize) -> Result<(), Fault>
    requires { AreMembers s.now work.now 64 from end }
    ensures { fault_of (sound (written (entries (members_at s.now work.now from end)))) ≡ fault_is result }
{
    for k in Keys::new(work, from, end) {
        held(s, work, start_at(work, k), k + 1)?;
    }
    Ok(())
}
