// Members of an object, by name.
ghost use Rattle.std.specs.Prelude.{◌≡◌};
ghost use Rattle.json_text.specs.Bytes.{find};
ghost use Rattle.json_text.specs.Held.{AreMembers};
ghost use Rattle.json_text.specs.Json.{entries, keys};
ghost use Rattle.json_text.specs.Table.{members_at};
ghost use Rattle.members.specs.Answers.{Located};
ghost use Rattle.members.specs.Kinds.{only};
ghost use Rattle.members.specs.Verdicts.{is_ok};
ghost use Rattle.members.specs.Words.{words};

use crate::word::{is_one_of, is_word};
use strings::rows::{Keys, start_at};

// The value's node of the member, from `from` up to `end`, whose name is the word.
// Not one function with strings' `find`: that one compares two texts of the sheet, this one a word, and each would keep its contract.
// `from` and `end` and no `Keys`, here and in the other walks over what a node holds: `Keys` says that its rows lead on, and what is asked is that members
// of the sheet stand there.
pub fn named(s: &[u8], work: &[u32], from: usize, end: usize, word: &[u8]) -> Option<usize>
    requires { AreMembers s.now work.now 64 from end }
    ensures { Located s.now work.now from end (find word.now (entries (members_at s.now work.now from end))) result }
{
    for k in Keys::new(work, from, end) {
        if is_word(s, start_at(work, k), word) {
            return Some(k + 1);
        }
    }
    None
}

// Whether every member's name is one of the words.
pub fn only(s: &[u8], work: &[u32], from: usize, end: usize, names: &[&[u8]]) -> bool
    requires { AreMembers s.now work.now 64 from end }
    ensures { result ≡ is_ok (only (words names.now) (keys (members_at s.now work.now from end))) }
{
    for k in Keys::new(work, from, end) {
        if !is_one_of(s, start_at(work, k), names) {
            return false;
        }
    }
    true
}
