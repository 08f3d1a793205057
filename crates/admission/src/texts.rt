// Whether a text is one of those that a node gives: a text alone, or the texts of an array.
ghost use Rattle.std.specs.Prelude.{List, ◌≡◌};
ghost use Rattle.json_text.specs.Bytes.{Bytes, is_one_of};
ghost use Rattle.json_text.specs.Cursor.{OnText};
ghost use Rattle.json_text.specs.Spans.{text_at};
ghost use Rattle.sheet.specs.Accepted.{EachGives, Gives, Known};
ghost use Rattle.members.specs.Kinds.{a_text, some_texts};

use strings::rows::{Elements, Kind, after_at, kind_at, start_at};
use strings::text::same;

// Whether the text at a place is one of the texts from `from` up to `end`.
pub fn is_among(s: &[u8], work: &[u32], from: usize, end: usize, text: usize) -> bool
    requires { Known (EachGives a_text s.now work.now from end) × OnText s.now text 0 }
    ensures { (ts : List Bytes) → EachGives a_text s.now work.now from end ts → result ≡ is_one_of (text_at s.now text) ts }
{
    for k in Elements::new(work, from, end) {
        if same(s, text, start_at(work, k)) {
            return true;
        }
    }
    false
}

// Whether the text at a place is one of those that a node gives.
pub fn is_one_of(s: &[u8], work: &[u32], node: usize, text: usize) -> bool
    requires { Known (Gives some_texts s.now work.now node) × OnText s.now text 0 }
    ensures { (ts : List Bytes) → Gives some_texts s.now work.now node ts → result ≡ is_one_of (text_at s.now text) ts }
{
    if kind_at(work, node) == Kind::Text {
        same(s, text, start_at(work, node))
    } else {
        is_among(s, work, node + 1, after_at(work, node), text)
    }
}
