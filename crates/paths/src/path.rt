// Paths: the first part of a text up to its dot, and where the text goes on. A path is a slice that starts in the sheet's middle; its text ends at
// its closing quote.
ghost use Rattle.std.specs.Prelude.{◌≡◌, ◌+◌};
ghost use Rattle.json_text.specs.Bytes.{same_bytes};
ghost use Rattle.json_text.specs.Cursor.{OnText};
ghost use Rattle.json_text.specs.Spans.{text_at};
ghost use Rattle.paths.specs.Path.{part};
ghost use Rattle.paths.specs.Told.{RestTold};

use crate::written::unit_at;
use strings::text::Decoded;

// Where the text goes on behind the first dot.
pub fn rest_at(path: &[u8]) -> Option<usize>
    requires { OnText path.now 0 0 }
    ensures { RestTold path.now result }
{
    let mut at = 0;
    // unit by unit, and no iterator over the bytes: the place behind the dot is asked
    loop {
        let x = unit_at(path, at)?;
        if x.unit == u32::from(b'.') {
            return Some(x.next);
        }
        at = x.next;
    }
}

// Whether the first part of a path's text, from a place of it on, is the text at a place of the sheet, decoded as they are compared.
// Not one function with `word_decoded`: with the iterator as a parameter one line would be left in it, and its contract would have to say of any iterator
// what each says of its own.
fn part_decoded(path: &[u8], at: usize, s: &[u8], name: usize) -> bool
    requires { OnText path.now at 0 × OnText s.now name 0 }
    ensures { result ≡ same_bytes (part (text_at path.now at)) (text_at s.now name) }
{
    Decoded::new(path, at)
        .take_while(|b| *b != b'.')
        .eq(Decoded::new(s, name))
}

// Whether the first part of a path is the text at a place of the sheet. Few names have an escape: up to the first one, bytes are compared as they
// stand.
pub fn part_is(path: &[u8], s: &[u8], name: usize) -> bool
    requires { OnText path.now 0 0 × OnText s.now name 0 }
    ensures { result ≡ same_bytes (part (text_at path.now 0)) (text_at s.now name) }
{
    // counted by hand: `position` in a `zip` would need a place for two that never part, and these always do
    let mut n = 0;
    loop {
        let c = path[n];
        let d = s[name + n];
        if c != d {
            if c == b'\\' || d == b'\\' {
                return part_decoded(path, n, s, name + n);
            }
            return c == b'.' && d == b'"';
        }
        if c == b'\\' {
            return part_decoded(path, n, s, name + n);
        }
        // not `return c == b'"'` for both: an answer that is computed has to be looked at again for each name of an object, and a look-up takes
        // 1.17 times the instructions and up to half as much time again
        if c == b'"' {
            return true;
        }
        if c == b'.' {
            return false;
        }
        n += 1;
    }
}

// Whether the first part of a path's text, from a place of it on, is a word, decoded as they are compared.
fn word_decoded(path: &[u8], at: usize, word: &[u8]) -> bool
    requires { OnText path.now at 0 }
    ensures { result ≡ same_bytes (part (text_at path.now at)) word.now }
{
    Decoded::new(path, at)
        .take_while(|b| *b != b'.')
        .eq(word.iter().copied())
}

// Whether the first part of a path is a word. Up to the first escape, bytes are compared as they stand.
// Not one function with members' `matches`: a dot ends a part, and each keeps its equation.
pub fn part_is_word(path: &[u8], word: &[u8]) -> bool
    requires { OnText path.now 0 0 }
    ensures { result ≡ same_bytes (part (text_at path.now 0)) word.now }
{
    for (n, b) in word.iter().enumerate() {
        let c = path[n];
        if c == b'\\' {
            return word_decoded(path, n, &word[n..]);
        }
        if c == b'"' || c == b'.' || c != *b {
            return false;
        }
    }
    Decoded::new(path, word.len())
        .next()
        .is_none_or(|b| b == b'.')
}
