// Scans of the sheet: spaces, and a text up to its closing quote.
ghost use Rattle.std.specs.Prelude.{◌≡◌, ◌≤◌, ◌<◌, length};
ghost use Rattle.json_text.specs.Scan.{is_space};
ghost use Rattle.json_text.specs.Placing.{byte_at, chars_at, skip_at, word_at};
ghost use Rattle.strings.specs.Answers.{scan_of};

use strings::answer::Refusal;
use strings::escape::escape;

// The place behind the closing quote of the text whose content starts at `at`.
pub fn string(s: &[u8], at: usize) -> Result<usize, Refusal>
    requires { at ≤ length s.now }
    ensures { chars_at s.now at ≡ scan_of result }
{
    // the place jumps over escapes, so no `for` counts it; a `position` in what is left of the sheet takes more instructions for short texts
    let mut here = at;
    while here < s.len() {
        let c = s[here];
        if c == b'"' {
            return Ok(here + 1);
        }
        if c < b' ' {
            return Err(Refusal::NotJson);
        }
        if c == b'\\' {
            let Some(x) = escape(s, here + 1) else {
                return Err(Refusal::NotJson);
            };
            here = x.next;
        } else {
            here += 1;
        }
    }
    Err(Refusal::NotJson)
}

// Whether a byte is white space.
pub fn is_space(c: u8) -> bool
    ensures { result ≡ is_space c }
{
    // an arm for each, which takes fewer instructions than `matches!`
    match c {
        b' ' => true,
        b'\t' => true,
        b'\n' => true,
        b'\r' => true,
        _ => false,
    }
}

// The place of the first byte from `at` on that is no space.
pub fn skip(s: &[u8], at: usize) -> usize
    requires { at ≤ length s.now }
    ensures { result ≡ skip_at s.now at }
{
    // by places: `position` in what is left takes 1.05 times the instructions
    for here in at..s.len() {
        if !is_space(s[here]) {
            return here;
        }
    }
    s.len()
}

// The place behind the byte `c`, which has to stand at `at`.
pub fn byte(s: &[u8], at: usize, c: u8) -> Result<usize, Refusal>
    requires { 0 < c }
    ensures { byte_at c s.now at ≡ scan_of result }
{
    match s.get(at) {
        Some(d) if *d == c => Ok(at + 1),
        _ => Err(Refusal::NotJson),
    }
}

// The place behind the word `w`.
pub fn word(s: &[u8], at: usize, w: &[u8]) -> Result<usize, Refusal>
    requires { at ≤ length s.now }
    ensures { word_at w.now s.now at ≡ scan_of result }
{
    // byte by byte: `starts_with` takes twice the instructions for words as short as these
    for (c, d) in w.iter().zip(&s[at..]) {
        if c != d {
            return Err(Refusal::NotJson);
        }
    }
    if s.len() - at < w.len() {
        return Err(Refusal::NotJson);
    }
    Ok(at + w.len())
}
