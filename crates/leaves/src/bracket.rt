// Separators: what follows an opening bracket, and what follows an element or a member.
ghost use Rattle.std.specs.Prelude.{◌≤◌, ◌<◌, length};
ghost use Rattle.leaves.specs.Laid.{Continues, Opens};

use strings::answer::Refusal;

// What stands where an element or a member may begin.
// No Result or ControlFlow: reading goes on from a place in both cases, and their names say which.
#[derive(Clone, Copy)]
pub enum Sep {
    // The closing bracket: the place behind it.
    Shut(usize),
    // An element or a member: its place.
    On(usize),
}

// What stands behind an opening bracket.
pub fn opening(s: &[u8], at: usize, close: u8) -> Sep
    requires { (at < length s.now) × (0 < close) }
    ensures { Opens s.now at close result }
{
    let here = tokens::scan::skip(s, at + 1);
    match s.get(here) {
        Some(c) if *c == close => Sep::Shut(here + 1),
        _ => Sep::On(here),
    }
}

// What stands behind an element or a member: a comma and the next one, or the closing bracket.
pub fn following(s: &[u8], at: usize, close: u8) -> Result<Sep, Refusal>
    requires { (at ≤ length s.now) × (0 < close) }
    ensures { Continues s.now at close result }
{
    let here = tokens::scan::skip(s, at);
    match s.get(here) {
        Some(b',') => Ok(Sep::On(tokens::scan::skip(s, here + 1))),
        Some(c) if *c == close => Ok(Sep::Shut(here + 1)),
        _ => Err(Refusal::NotJson),
    }
}
