// What is said on standard error.
ghost use Rattle.std.specs.Prelude.{◌≤◌, length, IfSome};

use std::env::{Env, FillError};
use std::io::{Error, Stderr};

// An argument by its place, 0 the first one behind the program's name: how many bytes it puts at the start of the buffer, 0 where there is no such
// argument, and nothing where the buffer is too short.
pub fn argument(rt: &impl Env, place: usize, buf: &mut [u8]) -> Option<usize>
    ensures { IfSome result (λ n. n ≤ length buf.new) }
{
    match rt.arg(place.wrapping_add(1), buf) {
        // 0 bytes and no case of its own: how many arguments there are is asked apart
        Ok(n) => Some(n),
        Err(FillError::TooLong) => None,
        Err(FillError::NotPresent) => Some(0),
    }
}

// Whether there is such an argument; one that is not empty does not fit an empty buffer.
fn is_there(rt: &impl Env, place: usize) -> bool {
    !matches!(
        rt.arg(place.wrapping_add(1), &mut []),
        Err(FillError::NotPresent)
    )
}

// How many arguments stand behind the program's name.
pub fn count(rt: &impl Env) -> usize {
    for n in 0..usize::MAX {
        if !is_there(rt, n) {
            return n;
        }
    }
    usize::MAX
}

// A write that fails here is said nowhere.
fn say(text: &[u8], to: Stderr) {
    let _ = to.write_all(text);
}

// `intake: ABOUT: WHAT`. Written piece by piece: what is said are bytes, as an argument has them, and no str.
pub fn complain(rt: &HostRuntime, about: &[u8], what: &[u8]) {
    say(b"intake: ", rt.stderr());
    say(about, rt.stderr());
    say(b": ", rt.stderr());
    say(what, rt.stderr());
    say(b"\n", rt.stderr());
}

// The same of an argument by its place.
pub fn complain_of(rt: &HostRuntime, place: usize, what: &[u8]) {
    let mut text = [0u8; 4096];
    match argument(rt, place, &mut text) {
        Some(n) => complain(rt, &text[..n], what),
        None => complain(rt, b"an argument of more than 4,096 bytes", what),
    }
}

// What the system says of a call that failed, without the number that std adds in brackets.
pub fn failed(rt: &HostRuntime, about: &[u8], error: Error) {
    match format!(in rt.alloc(); "{error}") {
        Ok(text) => {
            let said = text.as_str();
            match said.split_once(" (os error ") {
                Some((reason, _)) => complain(rt, about, reason.as_bytes()),
                None => complain(rt, about, said.as_bytes()),
            }
        }
        Err(_) => complain(rt, about, b"out of memory"),
    }
}
