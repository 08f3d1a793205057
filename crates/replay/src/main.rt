// Runs a stored list of calls: each record's number, line, output past the line and work table must be as the record says. Prints
// the first that differ, how many ran and how many differ.
#![tactic(auto)]

ghost use Rattle.std.specs.Prelude.{◌<◌, ◌≤◌, length};

use calling::Call;
use decision::call::run;
use line::reply::Reply;
use records::{check_list, field, is_line, number};
use std::fmt;

// What stands in the output and in the work table before a call.
const BYTE: u8 = 165;

const WORD: u32 = 2779096485;

// The bytes of a record's sheet that are taken.
const LONGEST: usize = 65536;

// The places of a record's fields; the first is the call's letter. Numbers and no enum: `field` takes a place.
const PLACE: usize = 1;

const WORDS: usize = 2;

const BYTES: usize = 3;

const FORM: usize = 4;

const SHEET: usize = 5;

const NUMBER: usize = 6;

const LINE: usize = 7;

// What differs from a record.
#[derive(Clone, Copy, PartialEq, Eq)]
enum Difference {
    NoRecord,
    Number,
    Line,
    Output,
    Work,
}

impl fmt::Display for Difference {
    fn fmt<W: fmt::Write>(&self, f: &mut fmt::Formatter<W>) -> fmt::Result {
        f.write_str(match self {
            Difference::NoRecord => ": no record",
            Difference::Number => ": the number differs",
            Difference::Line => ": the line differs",
            Difference::Output => ": the output past the line differs",
            Difference::Work => ": the work table differs",
        })
    }
}

// A hexadecimal digit's value in lower case, 0 for any other byte.
// 0 and no Option: a record that is written wrongly shows as one that differs, and this list is the repository's own.
fn nibble(c: u8) -> u8
    ensures { result < 16 }
{
    match c {
        b'0'..=b'9' => c - b'0',
        b'a'..=b'f' => c - b'a' + 10,
        _ => 0,
    }
}

// The bytes that hexadecimal digits spell, at the start of a buffer, and how many there are; 0 where it is too short, which shows as a difference too.
fn from_hex(digits: &[u8], bytes: &mut [u8]) -> usize
    ensures { result ≤ length bytes.new }
{
    let n = digits.len() / 2;
    if bytes.len() < n {
        return 0;
    }
    for (byte, pair) in bytes.iter_mut().zip(digits.chunks_exact(2)) {
        if let [high, low] = pair {
            *byte = nibble(*high) * 16 + nibble(*low);
        }
    }
    n
}

// A record's call: its letter and, for an admission, the outcome's place.
fn call_of(record: &[u8], letter: u8) -> Call {
    match letter {
        b'e' => Call::Evaluate,
        b'p' => Call::Preconditions,
        b'i' => Call::Invariants,
        b's' => Call::Select,
        b'a' => Call::Admit(number(record, PLACE)),
        _ => Call::Decide,
    }
}

// Whether the line at the start of the output is the record's; `-` stands for none.
fn is_the_line(out: &[u8], size: Option<usize>, line: &[u8]) -> bool {
    match size {
        Some(size) => is_line(out, size, line),
        None => line == b"-".as_slice(),
    }
}

// Whether the output is as before from a place on.
fn is_untouched(out: &[u8], from: usize) -> bool {
    let Some(rest) = out.get(from..) else {
        return true;
    };
    rest.iter().all(|b| *b == BYTE)
}

// Whether the first words are zero and all others as before.
fn is_cleared(work: &[u32], zeros: usize) -> bool {
    let (cleared, rest) = work.split_at(zeros.min(work.len()));
    cleared.iter().all(|w| *w == 0) && rest.iter().all(|w| *w == WORD)
}

// Runs a record's call on a sheet.
fn check_call(record: &[u8], sheet: &[u8]) -> Result<(), Difference> {
    let mut work = [WORD; 20480];
    let mut out = [BYTE; 65536];
    let letter = *record.first().ok_or(Difference::NoRecord)?;
    let table = work
        .get_mut(..number(record, WORDS))
        .ok_or(Difference::NoRecord)?;
    let room = out
        .get_mut(..number(record, BYTES))
        .ok_or(Difference::NoRecord)?;
    let reply = run(sheet, table, room, call_of(record, letter));
    if reply.number() != number(record, NUMBER) {
        return Err(Difference::Number);
    }
    if !is_the_line(&out, reply.size(), field(record, LINE)) {
        return Err(Difference::Line);
    }
    if !is_untouched(&out, reply.size().unwrap_or(0)) {
        return Err(Difference::Output);
    }
    let zeros = if reply == Reply::WorkTooSmall {
        0
    } else {
        16384
    };
    if is_cleared(&work, zeros) {
        Ok(())
    } else {
        Err(Difference::Work)
    }
}

// Runs a record, whose sheet is written as it is or, where its form is `h`, in hexadecimal digits. A sheet of more than 65,536 bytes counts as an empty one.
fn check(record: &[u8]) -> Result<(), Difference> {
    let text = field(record, SHEET);
    if field(record, FORM).first() == Some(&b'h') {
        let mut sheet = [0u8; LONGEST];
        let n = from_hex(text, &mut sheet);
        return check_call(record, &sheet[..n]);
    }
    check_call(record, if LONGEST < text.len() { &[] } else { text })
}

fn main(rt: HostRuntime) {
    let mut list = [0u8; 262144];
    let all = check_list(&rt, &mut rt.stdin(), &mut list, &check);
    let _ = println!(rt; "{} records, {} differ", all.ran, all.differ);
}
