// Stored lists on standard input: one record a line, its fields with a tab between. A list is read part by part.
#![tactic(auto)]

ghost use Rattle.std.specs.Prelude.{Bool, ◌+◌, ◌≡◌, ◌≤◌, ◌<◌, cond, is_err, length, min};
ghost use Rattle.records.specs.Records.{Bytes, Checked, Tallied, Tells, field_of, most, records_of};

use std::fmt::Display;
use std::io::Read;

// The place of the first such byte from `from` on, or the end.
pub fn find(text: &[u8], from: usize, byte: u8) -> usize
    requires { from ≤ length text.now }
    ensures { (from ≤ result) × (result ≤ length text.now) }
{
    match text[from..].iter().position(|c| *c == byte) {
        Some(n) => from + n,
        None => text.len(),
    }
}

// The place behind the byte at `at`, or the end.
pub fn behind(text: &[u8], at: usize) -> usize
    requires { at ≤ length text.now }
    ensures { result ≡ min (at + 1) (length text.now) }
{
    (at + 1).min(text.len())
}

// A record's field by its place, 0 the first one; what a record has not is empty.
pub fn field(record: &[u8], place: usize) -> &[u8]
    ensures { result.now ≡ field_of «record».now place }
{
    record.split(|c| *c == b'\t').nth(place).unwrap_or(&[])
}

// A decimal digit's value, 0 for any other byte.
// 0 and no Option: the lists are this repository's own, and `decimal` takes any bytes.
fn digit(c: u8) -> usize
    ensures { result ≤ 9 }
{
    if c.is_ascii_digit() {
        usize::from(c - b'0')
    } else {
        0
    }
}

// The number that decimal digits spell, up to 99,999,999,999. By hand: `parse` takes a str, and also a sign.
pub fn decimal(text: &[u8]) -> usize {
    let mut n = 0;
    for c in text {
        n = (n * 10 + digit(*c)) % 100_000_000_000;
    }
    n
}

// The number in a record's field.
pub fn number(record: &[u8], place: usize) -> usize {
    decimal(field(record, place))
}

// Whether so many bytes at the start of an output are a line and LF.
pub fn is_line(out: &[u8], size: usize, line: &[u8]) -> bool {
    match out.get(..size) {
        Some([text @ .., b'\n']) => text == line,
        _ => false,
    }
}

// The place behind the last line feed before `end`: the records up to there are whole.
pub fn whole(text: &[u8], end: usize) -> usize
    requires { end ≤ length text.now }
    ensures { result ≤ end }
{
    text[..end]
        .iter()
        .rposition(|c| *c == b'\n')
        .map_or(0, |at| at + 1)
}

// Reads until the buffer is full, the input ends or a read fails, and answers how many bytes stand at its start.
// Not std's `read_exact`, for which an early end is an error, nor intake's `read_all`: a read that fails only ends the list here.
pub fn read_full<R: Read>(input: &mut R, buf: &mut [u8]) -> usize
    ensures { result ≤ length buf.new }
{
    let mut done = 0;
    // each read says how many bytes it brought: no range counts these
    while done < buf.len() {
        let n = input.read(&mut buf[done..]).unwrap_or(0);
        if n == 0 {
            break;
        }
        done += n;
    }
    done
}

// Moves what is left of so many bytes in hand, behind those that are used, to the start, reads on, and answers how many bytes are in hand then.
pub fn more<R: Read>(input: &mut R, list: &mut [u8], used: usize, end: usize) -> usize
    requires { (used ≤ end) × (end ≤ length list.old) }
    ensures { result ≤ length list.new }
{
    list.copy_within(used..end, 0);
    let n = end - used;
    n + read_full(input, &mut list[n..])
}

// How many records ran, and how many of them differ.
#[derive(Clone, Copy)]
pub struct Tally {
    pub ran: u64,
    pub differ: u64,
}

// A record's check counted; of the first 20 that differ it is said where they stand in the list, and what differs. A write that fails is passed over.
fn counted<E: Display + Drop>(rt: &impl Print, before: Tally, checked: Result<(), E>) -> Tally
    ensures ran { result.ran ≡ min (before.ran + 1) most }
    ensures differ { result.differ ≡ min (before.differ + cond (is_err checked) 1 0) most }
{
    let ran = before.ran.saturating_add(1);
    let mut differ = before.differ;
    if let Err(what) = checked {
        if differ < 20 {
            let _ = println!(rt; "record {ran}{what}");
        }
        differ = differ.saturating_add(1);
    }
    Tally { ran, differ }
}

// Checks the records of a text, each of which a line feed ends; what stands behind the last one is left.
fn check_all<E: Display + Drop, F: Fn(&[u8]) -> Result<(), E>>(
    rt: &impl Print,
    text: &[u8],
    before: Tally,
    check: &F,
) -> Tally
    requires { F.IsAlwaysCallable check.now }
    ensures counts { (p : Bytes → Bool) → Tells (F.post check.now) p → Tallied p before (records_of text.now) result }
    ensures at_most { before.differ ≤ before.ran → result.differ ≤ result.ran }
{
    let mut all = before;
    let mut rest = text;
    // no `for` over `split`: the proof of such a loop doesn't close in a function that is generic in the check
    while let Some(at) = rest.iter().position(|c| *c == b'\n') {
        all = counted(rt, all, check(&rest[..at]));
        rest = &rest[at + 1..];
    }
    all
}

// Checks the records of the list on an input, in parts as long as the buffer.
pub fn check_list<R: Read, E: Display + Drop, F: Fn(&[u8]) -> Result<(), E>>(
    rt: &impl Print,
    input: &mut R,
    list: &mut [u8],
    check: &F,
) -> Tally
    requires { F.IsAlwaysCallable check.now }
    ensures counts { (p : Bytes → Bool) → Tells (F.post check.now) p → Checked p result }
    ensures at_most { result.differ ≤ result.ran }
{
    let mut all = Tally { ran: 0, differ: 0 };
    let mut n = more(input, list, 0, 0);
    for _ in 0..1000 {
        let used = whole(list, n);
        all = check_all(rt, &list[..used], all, check);
        n = more(input, list, used, n);
        if n == 0 {
            break;
        }
    }
    all
}
