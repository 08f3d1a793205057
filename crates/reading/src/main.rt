// Reads texts on standard input, each behind a line with its length, and answers each in a line: the number of its refusal, or `ok` and for
// each node its kind, where it starts and ends, and the node after it.
#![tactic(auto)]

ghost use Rattle.std.specs.Prelude.{◌+◌, ◌*◌, ◌≤◌, ◌<◌, length};

use records::read_full;
use std::io;
use strings::rows::{after_at, end_at, kind_at, start_at};

// A write that fails is passed over.
fn print_row(rt: &impl Print, work: &[u32], node: usize)
    requires { (3 * node + 3 ≤ length work.now) × (node < 4096) }
{
    let kind = kind_at(work, node).code();
    let start = start_at(work, node);
    let end = end_at(work, node);
    let after = after_at(work, node);
    let _ = print!(rt; " {kind}:{start}-{end}>{after}");
}

fn print_rows(rt: &impl Print, work: &[u32], nodes: usize)
    requires { 12288 ≤ length work.now }
{
    for node in 0..nodes.min(4096) {
        print_row(rt, work, node);
    }
}

// A write that fails is passed over.
fn answer(rt: &impl Print, sheet: &[u8], work: &mut [u32]) {
    match reader::read(sheet, work) {
        Err(refusal) => {
            let number = refusal.number();
            let _ = print!(rt; "{number}");
        }
        Ok(nodes) => {
            let _ = rt.write_all(b"ok");
            if 12288 <= work.len() {
                print_rows(rt, work, nodes);
            }
        }
    }
    let _ = rt.write_all(b"\n");
}

// The length in the next line, of at most five digits; none at the list's end. By hand, since the digits are read one by one.
fn next_length<R: io::Read>(input: &mut R) -> Option<usize> {
    let mut n = 0;
    for _ in 0..6 {
        let mut byte = [b'\n'];
        if read_full(input, &mut byte) == 0 {
            return None;
        }
        if !byte[0].is_ascii_digit() {
            return Some(n);
        }
        n = (n * 10 + usize::from(byte[0] - b'0')) % 100_000;
    }
    None
}

// The next text, answered; none at the list's end.
fn step<R: io::Read>(
    rt: &impl Print,
    input: &mut R,
    sheet: &mut [u8],
    work: &mut [u32],
) -> Option<()> {
    let text = sheet.get_mut(..next_length(input)?)?;
    let mut end = [0u8; 1];
    read_full(input, text);
    read_full(input, &mut end);
    answer(rt, text, work);
    Some(())
}

fn main(rt: HostRuntime) {
    let mut input = rt.stdin();
    let mut sheet = [0u8; 65536];
    let mut work = [0u32; 16384];
    let mut small = [0u32; 16383];
    answer(&rt, b"{}", &mut small);
    for _ in 0..1_000_000 {
        if step(&rt, &mut input, &mut sheet, &mut work).is_none() {
            return;
        }
    }
}
