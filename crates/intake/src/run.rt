// What was asked, done.
ghost use Rattle.std.specs.Prelude.{IfOk, ◌≡◌, ◌≤◌, length};

use crate::input::read_all;
use crate::output::{help, print, version};
use crate::said::{argument, complain, complain_of, failed};
use arguments::asked::{Asked, Misuse, Task};
use calling::Call;
use printing::call::answer;
use printing::lines::{answer_last, answer_lines, keep};
use std::fs;
use std::io::{self, Error, Read};

// One byte more than a sheet may have: a longer input is refused as too long however it goes on.
const MOST: usize = 32769;

// One call on one sheet.
fn one<R: Read>(rt: &HostRuntime, call: Call, input: &mut R, name: &[u8]) {
    let mut sheet = [0u8; MOST];
    let n = match read_all(input, &mut sheet) {
        Ok(n) => n,
        Err(error) => return failed(rt, name, error),
    };
    let mut work = [0u32; 16384];
    let mut out = [0u8; 65536];
    let size = answer(call, &sheet[..n], &mut work, &mut out);
    print(rt, &out[..size]);
}

// Writes the answers to the lines that have their LF, and answers how many bytes these lines have.
fn hand_on(rt: &impl Print, input: &[u8], work: &mut [u32], out: &mut [u8]) -> io::Result<usize>
    requires { (length work.old ≡ 16384) × (65536 ≤ length out.old) }
    ensures { IfOk result (λ n. n ≤ length input.now) }
{
    let mut at = 0;
    // each turn goes on by as many bytes as were answered: no range counts these
    loop {
        let p = answer_lines(&input[at..], work, out);
        rt.write_all(&out[..p.put])?;
        at += p.used;
        if p.done {
            return Ok(at);
        }
    }
}

// Why reading and answering ended before the input did.
#[derive(Clone, Copy)]
enum Failed {
    Unread(Error),
    Unwritten(Error),
}

// Reads chunk after chunk behind what is left of the one before, and answers how much is left in the end: a last line without LF, or the start
// of an overlong one. The turns are more than any input has bytes.
fn each_chunk<R: Read>(
    rt: &impl Print,
    source: &mut R,
    input: &mut [u8],
    work: &mut [u32],
    out: &mut [u8],
) -> Result<usize, Failed>
    requires { (length input.old ≡ 65536) × ((length work.old ≡ 16384) × (length out.old ≡ 65536)) }
    ensures { IfOk result (λ n. n ≤ length input.new) }
{
    let mut n = 0;
    for _ in 0..u64::MAX {
        let more = source.read(&mut input[n..]).map_err(Failed::Unread)?;
        if more == 0 {
            break;
        }
        let end = n + more;
        let used = hand_on(rt, &input[..end], work, out).map_err(Failed::Unwritten)?;
        n = keep(input, used, end);
    }
    Ok(n)
}

// A decision of each line.
fn lines<R: Read>(rt: &HostRuntime, source: &mut R, name: &[u8]) {
    let mut input = [0u8; 65536];
    let mut work = [0u32; 16384];
    let mut out = [0u8; 65536];
    match each_chunk(rt, source, &mut input, &mut work, &mut out) {
        Ok(n) => last(rt, &input[..n], &mut work),
        Err(Failed::Unread(error)) => failed(rt, name, error),
        Err(Failed::Unwritten(error)) => failed(rt, b"standard output", error),
    }
}

// What is left at the end.
fn last(rt: &HostRuntime, line: &[u8], work: &mut [u32])
    requires { length work.old ≡ 16384 }
{
    let mut out = [0u8; 65536];
    let size = answer_last(line, work, &mut out);
    print(rt, &out[..size]);
}

fn run_on<R: Read>(rt: &HostRuntime, task: Task, input: &mut R, name: &[u8]) {
    match task {
        Task::One(call) => one(rt, call, input, name),
        Task::Lines => lines(rt, input, name),
    }
}

// The file that the argument at a place names.
fn run_file(rt: &HostRuntime, task: Task, place: usize) {
    let mut path = [0u8; 4096];
    let Some(n) = argument(rt, place, &mut path) else {
        complain(rt, b"the file's name", b"File name too long");
        return;
    };
    let name = &path[..n];
    let Ok(text) = str::from_utf8(name) else {
        complain(rt, name, b"the name of a file has to be UTF-8");
        return;
    };
    match fs::open(rt, text) {
        Ok(mut file) => run_on(rt, task, &mut file, name),
        Err(error) => failed(rt, name, error),
    }
}

// What is done on the file that an argument names, or on standard input.
fn run_task(rt: &HostRuntime, task: Task, file: Option<usize>) {
    match file {
        None => run_on(rt, task, &mut rt.stdin(), b"standard input"),
        Some(place) => run_file(rt, task, place),
    }
}

// What is said of arguments that ask nothing.
fn misused(rt: &HostRuntime, why: Misuse) {
    match why {
        Misuse::UnknownOption => complain_of(
            rt,
            0,
            b"no such option; intake --help says which there are",
        ),
        Misuse::NoPlace => complain_of(rt, 0, b"the place is missing"),
        Misuse::WrongPlace => complain_of(
            rt,
            1,
            b"a place is plain digits below 2^64, without a zero in front",
        ),
        Misuse::Further(place) => complain_of(rt, place, b"one argument too many"),
    }
}

pub fn run(rt: &HostRuntime, asked: Result<Asked, Misuse>) {
    match asked {
        Ok(Asked::Run(task, file)) => run_task(rt, task, file),
        Ok(Asked::Help) => help(rt),
        Ok(Asked::Version) => version(rt),
        Err(why) => misused(rt, why),
    }
}
