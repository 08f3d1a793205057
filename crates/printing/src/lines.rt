// The answers to the lines of an input, as many as there is room for. A line that lies whole in the input is decided where it lies.
ghost use Rattle.std.specs.Prelude.{◌≡◌, ◌+◌, ◌≤◌, drop, length};
ghost use Rattle.writer.specs.Laid.{Shown};
ghost use Rattle.printing.specs.Lines.{each, last_line, line_length};
ghost use Rattle.printing.specs.Progress.{Advanced, Kept};

use crate::call::answer;
use calling::Call;

// How far the input was answered, how many bytes the answers have, and whether no whole line is left. A flag and no Option: how far and how many is
// said in both cases.
#[derive(Clone, Copy)]
pub struct Progress {
    pub used: usize,
    pub put: usize,
    pub done: bool,
}

// The place of the first LF from a place on, or the end.
// The end and no None: a line is as long as what stands before its LF, or as all that is left, as `line_length` has it.
fn line_end(text: &[u8], from: usize) -> usize
    requires { from ≤ length text.now }
    ensures { result ≡ from + line_length (drop from text.now) }
{
    match text[from..].iter().position(|c| *c == b'\n') {
        Some(n) => from + n,
        None => text.len(),
    }
}

// Answers the lines that have their LF in the input, while the output has room for any answer.
pub fn answer_lines(input: &[u8], work: &mut [u32], out: &mut [u8]) -> Progress
    requires { (length work.old ≡ 16384) × (65536 ≤ length out.old) }
    ensures { Advanced input.now out.new result }
{
    let mut used = 0;
    let mut put = 0;
    // each turn goes on by its line and by its answer: no range counts these
    while 65536 <= out.len() - put {
        let stop = line_end(input, used);
        if stop == input.len() {
            return Progress {
                used,
                put,
                done: true,
            };
        }
        let end = put + 65536;
        put += answer(Call::Decide, &input[used..stop], work, &mut out[put..end]);
        used = stop + 1;
    }
    Progress {
        used,
        put,
        done: false,
    }
}

// Answers what is left at the end of the input: a line without LF, or nothing.
pub fn answer_last(line: &[u8], work: &mut [u32], out: &mut [u8]) -> usize
    requires { (length work.old ≡ 16384) × (length out.old ≡ 65536) }
    ensures { Shown (each (last_line line.now)) out.old out.new result }
{
    if line.is_empty() {
        return 0;
    }
    answer(Call::Decide, line, work, out)
}

// Moves the bytes from a place up to an end to the start, as many of them as tell an overlong line, and answers how many that are.
pub fn keep(input: &mut [u8], from: usize, end: usize) -> usize
    requires { (from ≤ end) × (end ≤ length input.old) }
    ensures { Kept input.old from end input.new result }
{
    let n = (end - from).min(32769);
    input.copy_within(from..from + n, 0);
    n
}
