// The program: what its arguments ask, of a file or of standard input. It has no exit status: what went wrong is said on standard error, and then
// no further line stands on standard output.
#![tactic(auto)]

mod input;
mod output;
mod run;
mod said;

use arguments::asked::read;
use run::run;
use said::{argument, complain, count};

fn main(rt: HostRuntime) {
    let mut first = [0u8; 4096];
    let Some(a) = argument(&rt, 0, &mut first) else {
        complain(&rt, b"the first argument", b"too long");
        return;
    };
    let mut second = [0u8; 4096];
    let Some(b) = argument(&rt, 1, &mut second) else {
        complain(&rt, b"the second argument", b"too long");
        return;
    };
    run(&rt, read(count(&rt), &first[..a], &second[..b]));
}
