// What goes to standard output: answers, and texts about the program.
use crate::said::failed;
use std::io;

pub fn print(rt: &HostRuntime, text: &[u8]) {
    if let Err(error) = rt.write_all(text) {
        failed(rt, b"standard output", error);
    }
}

pub fn version(rt: &HostRuntime) {
    print(rt, b"intake 0.1.0\n");
}

pub fn help(rt: &HostRuntime) {
    if let Err(error) = write_help(rt) {
        failed(rt, b"standard output", error);
    }
}

fn write_help(rt: &impl Print) -> io::Result<()> {
    rt.write_all(b"usage: intake [FILE]\n")?;
    rt.write_all(b"       intake CALL [FILE]\n")?;
    rt.write_all(b"       intake admit PLACE [FILE]\n")?;
    rt.write_all(b"       intake lines [FILE]\n")?;
    rt.write_all(b"       intake --help | --version\n\n")?;
    rt.write_all(
        b"Reads a JSON sheet from FILE, or from standard input, and prints one line.\n\n",
    )?;
    rt.write_all(b"  evaluate       the truth of the sheet's condition\n")?;
    rt.write_all(b"  preconditions  whether the preconditions hold\n")?;
    rt.write_all(b"  invariants     whether the invariants hold\n")?;
    rt.write_all(b"  select         the outcome that is selected\n")?;
    rt.write_all(
        b"  admit PLACE    whether the outcome at PLACE (plain digits, 0 the first) is kept\n",
    )?;
    rt.write_all(
        b"  decide         preconditions, select, admit; this is done where no call is named\n",
    )?;
    rt.write_all(
        b"  lines          decides the sheet on each line of the input, and prints a line for each\n\n",
    )?;
    rt.write_all(
        b"A file whose name is one of these words, or begins with -, is named ./NAME where it comes first.\n",
    )?;
    rt.write_all(
        b"Where a call gives no line, (refused N) is printed; the man page lists the numbers.\n",
    )?;
    rt.write_all(
        b"There is no exit status: it is 0 unless a signal ends the program. What goes wrong is said on standard\n",
    )?;
    rt.write_all(b"error, and then no further line is printed.\n")
}
