// What is printed for a call on the bytes of a sheet: the line, or `(refused N)` where there is none.
ghost use Rattle.std.specs.Prelude.{◌≡◌, length};
ghost use Rattle.writer.specs.Laid.{Shown};
ghost use Rattle.printing.specs.Printed.{answer_to};

use calling::Call;
use decision::call::run;
use line::emit::number_line;

// What is to be printed, at the start of the output.
pub fn answer(call: Call, sheet: &[u8], work: &mut [u32], out: &mut [u8]) -> usize
    requires { (length work.old ≡ 16384) × (length out.old ≡ 65536) }
    ensures { Shown (answer_to call sheet.now) out.old out.new result }
{
    let reply = run(sheet, work, out, call);
    match reply.size() {
        Some(size) => size,
        None => number_line(out, reply.number()),
    }
}
