// The calls for C and Rust (include/intake.h). The crate exports_c gives them to C.
#![tactic(auto)]

ghost use Rattle.std.specs.Prelude.{◌≡◌, ◌<◌, length};
ghost use Rattle.decision.specs.Calls.{call_of};
ghost use Rattle.line.specs.Replies.{number_of, size_of};
ghost use Rattle.exports.specs.Exported.{Exported, word_of};
ghost use Rattle.exports.specs.Version.{version};

use calling::Call;
use decision::call::run;
use line::reply::Reply;

// The number of an answer and the bytes of its line in one word, 0 where it has none: C reads it so.
fn word_of(reply: Reply) -> u64
    requires { size_of reply < 4294967296 }
    ensures { result ≡ word_of (number_of reply) (size_of reply) }
{
    reply.number() as u64 * 4294967296 + reply.size().unwrap_or(0) as u64
}

// A call, its answer in one word.
pub fn call_word(sheet: &[u8], work: &mut [u32], out: &mut [u8], call: Call) -> u64
    ensures { Exported (call_of call sheet.now (length work.old) (length out.old)) work.old work.new out.old out.new result }
{
    word_of(run(sheet, work, out, call))
}

// The library's version.
pub fn intake_version() -> u32
    ensures { result ≡ version }
{
    100
}
