// The static library for C and Rust (include/intake.h): each call under the name that C links. A slice crosses as a pointer and a length.
#![tactic(auto)]

ghost use Rattle.std.specs.Prelude.{◌≡◌, length};
ghost use Rattle.answers.specs.Entry.{admit, check_invariants, check_preconditions, decide, evaluate, select};
ghost use Rattle.exports.specs.Exported.{Exported};
ghost use Rattle.exports.specs.Version.{version};

use calling::Call;
use exports::call_word;

// The six differ in their Call alone: C links each by its own name.

// The truth of the sheet's condition, with its names.
#[unsafe(no_mangle)]
pub extern "C" fn intake_evaluate(sheet: &[u8], work: &mut [u32], out: &mut [u8]) -> u64
    ensures { Exported (evaluate sheet.now (length work.old) (length out.old)) work.old work.new out.old out.new result }
{
    call_word(sheet, work, out, Call::Evaluate)
}

// Whether the preconditions hold.
#[unsafe(no_mangle)]
pub extern "C" fn intake_preconditions(sheet: &[u8], work: &mut [u32], out: &mut [u8]) -> u64
    ensures { Exported (check_preconditions sheet.now (length work.old) (length out.old)) work.old work.new out.old out.new result }
{
    call_word(sheet, work, out, Call::Preconditions)
}

// Whether the invariants hold.
#[unsafe(no_mangle)]
pub extern "C" fn intake_invariants(sheet: &[u8], work: &mut [u32], out: &mut [u8]) -> u64
    ensures { Exported (check_invariants sheet.now (length work.old) (length out.old)) work.old work.new out.old out.new result }
{
    call_word(sheet, work, out, Call::Invariants)
}

// The first eligible outcome whose guard holds.
#[unsafe(no_mangle)]
pub extern "C" fn intake_select(sheet: &[u8], work: &mut [u32], out: &mut [u8]) -> u64
    ensures { Exported (select sheet.now (length work.old) (length out.old)) work.old work.new out.old out.new result }
{
    call_word(sheet, work, out, Call::Select)
}

// Whether the outcome at a place is kept in the sheet's state.
#[unsafe(no_mangle)]
pub extern "C" fn intake_admit(place: u64, sheet: &[u8], work: &mut [u32], out: &mut [u8]) -> u64
    ensures { Exported (admit place sheet.now (length work.old) (length out.old)) work.old work.new out.old out.new result }
{
    call_word(sheet, work, out, Call::Admit(place as usize))
}

// The whole decision: preconditions, selection, admission.
#[unsafe(no_mangle)]
pub extern "C" fn intake_decide(sheet: &[u8], work: &mut [u32], out: &mut [u8]) -> u64
    ensures { Exported (decide sheet.now (length work.old) (length out.old)) work.old work.new out.old out.new result }
{
    call_word(sheet, work, out, Call::Decide)
}

// The library's version.
#[unsafe(no_mangle)]
pub extern "C" fn intake_version() -> u32
    ensures { result ≡ version }
{
    exports::intake_version()
}
