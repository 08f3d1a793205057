// How each of the six calls on a sheet's bytes runs.
ghost use Rattle.std.specs.Prelude.{◌≤◌, length};
ghost use Rattle.rules.specs.Told.{Answered};
ghost use Rattle.sheet.specs.Accepted.{Accepted, Known};
ghost use Rattle.members.specs.Condition.{Condition};
ghost use Rattle.members.specs.Sheet.{Sheet};
ghost use Rattle.opening.specs.Opening.{why_not};
ghost use Rattle.decision.specs.Called.{Called, Refuses};
ghost use Rattle.decision.specs.Calls.{call_of, verdict_of};

use calling::Call;
use calls::call::{admit_call, decide_call, evaluate_call, rules_call, select_call};
use line::emit::emit;
use line::reply::Reply;
use opening::open::{NotOpened, open};
use opening::work::{clear, clear_rows};
use sheet::shape::{Members, Misshapen};
use strings::answer::Refusal;
use writer::answer::{Answer, Rules};

// The call on an accepted sheet.
fn answer(s: &[u8], work: &mut [u32], m: Members, call: Call) -> Answer
    requires { (16384 ≤ length work.old) × Known (Accepted s.now work.old m) }
    ensures { (sheet : Sheet Condition) → Accepted s.now work.old m sheet → Answered s.now work.old work.new (verdict_of call sheet) result }
{
    match call {
        Call::Evaluate => evaluate_call(s, work, m),
        Call::Preconditions => rules_call(s, work, m, Rules::Preconditions),
        Call::Invariants => rules_call(s, work, m, Rules::Invariants),
        Call::Select => select_call(s, work, m),
        Call::Admit(place) => admit_call(s, work, m, place),
        Call::Decide => decide_call(s, work, m),
    }
}

// The case of a sheet that was refused on opening it; no From, since both types are other crates'.
#[tactic(auto, unfolding(line::specs::Replies::number_of, line::specs::Replies::length_of, answers::specs::Line::refusal_number))]
fn refused(why: NotOpened) -> Reply
    ensures { Refuses (why_not why) result }
{
    match why {
        NotOpened::Unread(Refusal::WorkTooSmall) => Reply::WorkTooSmall,
        NotOpened::Unread(Refusal::TooLong) => Reply::TooLong,
        NotOpened::Unread(Refusal::NotUtf8) => Reply::NotUtf8,
        NotOpened::Unread(Refusal::NotJson) => Reply::NotJson,
        NotOpened::Unread(Refusal::TooDeep) => Reply::TooDeep,
        NotOpened::Unread(Refusal::NumberTooLong) => Reply::NumberTooLong,
        NotOpened::Unread(Refusal::TooManyNodes) => Reply::TooManyNodes,
        NotOpened::Unread(Refusal::RepeatedName) => Reply::RepeatedName,
        NotOpened::Misshapen(Misshapen::WrongSheet) => Reply::WrongSheet,
        NotOpened::Misshapen(Misshapen::WrongShape) => Reply::WrongShape,
        NotOpened::Misshapen(Misshapen::NotCarried) => Reply::NotCarried,
    }
}

// The call on any bytes: refused on opening them, or answered on the sheet that they spell.
pub fn run(sheet: &[u8], work: &mut [u32], out: &mut [u8], call: Call) -> Reply
    ensures { Called (call_of call sheet.now (length work.old) (length out.old)) work.old work.new out.old out.new result }
{
    match open(sheet, work) {
        Err(why) => {
            clear(work);
            refused(why)
        }
        Ok(m) => {
            let a = answer(sheet, work, m, call);
            let reply = emit(sheet, work, out, a);
            clear_rows(work);
            reply
        }
    }
}
