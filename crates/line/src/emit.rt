// An answer's line, measured and then written by the same code: where it does not fit, the output is as it was.
ghost use Rattle.std.specs.Prelude.{List, ℕ, ◌≤◌, length};
ghost use Rattle.json_text.specs.Bytes.{Bytes};
ghost use Rattle.writer.specs.Laid.{Laid, Shown};
ghost use Rattle.answers.specs.Line.{number_line};
ghost use Rattle.writer.specs.Meaning.{Held, meaning};
ghost use Rattle.answers.specs.Reply.{form_of, or_empty};
ghost use Rattle.line.specs.Emitted.{Cased, Emitted};

use crate::reply::Reply;
use forms::form::{
    guard_unknown, kept, not_a_source, refused, refused_text, rule_false, rule_unknown, truth,
};
use writer::answer::{Answer, Rules};
use writer::lay::Output;

// The form of an answer; nothing where it has none. Numbers that stand here and in forms are text of the line.
fn form(out: &mut Output, s: &[u8], work: &[u32], a: Answer)
    requires { Held s.now work.now a }
    ensures { Laid out.old (or_empty (form_of (meaning s.now work.now a))) out.new }
{
    match a {
        Answer::True => truth(out, s, work, b"true"),
        Answer::False => truth(out, s, work, b"false"),
        Answer::Unknown => truth(out, s, work, b"unknown"),
        Answer::Passed => out.bytes(b"(passed)"),
        Answer::Selected(outcome) => kept(out, s, b"selected", outcome),
        Answer::Admitted(outcome) => kept(out, s, b"admitted", outcome),
        Answer::NoInput => {}
        Answer::UnknownExpression(text) => refused_text(out, s, 13, text),
        Answer::NoId => out.bytes(b"(refused 14 \"$id\")"),
        Answer::RuleFalse(rule) => rule_false(out, s, rule),
        Answer::RuleUnknown(rule) => rule_unknown(out, s, work, rule),
        Answer::NoOutcome => out.bytes(b"(refused 19)"),
        Answer::GuardUnknown(outcome) => guard_unknown(out, s, work, outcome),
        Answer::WrongState(text) => refused_text(out, s, 21, text),
        Answer::NotASource(m) => not_a_source(out, s, work, m),
    }
}

// The case of an answer, with the length of its line where it has one.
fn reply(a: Answer, size: usize) -> Reply
    ensures { (s : Bytes) (w : List ℕ) → Cased (meaning s w a) size result }
{
    match a {
        Answer::True
        | Answer::False
        | Answer::Unknown
        | Answer::Passed
        | Answer::Selected(_)
        | Answer::Admitted(_) => Reply::Line(size),
        Answer::NoInput => Reply::NoInput,
        Answer::UnknownExpression(_) => Reply::UnknownExpression(size),
        Answer::NoId => Reply::NoId(size),
        Answer::RuleFalse(rule) => match rule.rules {
            Rules::Preconditions => Reply::PreconditionFalse(size),
            Rules::Invariants => Reply::InvariantFalse(size),
        },
        Answer::RuleUnknown(rule) => match rule.rules {
            Rules::Preconditions => Reply::PreconditionUnknown(size),
            Rules::Invariants => Reply::InvariantUnknown(size),
        },
        Answer::NoOutcome => Reply::NoOutcome(size),
        Answer::GuardUnknown(_) => Reply::GuardUnknown(size),
        Answer::WrongState(_) => Reply::WrongState(size),
        Answer::NotASource(_) => Reply::NotASource(size),
    }
}

// The case of an answer, and its line at the start of the output; or the case of a line that is too long for it.
pub fn emit(s: &[u8], work: &[u32], out: &mut [u8], a: Answer) -> Reply
    requires { Held s.now work.now a }
    ensures { Emitted s.now work.now a out.old out.new result }
{
    if let Answer::NoInput = a {
        return Reply::NoInput;
    }
    let mut measure = Output::new(&mut []);
    form(&mut measure, s, work, a);
    let size = measure.count();
    if out.len() <= size {
        return Reply::LineTooLong;
    }
    let mut line = Output::new(out);
    form(&mut line, s, work, a);
    line.byte(b'\n');
    reply(a, size + 1)
}

// The line of a number by itself, for a program that shows one where a call has written none.
pub fn number_line(out: &mut [u8], n: usize) -> usize
    requires { 32 ≤ length out.old }
    ensures { Shown (number_line n) out.old out.new result }
{
    let mut line = Output::new(out);
    refused(&mut line, n);
    line.bytes(b")\n");
    line.count()
}
