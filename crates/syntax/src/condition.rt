// Conditions: the refusals 10 and 11. A condition's own fault comes before those inside.
ghost use Rattle.std.specs.Prelude.{◌≡◌, length, option_map};
ghost use Rattle.json_text.specs.Bytes.{find};
ghost use Rattle.json_text.specs.Cursor.{OnText};
ghost use Rattle.json_text.specs.Held.{AreMembers, AreNodes, IsNode};
ghost use Rattle.json_text.specs.Json.{elements, entries};
ghost use Rattle.json_text.specs.Spans.{text_at};
ghost use Rattle.json_text.specs.Table.{members_at, value_at, values_at};
ghost use Rattle.members.specs.Answers.{fault_is, operator_of};
ghost use Rattle.members.specs.Condition.{condition, condition_array, operators};
ghost use Rattle.syntax.specs.Names.{Names};
ghost use Rattle.members.specs.Faults.{pair_fault, quantifier_fault};
ghost use Rattle.members.specs.Verdicts.{fault_of};

use members::member::named;
use members::told::{Fault, Form, Mode, Operator};
use members::word::{first_byte, is_word, is_word_by_first};
use strings::rows::{Elements, Keys, Kind, after_at, kind_at, start_at};

// Every operator by its name.
const OPERATORS: [(&[u8], Operator); 20] = [
    (b"all", Operator::Junction(Mode::Every)),
    (b"any", Operator::Junction(Mode::Any)),
    (b"not", Operator::Negation),
    (b"exists", Operator::Exists),
    (b"eq", Operator::Pair(Form::Eq)),
    (b"ne", Operator::Pair(Form::Ne)),
    (b"gt", Operator::Pair(Form::Gt)),
    (b"gte", Operator::Pair(Form::Gte)),
    (b"lt", Operator::Pair(Form::Lt)),
    (b"lte", Operator::Pair(Form::Lte)),
    (b"in", Operator::Pair(Form::In)),
    (b"contains", Operator::Pair(Form::Contains)),
    (b"starts_with", Operator::Pair(Form::StartsWith)),
    (b"ends_with", Operator::Pair(Form::EndsWith)),
    (b"for_all", Operator::Quantified(Mode::Every)),
    (b"for_any", Operator::Quantified(Mode::Any)),
    (b"before", Operator::NotCarried),
    (b"after", Operator::NotCarried),
    (b"compare", Operator::NotCarried),
    (b"truthy", Operator::NotCarried),
];

// The operator that a table has under a text.
fn operator_in(s: &[u8], at: usize, table: &[(&[u8], Operator)]) -> Option<Operator>
    requires { OnText s.now at 0 }
    ensures { (named : _) → Names table.now named → find (text_at s.now at) named ≡ option_map operator_of result }
{
    let first = first_byte(s, at);
    for (word, operator) in table {
        if is_word_by_first(s, at, first, word) {
            return Some(*operator);
        }
    }
    None
}

// The operator that a text names. Those that stand late in the table and are met at every element of a collection are told by
// their first byte, with which nested quantifiers take 0.85 times the instructions.
pub fn operator_at(s: &[u8], at: usize) -> Option<Operator>
    requires { OnText s.now at 0 }
    ensures { find (text_at s.now at) operators ≡ option_map operator_of result }
{
    match s[at] {
        b'e' if is_word(s, at, b"eq") => Some(Operator::Pair(Form::Eq)),
        b'f' if is_word(s, at, b"for_all") => Some(Operator::Quantified(Mode::Every)),
        b'f' if is_word(s, at, b"for_any") => Some(Operator::Quantified(Mode::Any)),
        b'g' if is_word(s, at, b"gt") => Some(Operator::Pair(Form::Gt)),
        b'g' if is_word(s, at, b"gte") => Some(Operator::Pair(Form::Gte)),
        b'l' if is_word(s, at, b"lt") => Some(Operator::Pair(Form::Lt)),
        b'l' if is_word(s, at, b"lte") => Some(Operator::Pair(Form::Lte)),
        _ => operator_in(s, at, &OPERATORS),
    }
}

// How many members stand from `from` up to `end`. Not one function with `count_elements`: its contract would be these two by cases.
pub fn count_members(s: &[u8], work: &[u32], from: usize, end: usize) -> usize
    requires { AreMembers s.now work.now 64 from end }
    ensures { result ≡ length (entries (members_at s.now work.now from end)) }
{
    Keys::new(work, from, end).count()
}

// How many elements stand from `from` up to `end`, counted along the rows as members are.
pub fn count_elements(s: &[u8], work: &[u32], from: usize, end: usize) -> usize
    requires { AreNodes s.now work.now 64 from end }
    ensures { result ≡ length (elements (values_at s.now work.now from end)) }
{
    Elements::new(work, from, end).count()
}

// The fault of a pair form that holds the node: exactly two operands.
pub fn pair_fault(s: &[u8], work: &[u32], node: usize) -> Result<(), Fault>
    requires { IsNode s.now work.now 64 node }
    ensures { pair_fault (value_at s.now work.now node) ≡ fault_is result }
{
    if kind_at(work, node) == Kind::Array
        && count_elements(s, work, node + 1, after_at(work, node)) == 2
    {
        Ok(())
    } else {
        Err(Fault::Shape)
    }
}

// The fault of a condition that begins first, the condition's own or one inside; `left` brackets may open in it.
#[cycle(condition_conditions_quantifier)]
pub fn condition(s: &[u8], work: &[u32], node: usize, left: usize) -> Result<(), Fault>
    requires { IsNode s.now work.now left node }
    ensures { fault_of (condition (value_at s.now work.now node)) ≡ fault_is result }
{
    match kind_at(work, node) {
        Kind::True | Kind::False => return Ok(()),
        Kind::Object => {}
        _ => return Err(Fault::Shape),
    }
    let from = node + 1;
    let end = after_at(work, node);
    if count_members(s, work, from, end) != 1 {
        return Err(Fault::Shape);
    }
    let inner = from + 1;
    match operator_at(s, start_at(work, from)).ok_or(Fault::Shape)? {
        Operator::Junction(_) => conditions(s, work, inner, left - 1),
        Operator::Negation => condition(s, work, inner, left - 1),
        Operator::Exists => Ok(()),
        Operator::Pair(_) => pair_fault(s, work, inner),
        Operator::Quantified(_) => quantifier(s, work, inner, left - 1),
        Operator::NotCarried => Err(Fault::NotCarried),
    }
}

// The first fault of the conditions in an array, or that it is none.
#[cycle(condition_conditions_quantifier)]
pub fn conditions(s: &[u8], work: &[u32], node: usize, left: usize) -> Result<(), Fault>
    requires { IsNode s.now work.now left node }
    ensures { fault_of (condition_array (value_at s.now work.now node)) ≡ fault_is result }
{
    if kind_at(work, node) != Kind::Array {
        return Err(Fault::Shape);
    }
    let end = after_at(work, node);
    for k in Elements::new(work, node + 1, end) {
        condition(s, work, k, left - 1)?;
    }
    Ok(())
}

// The fault of a quantifier that holds the node: exactly `in`, `as` and `that`, of which the second is a text and the third a condition.
#[cycle(condition_conditions_quantifier)]
pub fn quantifier(s: &[u8], work: &[u32], node: usize, left: usize) -> Result<(), Fault>
    requires { IsNode s.now work.now left node }
    ensures { quantifier_fault (value_at s.now work.now node) ≡ fault_is result }
{
    if kind_at(work, node) != Kind::Object {
        return Err(Fault::Shape);
    }
    let from = node + 1;
    let end = after_at(work, node);
    if count_members(s, work, from, end) != 3 {
        return Err(Fault::Shape);
    }
    named(s, work, from, end, b"in").ok_or(Fault::Shape)?;
    let bind = named(s, work, from, end, b"as").ok_or(Fault::Shape)?;
    let body = named(s, work, from, end, b"that").ok_or(Fault::Shape)?;
    if kind_at(work, bind) != Kind::Text {
        return Err(Fault::Shape);
    }
    condition(s, work, body, left - 1)
}
