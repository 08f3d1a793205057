// The pair forms on two present operands, by a match on the operator.
ghost use Rattle.std.specs.Prelude.{Bool, false, true, ℕ, ◌≡◌, ◌≤◌};
ghost use Prim.Native.Nat.{Ordering as NatOrdering};
ghost use Rattle.json_text.specs.Bytes.{Bytes, is_one_of};
ghost use Rattle.json_text.specs.Cursor.{OnText};
ghost use Rattle.json_text.specs.Links.{Linked};
ghost use Rattle.json_text.specs.Spans.{text_at};
ghost use Rattle.members.specs.Answers.{form_of};
ghost use Rattle.members.specs.Condition.{contains, is_in};
ghost use Rattle.operands.specs.Told.{Finds, Orders, TextsTold};
ghost use Rattle.paths.specs.Comparing.{alike, holds_of, nesting};
ghost use Rattle.paths.specs.Layered.{each_node, kids, part_at};
ghost use Rattle.paths.specs.Matched.{Holds, NumbersTold, names_of};
ghost use Rattle.paths.specs.Ready.{Ready};
ghost use Rattle.members.specs.Sheet.{sheet_in};
ghost use Rattle.paths.specs.Shape.{one_alike};
ghost use Rattle.paths.specs.Stored.{OperandAt, Room, frames_of, operand_of, table};

use crate::equal::equal_at;
use members::told::Form;
use paths::children::Children;
use paths::operand::Operand;
use paths::rows::start_at;
use paths::scope::Scope;
use resolving::layer::{number_order, part_of, text_place};
use search::end::ends_with;
use search::part::has_part;
use search::start::starts_with;
use std::cmp::Ordering;
use strings::rows::Kind;
use strings::text::same;

// Whether an element of an array equals an operand.
fn is_element(
    s: &[u8],
    work: &[u32],
    scope: &Scope,
    o: Operand,
    whole: Operand,
    left: usize,
) -> bool
    requires { Ready s.now work.now scope.now.roots scope.now.frames × OperandAt s.now (table work.now) o × Holds s.now (table work.now) false whole.node }
    ensures { result ≡ one_alike (alike (sheet_in s.now) left (frames_of s.now (table work.now) scope.now.frames)) (operand_of s.now (table work.now) o) (each_node (part_at (sheet_in s.now) s.now (table work.now) (frames_of s.now (table work.now) scope.now.frames) whole) (kids s.now (table work.now) whole.node false)) }
{
    let mut c = Children::of(work, whole.node, false);
    while let Some(x) = c.next(work) {
        let part = part_of(s, work, scope, whole, x.node);
        if equal_at(s, work, scope, part, o, left) {
            return true;
        }
        c = x.rest;
    }
    false
}

// Whether a text is the name of a member.
fn has_key(s: &[u8], work: &[u32], node: usize, key: usize) -> bool
    requires { Room work.now 0 × OnText s.now key 0 × Holds s.now (table work.now) true node × Linked s.now (table work.now) }
    ensures { result ≡ is_one_of (text_at s.now key) (names_of s.now (table work.now) (kids s.now (table work.now) node true)) }
{
    let mut c = Children::of(work, node, true);
    while let Some(x) = c.next(work) {
        if same(s, key, start_at(work, x.node)) {
            return true;
        }
        c = x.rest;
    }
    false
}

// Whether both are numbers, in an order that passes a test.
fn two_numbers<F: Fn(Ordering) -> bool>(
    s: &[u8],
    work: &[u32],
    a: Operand,
    b: Operand,
    test: F,
) -> bool
    requires operands { Room work.now 0 × OperandAt s.now (table work.now) a × OperandAt s.now (table work.now) b }
    requires test { F.IsAlwaysCallable test }
    ensures { (p : NatOrdering → Bool) → Orders (F.post test) p → NumbersTold s.now (table work.now) a b p result }
{
    match (a.kind.class(), b.kind.class()) {
        (Kind::Number, Kind::Number) => test(number_order(s, work, a.node, b.node)),
        _ => false,
    }
}

// Whether both are texts, and a search finds the second in the first.
fn two_texts<F: Fn(&[u8], usize, usize) -> bool>(
    s: &[u8],
    work: &[u32],
    a: Operand,
    b: Operand,
    find: F,
) -> bool
    requires operands { Room work.now 0 × OperandAt s.now (table work.now) a × OperandAt s.now (table work.now) b }
    requires find { (text part : ℕ) → OnText s.now text 0 → OnText s.now part 0 → F.pre find s text part }
    ensures { (p : Bytes → Bytes → Bool) → Finds s.now (F.post find s.entry) p → TextsTold s.now (table work.now) a b p result }
{
    match (a.kind.class(), b.kind.class()) {
        (Kind::Text, Kind::Text) => find(s, text_place(s, work, a), text_place(s, work, b)),
        _ => false,
    }
}

// How deep equality may have to look: more brackets than two operands under so many frames can have.
fn nesting(depth: usize) -> usize
    requires { depth ≤ 32 }
    ensures { result ≡ nesting depth }
{
    64 * (depth + 2) + 1
}

// Array and element, text and part, object and key; else false.
fn contains(s: &[u8], work: &[u32], scope: &Scope, a: Operand, b: Operand) -> bool
    requires { Ready s.now work.now scope.now.roots scope.now.frames × OperandAt s.now (table work.now) a × OperandAt s.now (table work.now) b }
    ensures { result ≡ holds_of (sheet_in s.now) (frames_of s.now (table work.now) scope.now.frames) contains (operand_of s.now (table work.now) a) (operand_of s.now (table work.now) b) }
{
    match (a.kind.class(), b.kind.class()) {
        (Kind::Text, _) => two_texts(s, work, a, b, has_part),
        (Kind::Array, _) => is_element(s, work, scope, b, a, nesting(scope.frames.depth)),
        (Kind::Object, Kind::Text) => has_key(s, work, a.node, text_place(s, work, b)),
        _ => false,
    }
}

// An array's element; without an array false.
fn is_in(s: &[u8], work: &[u32], scope: &Scope, a: Operand, b: Operand) -> bool
    requires { Ready s.now work.now scope.now.roots scope.now.frames × OperandAt s.now (table work.now) a × OperandAt s.now (table work.now) b }
    ensures { result ≡ holds_of (sheet_in s.now) (frames_of s.now (table work.now) scope.now.frames) is_in (operand_of s.now (table work.now) a) (operand_of s.now (table work.now) b) }
{
    match b.kind.class() {
        Kind::Array => is_element(s, work, scope, a, b, nesting(scope.frames.depth)),
        _ => false,
    }
}

pub fn holds(s: &[u8], work: &[u32], scope: &Scope, form: Form, a: Operand, b: Operand) -> bool
    requires { Ready s.now work.now scope.now.roots scope.now.frames × OperandAt s.now (table work.now) a × OperandAt s.now (table work.now) b }
    ensures { result ≡ holds_of (sheet_in s.now) (frames_of s.now (table work.now) scope.now.frames) (form_of form) (operand_of s.now (table work.now) a) (operand_of s.now (table work.now) b) }
{
    // a match on the operator, which is the form that the paper names
    match form {
        Form::Eq => equal_at(s, work, scope, a, b, nesting(scope.frames.depth)),
        Form::Ne => !equal_at(s, work, scope, a, b, nesting(scope.frames.depth)),
        Form::Gt => two_numbers(s, work, a, b, Ordering::is_gt),
        Form::Gte => two_numbers(s, work, a, b, Ordering::is_ge),
        Form::Lt => two_numbers(s, work, a, b, Ordering::is_lt),
        Form::Lte => two_numbers(s, work, a, b, Ordering::is_le),
        Form::In => is_in(s, work, scope, a, b),
        Form::Contains => contains(s, work, scope, a, b),
        Form::StartsWith => two_texts(s, work, a, b, starts_with),
        Form::EndsWith => two_texts(s, work, a, b, ends_with),
    }
}
