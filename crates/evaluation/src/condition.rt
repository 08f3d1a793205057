// Conditions: their truth, with the names marked. Evaluation and quantifier call each other, and the brackets that are left fall.
ghost use Rattle.std.specs.Prelude.{◌∷◌, ◌≡◌, ◌+◌, ◌*◌, ◌<◌, ◌≤◌};
ghost use Rattle.json_text.specs.Cursor.{OnText};
ghost use Rattle.json_text.specs.Held.{HasNode};
ghost use Rattle.json_text.specs.Limits.{depth};
ghost use Rattle.json_text.specs.Spans.{text_at};
ghost use Rattle.json_text.specs.Table.{after_at};
ghost use Rattle.semantics.specs.Told.{truth_of};
ghost use Rattle.semantics.specs.Truth.{join, settles, start};
ghost use Rattle.sheet.specs.Accepted.{ConditionsGive, Gives, Known};
ghost use Rattle.members.specs.Answers.{mode_of};
ghost use Rattle.members.specs.Condition as conditions;
ghost use Rattle.members.specs.Condition.{Condition, Conditions, condition};
ghost use Rattle.paths.specs.Layered.{part_at};
ghost use Rattle.paths.specs.Ready.{Ready};
ghost use Rattle.members.specs.Sheet.{sheet_in};
ghost use Rattle.paths.specs.Stored.{HasKind, OperandAt, Room, frames_of, operand_of, table, tree};
ghost use Rattle.comparison.specs.Answers.{EvaluatedAs};
ghost use Rattle.evaluation.specs.Conditions.{QuantifierAt, QuantifierParts, each_of};
ghost use Rattle.comparison.specs.Judge.{judge, judge_all};

use comparison::comparison::{exists_at, pair_at};
use members::member::named;
use members::told::{Mode, Operator};
use paths::children::Children;
use paths::frames::Frame;
use paths::operand::{EvalError, Operand};
use paths::rows::{after_at, kind_at, start_at};
use paths::scope::Scope;
use resolving::layer::{part_of, value_node};
use resolving::resolve::resolve;
use semantics::truth::Truth;
use strings::rows::Kind;
use syntax::condition::operator_at;

// A quantifier: how its truths are joined, the node of what it goes over, the place of its binder's name, and the node of its body.
#[derive(Clone, Copy)]
pub struct Quantifier {
    pub mode: Mode,
    pub over: usize,
    pub name: usize,
    pub body: usize,
}

fn quantifier_at(s: &[u8], work: &[u32], mode: Mode, node: usize) -> Quantifier
    requires { Room work.now node × Known (λ (m : conditions.Mode). Known (QuantifierAt s.now (table work.now) m node)) }
    ensures joins { result.mode ≡ mode }
    ensures parts { (m : conditions.Mode) (c : Condition) → QuantifierAt s.now (table work.now) m node c → QuantifierParts s.now (table work.now) m node result c }
{
    let end = after_at(work, node);
    // all three are there, since the sheet's shape was checked: the 0 is never read, and with an Option `quantify` would have to open what is always there
    let bind = named(s, work, node + 1, end, b"as").unwrap_or(0);
    Quantifier {
        mode,
        over: named(s, work, node + 1, end, b"in").unwrap_or(0),
        name: start_at(work, bind),
        body: named(s, work, node + 1, end, b"that").unwrap_or(0),
    }
}

// What an empty collection gives.
// Three functions and no methods: `Mode` is another crate's type, and a trait for it alone would be no plainer. A match and no closures: how a collection
// begins, is joined and is settled go together.
fn start(mode: Mode) -> Truth
    ensures { truth_of result ≡ start (mode_of mode) }
{
    match mode {
        Mode::Every => Truth::True,
        Mode::Any => Truth::False,
    }
}

// Two truths of a collection as one.
fn join(mode: Mode, a: Truth, b: Truth) -> Truth
    ensures { truth_of result ≡ join (mode_of mode) (truth_of a) (truth_of b) }
{
    match mode {
        Mode::Every => a.and(b),
        Mode::Any => a.or(b),
    }
}

// Whether a truth settles a whole collection.
fn settles(mode: Mode, t: Truth) -> bool
    ensures { result ≡ settles (mode_of mode) (truth_of t) }
{
    match mode {
        Mode::Every => t == Truth::False,
        Mode::Any => t == Truth::True,
    }
}

// A condition: a literal, or what its one member's name asks for.
#[cycle(each_evaluate_junction_quantify_with_part)]
pub fn evaluate(
    s: &[u8],
    work: &mut [u32],
    scope: &Scope,
    node: usize,
    left: usize,
) -> Result<Truth, EvalError>
    requires { Ready s.now work.old scope.now.roots scope.now.frames × (2 * scope.now.frames.depth + left ≤ 64) × Known (Gives condition s.now (table work.old) node) × (depth (tree s.now (table work.old) node) ≤ left) }
    ensures { (c : Condition) → Gives condition s.now (table work.old) node c → EvaluatedAs s.now work.old work.new result (judge (sheet_in s.now) (frames_of s.now (table work.old) scope.now.frames) c) }
{
    match kind_at(work, node) {
        Kind::True => return Ok(Truth::True),
        Kind::False => return Ok(Truth::False),
        _ => {}
    }
    let name = start_at(work, node + 1);
    let inner = node + 2;
    let left = left - 1;
    // the sheet's shape was checked: its conditions have an operator, and one that is carried, so neither NoId here is ever given; a case of its own would
    // have to be carried on to answers that have no number for it
    let Some(operator) = operator_at(s, name) else {
        return Err(EvalError::NoId);
    };
    match operator {
        Operator::Junction(m) => junction(s, work, scope, m, inner, left),
        Operator::Negation => Ok(evaluate(s, work, scope, inner, left)?.not()),
        Operator::Exists => exists_at(s, work, scope, inner, left),
        Operator::Pair(f) => {
            let second = after_at(work, inner + 1);
            pair_at(s, work, scope, f, inner + 1, second, left)
        }
        Operator::Quantified(m) => quantify(s, work, scope, m, inner, left),
        Operator::NotCarried => Err(EvalError::NoId),
    }
}

// `all` and `any`: every child is evaluated, whatever those before it gave.
#[cycle(each_evaluate_junction_quantify_with_part)]
fn junction(
    s: &[u8],
    work: &mut [u32],
    scope: &Scope,
    mode: Mode,
    node: usize,
    left: usize,
) -> Result<Truth, EvalError>
    requires { Ready s.now work.old scope.now.roots scope.now.frames × (2 * scope.now.frames.depth + left ≤ 64) × HasKind s.now (table work.old) node 5 × Known (ConditionsGive s.now (table work.old) (node + 1) (after_at (table work.old) node)) × (depth (tree s.now (table work.old) node) ≤ left) }
    ensures { (cs : Conditions) → ConditionsGive s.now (table work.old) (node + 1) (after_at (table work.old) node) cs → EvaluatedAs s.now work.old work.new result (judge_all (sheet_in s.now) (frames_of s.now (table work.old) scope.now.frames) (mode_of mode) cs) }
{
    let end = after_at(work, node);
    let mut truth = start(mode);
    let mut k = node + 1;
    // from row to row: each turn marks the table, so no iterator can hold it
    while k < end {
        let t = evaluate(s, work, scope, k, left - 1)?;
        truth = join(mode, truth, t);
        k = after_at(work, k);
    }
    Ok(truth)
}

// What a quantifier goes over is resolved first; where it is missing its names are marked and the truth is unknown.
#[cycle(each_evaluate_junction_quantify_with_part)]
fn quantify(
    s: &[u8],
    work: &mut [u32],
    scope: &Scope,
    mode: Mode,
    node: usize,
    left: usize,
) -> Result<Truth, EvalError>
    requires { Ready s.now work.old scope.now.roots scope.now.frames × (2 * scope.now.frames.depth + left + 1 ≤ 64) × Known (QuantifierAt s.now (table work.old) (mode_of mode) node) × (depth (tree s.now (table work.old) node) ≤ left) }
    ensures { (c : Condition) → QuantifierAt s.now (table work.old) (mode_of mode) node c → EvaluatedAs s.now work.old work.new result (judge (sheet_in s.now) (frames_of s.now (table work.old) scope.now.frames) c) }
{
    let q = quantifier_at(s, work, mode, node);
    match resolve(s, work, scope, q.over, false, left - 1)? {
        Some(o) => each(s, work, scope, q, o, left - 1),
        None => Ok(Truth::Unknown),
    }
}

// The elements of an array by place, the values of an object by ascending key, until one settles; what is no collection is unknown.
#[cycle(each_evaluate_junction_quantify_with_part)]
fn each(
    s: &[u8],
    work: &mut [u32],
    scope: &Scope,
    q: Quantifier,
    o: Operand,
    left: usize,
) -> Result<Truth, EvalError>
    requires { Ready s.now work.old scope.now.roots scope.now.frames × (2 * scope.now.frames.depth + 2 + left ≤ 64) × OperandAt s.now (table work.old) o × OnText s.now q.name 0 × Known (Gives condition s.now (table work.old) q.body) × (depth (tree s.now (table work.old) q.body) ≤ left) }
    ensures { (c : Condition) → Gives condition s.now (table work.old) q.body c → EvaluatedAs s.now work.old work.new result (each_of (sheet_in s.now) (frames_of s.now (table work.old) scope.now.frames) (mode_of q.mode) (text_at s.now q.name) c (operand_of s.now (table work.old) o)) }
{
    let named = match o.kind.class() {
        Kind::Array => false,
        Kind::Object => true,
        _ => return Ok(Truth::Unknown),
    };
    let mut truth = start(q.mode);
    let mut c = Children::of(work, o.node, named);
    while let Some(x) = c.next(work) {
        let t = with_part(s, work, scope, q, o, value_node(named, x.node), left)?;
        truth = join(q.mode, truth, t);
        if settles(q.mode, t) {
            return Ok(truth);
        }
        c = x.rest;
    }
    Ok(truth)
}

// The body under its binder, which stands for the part of the collection at a node.
#[cycle(each_evaluate_junction_quantify_with_part)]
fn with_part(
    s: &[u8],
    work: &mut [u32],
    scope: &Scope,
    q: Quantifier,
    o: Operand,
    node: usize,
    left: usize,
) -> Result<Truth, EvalError>
    requires { Ready s.now work.old scope.now.roots scope.now.frames × (2 * scope.now.frames.depth + 2 + left ≤ 64) × HasNode s.now (table work.old) node × OnText s.now q.name 0 × Known (Gives condition s.now (table work.old) q.body) × (depth (tree s.now (table work.old) q.body) ≤ left) }
    ensures { (c : Condition) → Gives condition s.now (table work.old) q.body c → EvaluatedAs s.now work.old work.new result (judge (sheet_in s.now) ((text_at s.now q.name, part_at (sheet_in s.now) s.now (table work.old) (frames_of s.now (table work.old) scope.now.frames) o node) ∷ frames_of s.now (table work.old) scope.now.frames) c) }
{
    let operand = part_of(s, work, scope, o, node);
    let inner = scope.push(Frame {
        name: q.name,
        operand,
    });
    evaluate(s, work, &inner, q.body, left)
}
